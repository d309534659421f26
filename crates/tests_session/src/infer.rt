// Tests alone: what a session answers to its calls: how many values change, how many slots that reaches, the states of goals, and what listeners keep.

#[cfg(test)]
mod listeners;
#[cfg(test)]
mod outcome;
#[cfg(test)]
mod replaced;
#[cfg(test)]
mod rows;
