// Tests alone: rules of loaded rulebases as text, and what their models say.

#[cfg(test)]
mod printed;
#[cfg(test)]
mod spoken;
