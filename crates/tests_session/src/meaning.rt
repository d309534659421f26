// Tests alone: what is determined of loaded rulebases, day by day and as code, and what rules look at.

#[cfg(test)]
mod carried;
#[cfg(test)]
mod changed;
#[cfg(test)]
mod looked;
#[cfg(test)]
mod meant;
#[cfg(test)]
mod placed;
