//! Listeners that are told of changes, one of a caller's own among them, which the stories take too: tests alone.
#![tactic(auto)]

#[cfg(test)]
mod changes;
mod fussy;
#[cfg(test)]
mod told;

pub use fussy::Fussy;
