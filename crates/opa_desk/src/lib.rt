//! Many cases at a desk, from words, the files of a shelf and one input to what is written: for the program `desk`.
#![tactic(auto)]

mod doing;
mod reading;

pub use doing::desk;
pub use reading::{Asked, Mode};
