// The words of the command line: which mode they ask for, and over which rulebase.

mod clapped;
mod reading;

pub use clapped::WordsFault;
pub use reading::{Asked, Mode, read_words};
