//! The top call, from the words of the command line, files and one input to the transcript: for the program `opa`.
#![tactic(auto)]

mod asking;
mod check;
mod example;
mod generating;
mod meaning;
mod talk;
mod top;
pub mod usage;
mod verifying;

pub use top::run;
pub use usage::{Asked, Mode, WordsFault, read_words};
