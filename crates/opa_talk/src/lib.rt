//! A talk, in which lines are read, answered and written, and whole inputs: for every program that reads or writes.
#![tactic(auto)]

mod feed;
mod halt;
mod line;
mod replier;
mod status;
mod talk;
pub mod whole_input;

pub use feed::{converse, cut_anywhere};
pub use halt::Halt;
pub use line::without_mark;
pub use replier::{Prompt, Replier};
pub use status::end_of;
pub use talk::cut;
pub use whole_input::{Stop, read_all, tell};
