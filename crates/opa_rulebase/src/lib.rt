//! Whole rulebases: their files, the check of their rules, and what is accepted, or the first fault: for all modes.
#![tactic(auto)]

mod accepting;
pub mod checking;
mod fault;
pub mod files;
mod loading;
mod printed;
mod ruled;
mod tables;

pub use accepting::{accept, with_circle, without_circle};
pub use checking::{accepted_are_not_refused, check, circles_are_round, ranks_exist};
pub use fault::{LoadError, Refusal, Unaccepted};
pub use files::{FileLine, SourceFile, TakeError, Unread, file_lines, lay_out, take_files};
pub use loading::load_rulebase;
pub use printed::{circle_lines, refusal_text};
pub use ruled::ruled_of;
pub use tables::tables_of;
