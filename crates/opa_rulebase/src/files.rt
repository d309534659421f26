// The files of a rulebase: taken from a shelf, and laid out in blocks.

mod blocks;
mod fault;
mod lines;
mod source;
mod taking;

pub use blocks::lay_out;
pub use fault::{TakeError, Unread};
pub use lines::file_lines;
pub use source::{FileLine, SourceFile};
pub use taking::take_files;
