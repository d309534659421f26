// The lines of a text file, laid out in blocks with levels.

mod block;
mod fault;
mod indent;
mod laws;
mod laying;
mod lines;

pub use block::{Block, BlockLine};
pub use fault::LayoutFault;
pub use indent::{Indent, indent_of};
pub use laws::one_layout;
pub use laying::blocks;
pub use lines::{Line, first_line, text_of, without_mark};
