//! What the engine reads, writes and keeps, all limits, and the texts, lists and boxes that contracts speak of: for
//! every crate.
#![tactic(auto)]

mod boxed;
mod ending;
mod fault;
mod files;
mod gathered;
pub mod limits;
mod list;
mod memory;
mod order;
mod outside;
mod same;
mod shelf;
mod standard;
mod steps;
mod text;
mod witness;

pub use boxed::Boxed;
pub use ending::flushed;
pub use fault::{Failed, NoMemory, Status, TakeFault};
pub use files::FileShelf;
pub use gathered::Gathered;
pub use list::{List, front};
pub use memory::{MemSink, MemSource};
pub use outside::{Shelf, Sink, Source, write_all_of};
pub use same::Same;
pub use shelf::MemShelf;
pub use standard::{StdSink, StdSource};
pub use steps::Steps;
pub use text::Txt;
pub use witness::Witness;
