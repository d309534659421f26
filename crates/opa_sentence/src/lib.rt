//! The grammar of a line of a rule, how it is read, and how a tree is printed as one: for loading and `opa_wording`.
#![tactic(auto)]

mod calls;
mod class;
mod cursor;
mod functions;
mod laws;
mod literals;
mod measure;
mod names;
mod reader;
mod reading;
mod sizes;
mod sorts;
mod table;
mod whole;

pub use calls::quantified;
pub use class::{Class, class_of};
pub use cursor::Cursor;
pub use functions::{Argument, Function, argument_at};
pub use laws::{measures_are_told, one_meaning};
pub use measure::Measure;
pub use names::{Member, Names, Operand, Relation};
pub use reader::read;
pub use reading::{Arguments, Parts, Reading};
pub use sorts::{Frame, Sort};
pub use table::{Step, relation_at};
pub use whole::{line_of, operand_of};
