//! Declarations: the model that the blocks of rule files declare, or the first fault: for loading.
#![tactic(auto)]

mod cut;
mod declarations;
mod drafting;
mod drafts;
mod faults;
mod head;
mod items;
mod judging;
mod laws;
mod limits;
mod lines;
mod lists;
mod marks;
mod members;
mod names;
mod numbered;
mod over;
mod pieces;
mod places;
mod reading;
mod spelling;
mod tables;
mod tabling;
mod twice;
mod unknown;
mod wording;

pub use cut::{CutBlock, CutLine};
pub use declarations::read_declarations;
pub use head::Head;
pub use items::{
    AttributeLine, Bounds, EntityLines, Item, Name, Place, Reach, RelationLine, Said, ScreenLines,
    Sort, VerbLine,
};
pub use laws::one_reading;
pub use limits::Limits;
pub use numbered::{Counts, Numbered};
