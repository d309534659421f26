// Which texts are spelled as reports, and what such a text says: nothing of it is looked up.

mod body;
mod clean;
mod cuts;
mod days;
mod laws;
mod lines;
mod names;
mod origins;
mod printed;
mod reading;
mod spots;
mod texts;
mod told;
mod values;

pub use laws::{one_first_fault, one_spelling, spelled_has_none, texts_are_spelled};
pub use printed::{Origin, Printed, Spelled, Spot};
pub use reading::{Reading, read_report};
pub use texts::origin_text;
