// Sets of days of the calendar, kept as lines of truth values.

mod sets;
mod spans;

pub use sets::{both, either, has_some, nothing, without};
pub use spans::{Span, covered, looked_back};
