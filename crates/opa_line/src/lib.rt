//! Values over the days of the calendar, kept as their change points: for what is worked out over many days at once.
#![tactic(auto)]

mod builder;
mod combine;
mod differ;
mod laws;
mod line;
mod pairs;
mod walk;

pub use builder::Builder;
pub use laws::{at_is_of_the_last_pair, canon_is_the_line, equal_where_values_are};
pub use line::Line;
pub use opa_date::DAYS;
pub use pairs::LineFault;
