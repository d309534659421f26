//! Decision reports: the points and lists that a value rests on, with their days, and their text: for who explains.
#![tactic(auto)]

mod alike;
mod choices;
mod dates;
pub mod day_sets;
mod found;
mod held;
mod kept;
mod kept_lines;
mod laws;
mod lines;
mod listed;
mod mark;
mod order;
mod owned;
mod part_lines;
mod points;
mod quantified;
mod reporting;
mod runs;
mod sight;
mod spread;
pub mod text;
mod walk;
mod whole;

pub use day_sets::{Span, both, covered, either, has_some, looked_back, nothing, without};
pub use laws::{at_most_one, report_supports, runs_are_exact};
pub use lines::{Report, ReportLine};
pub use mark::Mark;
pub use sight::Sight;
pub use text::{origin_text, report_text};
pub use whole::report;
