// The text of a decision report.

mod told;
mod whole;

pub use told::origin_text;
pub use whole::report_text;
