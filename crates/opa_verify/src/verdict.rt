// Whether the text of a report holds up its value.

mod judging;
mod laws;
mod naming;
mod shown;
mod telling;
mod verdict;
mod verifying;

pub use laws::{one_verdict, reports_are_upheld, reports_get_yes};
pub use telling::Told;
pub use verdict::Verdict;
pub use verifying::{tell, verify};
