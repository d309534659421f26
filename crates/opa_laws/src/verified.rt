// Laws alone: what files open and what is held in a run or an interview can be printed, and the verifier supports what is printed
// there as a report.

mod laws;

pub use laws::{
    held_is_printable, opened_is_printable, reports_are_of_cases, reports_are_verified,
};
