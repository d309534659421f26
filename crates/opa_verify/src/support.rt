// Whether what a report lists holds up each of its lines: the lines are looked at alone, without a case.

mod asked;
mod faults;
mod laws;
mod ledger;
mod page;

pub use asked::is_listed;
pub use faults::first_fault;
pub use laws::{
    held_up_fixes, held_up_supports, report_is_held_up, reports_are_held_up, rules_are_single,
};
