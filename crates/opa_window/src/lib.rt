//! Functions over time, for rules that look at many days. Each answers a line whose value at each day is the function's
//! at that day; the work grows with the change points of the lines that it is given and of its answer, never with days.
#![tactic(auto)]

mod dates;
mod extremes;
mod folds;
mod interval;
mod laws;
mod marks;
mod numbers;
mod rolling;
mod runs;
mod stretches;
mod sums;
mod years;

pub use dates::{before, on_or_after, value_at};
pub use interval::{
    interval_always, interval_max, interval_min, interval_run, interval_sometimes, interval_sum,
};
pub use laws::{greatest_is_greatest, least_is_least, longest_is_longest, reads_the_calendar};
pub use rolling::{rolling_always, rolling_sometimes};
pub use years::years_since;
