// What is made of lines at each day: nothing is looked at day by day.

mod bests;
mod choice;
mod counts;
mod gathering;
mod items;
mod lines;
mod marks;
mod operand;
mod operations;
mod peaks;
mod steady;
mod sums;
mod sweep;
mod tally;
mod windows;

pub use gathering::Gathering;
pub use items::{Items, gathering_of};
pub use lines::{
    certain_line, choice_line, first_line, fitted_line, gathered, item_line, known_line, not_line,
    op_line, quantified, same_line,
};
pub(crate) use lines::{choice_over, gathered_over, op_over};
pub use operand::Operand;
pub(crate) use operand::{newest, take_newest, taken_first};
pub use steady::constant_of;
pub use sums::amount;
pub use windows::{rolling_line, window_line};
