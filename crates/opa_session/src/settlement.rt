// Only what a change reaches is derived again.

mod answer;
mod changing;
mod laws;
mod living;
mod settling;
mod starting;
mod task;
mod tasks;

pub use answer::settle_answer;
pub use changing::{Reading, start_change};
pub use laws::same_are_current;
pub use living::mark_live;
pub use settling::settle;
pub use starting::{mark, mark_one, mark_set, start_answer};
pub use task::Task;
pub use tasks::Tasks;
