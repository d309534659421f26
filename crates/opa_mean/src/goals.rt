// The state of a goal: undecided, decided, or settled for good.

mod freedom;
mod laws;
mod lines;
mod ranks;
mod states;
mod telling;
mod trees;

pub use freedom::Frees;
pub use laws::{asked_is_declared, free_is_found, next_is_declared, states_are_exact};
pub use states::{GoalState, are_all_known, goal_state, open_goal};
