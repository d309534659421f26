//! Listeners, who is told of changes, what they keep of them, and what they say at the end: for callers that watch.
#![tactic(auto)]

mod change;
mod journal;
mod leaving;
mod listener;
mod ready;
mod saying;
mod telling;
mod watch;

pub use change::Change;
pub use journal::Journal;
pub use leaving::dismiss;
pub use listener::Listener;
pub use ready::{copies, ready_all};
pub use saying::words;
pub use telling::tell;
pub use watch::Watch;
