//! Instances, and finite maps from pairs of a number and an instance: for cases and what is kept of their instances.
#![tactic(auto)]

mod cells;
mod instance;
mod keeps;
mod lent;
mod others;
mod row;
mod rows;
mod unordered;

pub use cells::{Cells, Copies};
pub use instance::InstanceId;
pub use keeps::Keeps;
