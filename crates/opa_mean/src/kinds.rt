// Laws alone: what accepted rules conclude has its kind, and inferred relationships mean what their members are.

mod laws;
mod members;

pub use laws::{conditions_are_truths, for_stands_to_one, memberships_count, values_have_kinds};
pub use members::members_count;
