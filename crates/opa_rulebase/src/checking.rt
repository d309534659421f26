// The check of rules: what is reached, of which kinds it is, one rule for each attribute, and no circles.
#![tactic(auto, using(crate::proofs::checking::SetLaws::same_typing))]

mod circle;
mod declared;
mod faults;
mod kinds;
mod laws;
mod order;
mod ranks;
mod scopes;
mod sets;
mod uses;
mod verdict;

pub use laws::{accepted_are_not_refused, circles_are_round, ranks_exist};
pub use verdict::check;
