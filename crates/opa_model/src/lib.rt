//! What a rulebase declares: entities, attributes, relations, verbs, screens and goals: for all crates that speak of a
//! rulebase.
#![tactic(auto)]

mod ids;
mod lists;
mod model;
mod phrases;
mod things;

pub use ids::{AttrId, EntityId, RelId};
pub use lists::Lists;
pub use model::{Model, Ruled};
pub use things::{Attribute, Entity, Item, Kind, Relation, Screen, Sentence, Verb};
