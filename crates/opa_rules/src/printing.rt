// A rulebase as one file, each rule in its one spelling. What is printed is read back and compared, so that the functions
// that make the text promise nothing of it.

mod attributes;
mod blocks;
mod laws;
mod names;
mod reading_back;
mod relations;
mod same_models;
mod same_rules;
mod same_things;
mod screens;
mod shelves;
mod whole;

pub use laws::same_rules_mean_the_same;
pub(crate) use reading_back::printed;
