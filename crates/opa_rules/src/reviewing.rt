// What is worth a look in an accepted rulebase.

mod alike;
mod attributes;
mod compared_words;
mod comparisons;
mod conditions;
mod digests;
mod document;
mod earlier;
mod endings;
mod finding;
mod form;
mod gathering;
mod judging;
mod laws;
mod looking;
mod marks;
mod operations;
mod phrases;
mod printed;
mod roundings;
mod rows;
mod settling;
mod words;

pub use finding::{
    AlikeAttributes, AlikeLists, Compared, Comparison, Finding, Level, Operand, RoundedCurrency,
    SettledGoal, UncertainEnding, UnreachedRow, UnusedAttribute, Verdict,
};
pub use form::Form;
pub(crate) use form::shown;
pub use laws::{all_are_found, bounds_are_kept, findings_are_so};
