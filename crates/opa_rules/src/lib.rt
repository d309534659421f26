//! For who writes rules: what a rulebase declares, as JSON, its errors in words, a rulebase as one file, and what is worth
//! a look in it: for the program `rules`.
#![tactic(auto)]

mod describe;
pub mod describing;
mod doing;
mod faults;
mod print;
mod printing;
mod reading;
mod review;
pub mod reviewing;
mod same_trees;

pub use describing::{description, one_description};
pub use doing::rules;
pub use printing::same_rules_mean_the_same;
pub use reading::{Asked, Mode};
pub use reviewing::{
    AlikeAttributes, AlikeLists, Compared, Comparison, Finding, Form, Level, Operand,
    RoundedCurrency, SettledGoal, UncertainEnding, UnreachedRow, UnusedAttribute, Verdict,
    all_are_found, bounds_are_kept, findings_are_so,
};
