//! How a rule is written as text that reads back as the same rule: for laws of what can be printed, and tests.
#![tactic(auto)]

mod joint;
mod laws;
mod lines;
mod rules;
mod signs;
mod texts;
mod tokens;

pub use joint::Joint;
pub use laws::{
    lines_are_cut, lines_read_back, lines_spell_trees, phrases_are_read, rules_are_given,
    rules_are_tight, rules_read_back,
};
pub use lines::line_text;
pub use rules::rule_text;
pub use texts::{blocks_are_texts, phrases_are_texts};
