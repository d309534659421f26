//! The forms of a sentence: what is said, its negative, and the question for it: for rules and for what is asked.
#![tactic(auto)]

mod sentence;

pub use sentence::{Form, say};
