//! Rules as flat code, and what is made of whole lines, no day by itself: for sessions, questions and reports.
#![tactic(auto)]

mod carry;
mod code;
mod constant;
mod derive;
mod gather;
mod kept;
mod laws;
mod leave;
mod lines_of_members;
mod members;
mod node;
pub mod over_lines;
mod owners;
mod rule_code;
mod rules;
mod run;
mod tree_lines;

pub use code::Code;
pub use laws::code_is_short;
pub use lines_of_members::MemberLines;
pub use over_lines::{
    Gathering, Items, Operand, amount, certain_line, choice_line, constant_of, first_line,
    fitted_line, gathered, gathering_of, item_line, known_line, not_line, op_line, quantified,
    rolling_line, same_line, window_line,
};
pub use rules::compile;
pub use tree_lines::tree_line;
