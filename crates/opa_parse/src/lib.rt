//! Rules and membership blocks, and tables of comma-separated values, from blocks and records to trees: for loading.
#![tactic(auto)]

mod block;
mod blocks;
mod cut;
mod faults;
mod group;
mod laws;
mod line;
mod lines;
mod members;
mod names;
mod openings;
mod reader;
mod rules;
mod sayings;
mod table;
pub mod tables;
mod texts;
mod words;

pub use block::{BlockSort, MemberBlock, Membership, Opening, RuleBlock, Statement};
pub use group::{Cases, Frame, Front, Group, Items, Joint, Mark, Said, Several, Sort};
pub use laws::one_rule;
pub use line::{Ending, Head, Line};
pub use lines::Lines;
pub use members::{Gathered, read_inferences};
pub use names::names_of;
pub use openings::{begins_with_word, concluded};
pub use reader::read;
pub use rules::{Taken, inferred_nodes, read_rules, take_blocks};
pub use sayings::{and_then, line_marks};
pub use table::Step;
pub use tables::{
    Case, Cased, Found, Heading, Heads, Last, Table, TableFile, Test, Words, one_table,
    read_all_rules, read_table, take_table, take_tables,
};
pub use texts::Texts;
pub use words::{back, ending_of};
