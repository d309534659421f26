// Laws alone: the files of a shelf open at most one thing, each line has one reply, and lines have one transcript.

mod laws;
mod opening_laws;

pub use laws::{one_answer, one_command_fault, one_loaded, one_reply, one_transcript};
pub use opening_laws::{
    one_acceptance, one_check_fault, one_declaration_fault, one_finding, one_inference,
    one_opening, one_rule_list, one_taking,
};
