//! Laws alone, of whole transcripts: nothing else could be written, and the verifier supports what is printed.
#![tactic(auto)]

pub mod decided;
pub mod generated;
pub mod verified;

pub use decided::{
    one_acceptance, one_answer, one_check_fault, one_command_fault, one_declaration_fault,
    one_finding, one_inference, one_loaded, one_opening, one_reply, one_rule_list, one_taking,
    one_transcript,
};
pub use generated::generated_is_accepted;
pub use verified::{
    held_is_printable, opened_is_printable, reports_are_of_cases, reports_are_verified,
};
