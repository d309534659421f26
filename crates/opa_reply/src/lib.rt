//! What a line of the input prints, what is reported of a case, and what is held after it: for runs and interviews.
#![tactic(auto)]

mod carrying;
mod changes;
mod conversation;
mod dismissing;
mod files;
mod interview;
mod lines;
mod loading;
mod refused;
mod replying;
pub mod reporting;

pub use conversation::Conversation;
pub use interview::Interview;
pub use lines::{bytes_of, text_of};
pub use refused::{refused_change, refused_command};
pub use reporting::{
    Prompt, goals_told, names_told, next_told, one_report_told, prompt_asking, prompt_told,
    report_told, screen_told, stats_told, value_told,
};
