//! Commands and replies as they are read from a line, and the generator of example runs: for all that answers lines.
#![tactic(auto)]

mod changes;
mod command;
mod examples;
mod fault;
mod files;
mod formed;
mod laws;
mod lines;
mod points;
mod reading;
mod replies;
mod short;
mod shows;
mod targets;
mod verbs;

pub use command::Command;
pub use examples::{Generated, generate};
pub use fault::CmdFault;
pub use formed::is_well_formed;
pub use laws::{
    commands_are_in_range, one_command, one_reply, refused_or_read, refused_or_replied,
    replies_are_in_range,
};
pub use lines::{is_idle, past_blanks};
pub use reading::read_command;
pub use replies::{read_reply, slashed};
