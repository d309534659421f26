// What holds of all lines.
ghost use Rattle.opa_script.specs.Laws.{OneCommand, RefusedOrRead, CommandsAreInRange, OneReply, RefusedOrReplied, RepliesAreInRange};

/// A line is at most one command.
pub fn one_command()
    ensures { OneCommand }
{}

/// A line that is a command has no fault.
pub fn refused_or_read()
    ensures { RefusedOrRead }
{}

/// What a command names is declared, and a day is of the calendar.
#[tactic(auto, using(crate::proofs::Ranges::command_in_range))]
pub fn commands_are_in_range()
    ensures { CommandsAreInRange }
{}
/// A line is at most one reply to a question.
pub fn one_reply()
    ensures { OneReply }
{}

/// A line that is a reply has no fault.
pub fn refused_or_replied()
    ensures { RefusedOrReplied }
{}

/// What a reply to a declared question names is declared.
pub fn replies_are_in_range()
    ensures { RepliesAreInRange }
{}
