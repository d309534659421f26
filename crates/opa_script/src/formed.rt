// What a change answers is a line.
ghost use Rattle.opa_script.specs.Laws.{HasLine, IsWellFormed};

use crate::Command;
use opa_case::ChangeCommand;

/// What a change answers is a line.
fn has_line(change: &ChangeCommand)
    ensures { HasLine change.now }
{
    match change {
        ChangeCommand::Answer(_, _, line) => {
            let _pairs = line.segments();
        }
        ChangeCommand::Withdraw(_, _)
        | ChangeCommand::SetList(_, _, _)
        | ChangeCommand::Forget(_, _) => {}
    }
}

/// What a command answers is a line. It does nothing: its clause is what callers want of a command that they hold.
pub fn is_well_formed(command: &Command)
    ensures { IsWellFormed command.now }
{
    match command {
        Command::Change(change) => has_line(change),
        Command::Nothing
        | Command::ShowAttr(_, _)
        | Command::ShowMembers(_, _)
        | Command::Save(_)
        | Command::Load(_)
        | Command::Goals
        | Command::Next
        | Command::Screen
        | Command::Report(_, _, _)
        | Command::Stats
        | Command::Dismiss(_) => {}
    }
}
