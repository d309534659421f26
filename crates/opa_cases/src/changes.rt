// A command of one case.
ghost use Rattle.std.specs.Prelude.{◌≡◌, IfOk};
ghost use Rattle.opa_case.specs.Laws.{IsDeclared};
ghost use Rattle.opa_case.specs.Shapes.{shape_of};
ghost use Rattle.opa_session.specs.Infer.Sessions.{rules_of};
ghost use Rattle.opa_script.specs.Laws.{IsInRange};
ghost use Rattle.opa_cases.specs.Holding.{open_of};
ghost use Rattle.opa_cases.specs.Scripts.{Changes, Does};

use crate::kept::Current;
use opa_case::{ChangeCommand, Refusal};
use opa_io::{NoMemory, Steps};
use opa_listen::Listener;
use opa_reply::{
    goals_told, names_told, next_told, refused_change, refused_command, stats_told, value_told,
};
use opa_script::{CmdFault, Command};
use opa_session::Session;
use std::alloc::Global;
use std::sync::ledger::Ledger;

/// Makes a change whole, or refuses it.
fn change<L: Ledger>(
    alloc: Global,
    session: &mut Session<L>,
    current: &mut Current,
    steps: &mut Steps<L>,
    command: ChangeCommand,
) -> Result<Vec<u8>, NoMemory>
    requires declared { IsDeclared (shape_of (rules_of session.old).model) command }
    ensures ok { IfOk result (λ t. Changes (rules_of session.old) (open_of session.old current.old) command t.items (open_of session.new current.new)) }
    ensures base { rules_of session.new ≡ rules_of session.old }
    ensures name { current.new.name ≡ current.old.name }
    ensures pile { current.new.pile ≡ current.old.pile }
{
    let mut nobody: Vec<Box<dyn Listener>> = Vec::new(alloc);
    match session.apply(alloc, command, &mut nobody, steps) {
        Ok(_) => {
            current.reached = session.dirty();
            Ok(Vec::new(alloc))
        }
        Err(Refusal::NoMemory) => Err(NoMemory),
        Err(refusal) => {
            let text = refused_change(alloc, refusal)?;
            Ok(text)
        }
    }
}

/// Carries out a command of one case; those that a caseload doesn't take are refused.
pub(crate) fn do_command<L: Ledger>(
    alloc: Global,
    session: &mut Session<L>,
    current: &mut Current,
    steps: &mut Steps<L>,
    command: Command,
) -> Result<Vec<u8>, NoMemory>
    requires command { IsInRange (rules_of session.old).model command }
    ensures ok { IfOk result (λ t. Does (rules_of session.old) (open_of session.old current.old) command t.items (open_of session.new current.new)) }
    ensures base { rules_of session.new ≡ rules_of session.old }
    ensures name { current.new.name ≡ current.old.name }
    ensures pile { current.new.pile ≡ current.old.pile }
{
    match command {
        Command::Change(command) => change(alloc, session, current, steps, command),
        Command::ShowAttr(attr, inst) => value_told(alloc, session, attr, &inst),
        Command::ShowMembers(rel, inst) => names_told(alloc, session, rel, &inst),
        Command::Goals => goals_told(alloc, session, session.frees()),
        Command::Next => next_told(alloc, session),
        Command::Stats => stats_told(alloc, session, current.reached),
        Command::Nothing
        | Command::Screen
        | Command::Report(_, _, _)
        | Command::Save(_)
        | Command::Load(_)
        | Command::Dismiss(_) => refused_command(alloc, CmdFault::NotACommand),
    }
}
