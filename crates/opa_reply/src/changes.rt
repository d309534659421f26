// A change of the case.
ghost use Rattle.std.specs.Prelude.{◌≡◌, ◌<◌, ◌^◌, ℕ, Option, length, map, IfOk, OnErr};
ghost use Rattle.opa_io.specs.Outside.{Files};
ghost use Rattle.opa_case.specs.Laws.{IsDeclared};
ghost use Rattle.opa_case.specs.Shapes.{shape_of};
ghost use Rattle.opa_session.specs.Infer.Sessions.{rules_of};
ghost use Rattle.opa_listen.specs.Hearing.{hearer};
ghost use Rattle.opa_reply.specs.Held.{beside};
ghost use Rattle.opa_reply.specs.Replies.{Changes, HaltsAt};
ghost use Rattle.opa_script.specs.declared.command.Command.TheVariants as commands;

use crate::refused::refused_change;
use opa_case::{ChangeCommand, Refusal};
use opa_io::{NoMemory, Steps};
use opa_listen::Listener;
use opa_session::Session;
use std::alloc::Global;
use std::sync::ledger::Ledger;

/// Makes a change whole, or refuses it with the session, what listeners keep and the steps as they were.
#[tactic(auto, using(crate::proofs::Changing::changing))]
pub(crate) fn change<L: Ledger>(
    alloc: Global,
    session: &mut Session<L>,
    listeners: &mut Vec<Box<dyn Listener>>,
    steps: &mut Steps<L>,
    command: ChangeCommand,
) -> Result<Vec<u8>, NoMemory>
    requires declared { IsDeclared (shape_of (rules_of session.old).model) command }
    requires fewer { length listeners.old.items < 2 ^ 64 }
    ensures ok { IfOk result (λ t. (files : Option Files) → Changes (beside session.old (map (λ l. hearer (state l)) listeners.old.items) files steps.old) command t.items (beside session.new (map (λ l. hearer (state l)) listeners.new.items) files steps.new)) }
    ensures err { OnErr result ((files : Option Files) (keep keep' : ℕ) → HaltsAt keep keep' (commands.Change command) (beside session.old (map (λ l. hearer (state l)) listeners.old.items) files steps.old) (beside session.new (map (λ l. hearer (state l)) listeners.new.items) files steps.new)) }
    ensures base { rules_of session.new ≡ rules_of session.old }
{
    match session.apply(alloc, command, listeners, steps) {
        Ok(_) => Ok(Vec::new(alloc)),
        Err(Refusal::NoMemory) => Err(NoMemory),
        Err(refusal) => {
            let text = refused_change(alloc, refusal)?;
            Ok(text)
        }
    }
}
