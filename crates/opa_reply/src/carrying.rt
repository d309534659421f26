// A command is carried out.
ghost use Rattle.std.specs.Prelude.{◌≡◌, ◌≤◌, ◌<◌, ◌^◌, length, map, IfOk, IfErr, OnErr};
ghost use Rattle.opa_session.specs.Infer.Sessions.{rules_of};
ghost use Rattle.opa_listen.specs.Hearing.{hearer};
ghost use Rattle.opa_script.specs.Laws.{IsInRange};
ghost use Rattle.opa_talk.specs.Halt.{IsReplyCause};
ghost use Rattle.opa_reply.specs.Held.{beside};
ghost use Rattle.opa_reply.specs.Replies.{CarriesOut, HaltsAt, HaltsFrom, Responds};

use crate::changes::change;
use crate::dismissing::dismissed;
use crate::files::save;
use crate::loading::load_file;
use crate::refused::refused_command;
use crate::reporting::{
    goals_told, names_told, next_told, report_told, screen_told, stats_told, value_told,
};
use opa_io::{Shelf, Steps};
use opa_listen::Listener;
use opa_script::{CmdFault, Command};
use opa_session::Session;
use opa_talk::Halt;
use std::alloc::Global;
use std::sync::ledger::Ledger;

/// Carries out a command, and answers what it prints.
#[tactic(auto, using(crate::proofs::ReplyLaws::carrying))]
fn carry_out<F: Shelf, L: Ledger>(
    alloc: Global,
    session: &mut Session<L>,
    shelf: &mut F,
    listeners: &mut Vec<Box<dyn Listener>>,
    steps: &mut Steps<L>,
    command: Command,
) -> Result<Vec<u8>, Halt>
    requires command { IsInRange (rules_of session.old).model command }
    requires fewer { length listeners.old.items < 2 ^ 64 }
    ensures ok { IfOk result (λ t. CarriesOut command (beside session.old (map (λ l. hearer (state l)) listeners.old.items) (F.files shelf.old) steps.old) t.items (beside session.new (map (λ l. hearer (state l)) listeners.new.items) (F.files shelf.new) steps.new)) }
    ensures err { OnErr result (HaltsAt (F.keep_faults shelf.old) (F.keep_faults shelf.new) command (beside session.old (map (λ l. hearer (state l)) listeners.old.items) (F.files shelf.old) steps.old) (beside session.new (map (λ l. hearer (state l)) listeners.new.items) (F.files shelf.new) steps.new)) }
    ensures cause { IfErr result (IsReplyCause (F.take_faults shelf.old) (F.take_faults shelf.new) (F.keep_faults shelf.old) (F.keep_faults shelf.new)) }
    ensures later_take { F.take_faults shelf.old ≤ F.take_faults shelf.new }
    ensures later_keep { F.keep_faults shelf.old ≤ F.keep_faults shelf.new }
    ensures base { rules_of session.new ≡ rules_of session.old }
{
    match command {
        Command::Nothing => Ok(Vec::new(alloc)),
        Command::Change(command) => match change(alloc, session, listeners, steps, command) {
            Ok(text) => Ok(text),
            Err(_) => Err(Halt::Memory),
        },
        Command::ShowAttr(attr, inst) => Ok(value_told(alloc, session, attr, &inst)?),
        Command::ShowMembers(rel, inst) => Ok(names_told(alloc, session, rel, &inst)?),
        Command::Goals => Ok(goals_told(alloc, session, session.frees())?),
        Command::Next => Ok(next_told(alloc, session)?),
        Command::Screen => Ok(screen_told(alloc, session, session.frees())?),
        Command::Report(attr, inst, day) => Ok(report_told(alloc, session, attr, &inst, day)?),
        Command::Save(name) => match save(alloc, session, shelf, &name) {
            Ok(text) => Ok(text),
            Err(halt) => Err(halt),
        },
        Command::Load(name) => match load_file(alloc, session, shelf, listeners, steps, &name) {
            Ok(text) => Ok(text),
            Err(halt) => Err(halt),
        },
        Command::Stats => Ok(stats_told(alloc, session, session.dirty())?),
        Command::Dismiss(number) => Ok(dismissed(alloc, listeners, number)?),
    }
}

/// Carries out what a line was read as, or refuses it.
#[tactic(auto, using(crate::proofs::ReplyLaws::responding))]
pub(crate) fn respond<F: Shelf, L: Ledger>(
    alloc: Global,
    session: &mut Session<L>,
    shelf: &mut F,
    listeners: &mut Vec<Box<dyn Listener>>,
    steps: &mut Steps<L>,
    read: Result<Command, CmdFault>,
) -> Result<Vec<u8>, Halt>
    requires command { IfOk read (IsInRange (rules_of session.old).model) }
    requires fewer { length listeners.old.items < 2 ^ 64 }
    ensures ok { IfOk result (λ t. Responds read (beside session.old (map (λ l. hearer (state l)) listeners.old.items) (F.files shelf.old) steps.old) t.items (beside session.new (map (λ l. hearer (state l)) listeners.new.items) (F.files shelf.new) steps.new)) }
    ensures err { OnErr result (HaltsFrom (F.keep_faults shelf.old) (F.keep_faults shelf.new) read (beside session.old (map (λ l. hearer (state l)) listeners.old.items) (F.files shelf.old) steps.old) (beside session.new (map (λ l. hearer (state l)) listeners.new.items) (F.files shelf.new) steps.new)) }
    ensures cause { IfErr result (IsReplyCause (F.take_faults shelf.old) (F.take_faults shelf.new) (F.keep_faults shelf.old) (F.keep_faults shelf.new)) }
    ensures later_take { F.take_faults shelf.old ≤ F.take_faults shelf.new }
    ensures later_keep { F.keep_faults shelf.old ≤ F.keep_faults shelf.new }
    ensures base { rules_of session.new ≡ rules_of session.old }
{
    match read {
        Ok(command) => carry_out(alloc, session, shelf, listeners, steps, command),
        Err(fault) => {
            let text = refused_command(alloc, fault)?;
            Ok(text)
        }
    }
}
