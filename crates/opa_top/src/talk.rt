// The mode `run`.
ghost use Rattle.std.specs.Prelude.{◌<◌, ◌^◌, length, map, IfErr, OnOk};
ghost use Rattle.opa_listen.specs.Hearing.{hearer};
ghost use Rattle.opa_model.specs.Models.{IsModel};
ghost use Rattle.opa_talk.specs.Halt.{IsCause};
ghost use Rattle.opa_top.specs.Running.{outside, Runs, TalksAll, TalksPart, a_run};

use crate::check::tell;
use opa_io::{NoMemory, Shelf, Sink, Source, Status, Steps};
use opa_listen::Listener;
use opa_reply::Conversation;
use opa_rulebase::{LoadError, load_rulebase};
use opa_talk::{Halt, converse, end_of};
use opa_tree::Rulebase;
use std::alloc::Global;
use std::sync::ledger::Ledger;

/// Carries out the lines of the input over a rulebase.
fn talk<S: Source, F: Shelf, K: Sink, L: Ledger>(
    alloc: Global,
    base: Rulebase,
    shelf: &mut F,
    listeners: &mut Vec<Box<dyn Listener>>,
    steps: &mut Steps<L>,
    input: &mut S,
    out: &mut K,
) -> Result<(), Halt>
    requires fewer { length listeners.old.items < 2 ^ 64 }
    ensures all { OnOk result (TalksAll a_run base
        (outside F.files F.take_faults F.keep_faults S.left S.faults K.written K.faults shelf.old (map (λ l. hearer (state l)) listeners.old.items) input.old out.old steps.old)
        (outside F.files F.take_faults F.keep_faults S.left S.faults K.written K.faults shelf.new (map (λ l. hearer (state l)) listeners.new.items) input.new out.new steps.new)) }
    ensures part { IfErr result (TalksPart a_run base
        (outside F.files F.take_faults F.keep_faults S.left S.faults K.written K.faults shelf.old (map (λ l. hearer (state l)) listeners.old.items) input.old out.old steps.old)
        (outside F.files F.take_faults F.keep_faults S.left S.faults K.written K.faults shelf.new (map (λ l. hearer (state l)) listeners.new.items) input.new out.new steps.new)) }
    ensures cause { IfErr result (IsCause (F.take_faults shelf.old) (F.take_faults shelf.new) (F.keep_faults shelf.old) (F.keep_faults shelf.new) (K.faults out.old) (K.faults out.new) (S.faults input.old) (S.faults input.new)) }
{
    match Conversation::start(alloc, base, steps) {
        Ok(mut conversation) => {
            let end = converse(
                alloc,
                &mut conversation,
                shelf,
                listeners,
                steps,
                input,
                out,
            );
            drop(conversation);
            end
        }
        Err(NoMemory) => Err(Halt::Memory),
    }
}

/// What a rulebase declares is a model.
pub(crate) fn declares_a_model(base: &Rulebase)
    ensures { IsModel base.now.model }
{
    let _count = base.model.entity_count();
}

/// Loads a rulebase, and carries out the lines of the input over it.
pub(crate) fn open_and_talk<S: Source, F: Shelf, K: Sink, L: Ledger>(
    alloc: Global,
    name: &str,
    shelf: &mut F,
    listeners: &mut Vec<Box<dyn Listener>>,
    steps: &mut Steps<L>,
    input: &mut S,
    out: &mut K,
) -> Status
    requires fewer { length listeners.old.items < 2 ^ 64 }
    ensures { Runs a_run name.now
        (outside F.files F.take_faults F.keep_faults S.left S.faults K.written K.faults shelf.old (map (λ l. hearer (state l)) listeners.old.items) input.old out.old steps.old)
        (outside F.files F.take_faults F.keep_faults S.left S.faults K.written K.faults shelf.new (map (λ l. hearer (state l)) listeners.new.items) input.new out.new steps.new) result }
{
    match load_rulebase(alloc, shelf, name) {
        Ok(base) => {
            declares_a_model(&base);
            end_of(talk(alloc, base, shelf, listeners, steps, input, out))
        }
        Err(error) => match error {
            LoadError::Refused { text, .. } => tell(Status::Refused, out, text.as_str()),
            LoadError::ReadFault => Status::ReadFault,
            LoadError::NoMemory => Status::NoMemory,
        },
    }
}
