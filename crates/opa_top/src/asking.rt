// The mode `interview`.
ghost use Rattle.std.specs.Prelude.{◌<◌, ◌^◌, length, map, IfErr, OnOk};
ghost use Rattle.opa_listen.specs.Hearing.{hearer};
ghost use Rattle.opa_talk.specs.Halt.{IsCause};
ghost use Rattle.opa_top.specs.Running.{outside, Runs, TalksAll, TalksPart, an_interview};

use crate::check::tell;
use crate::talk::declares_a_model;
use opa_io::{NoMemory, Shelf, Sink, Source, Status, Steps};
use opa_listen::Listener;
use opa_reply::Interview;
use opa_rulebase::{LoadError, load_rulebase};
use opa_talk::{Halt, converse, end_of};
use opa_tree::Rulebase;
use std::alloc::Global;
use std::sync::ledger::Ledger;

/// Asks over a rulebase, and takes the replies of the input.
fn ask<S: Source, F: Shelf, K: Sink, L: Ledger>(
    alloc: Global,
    base: Rulebase,
    shelf: &mut F,
    listeners: &mut Vec<Box<dyn Listener>>,
    steps: &mut Steps<L>,
    input: &mut S,
    out: &mut K,
) -> Result<(), Halt>
    requires fewer { length listeners.old.items < 2 ^ 64 }
    ensures all { OnOk result (TalksAll an_interview base
        (outside F.files F.take_faults F.keep_faults S.left S.faults K.written K.faults shelf.old (map (λ l. hearer (state l)) listeners.old.items) input.old out.old steps.old)
        (outside F.files F.take_faults F.keep_faults S.left S.faults K.written K.faults shelf.new (map (λ l. hearer (state l)) listeners.new.items) input.new out.new steps.new)) }
    ensures part { IfErr result (TalksPart an_interview base
        (outside F.files F.take_faults F.keep_faults S.left S.faults K.written K.faults shelf.old (map (λ l. hearer (state l)) listeners.old.items) input.old out.old steps.old)
        (outside F.files F.take_faults F.keep_faults S.left S.faults K.written K.faults shelf.new (map (λ l. hearer (state l)) listeners.new.items) input.new out.new steps.new)) }
    ensures cause { IfErr result (IsCause (F.take_faults shelf.old) (F.take_faults shelf.new) (F.keep_faults shelf.old) (F.keep_faults shelf.new) (K.faults out.old) (K.faults out.new) (S.faults input.old) (S.faults input.new)) }
{
    match Interview::start(alloc, base, steps) {
        Ok(mut interview) => {
            let end = converse(alloc, &mut interview, shelf, listeners, steps, input, out);
            drop(interview);
            end
        }
        Err(NoMemory) => Err(Halt::Memory),
    }
}

/// Loads a rulebase, and asks over it.
pub(crate) fn open_and_ask<S: Source, F: Shelf, K: Sink, L: Ledger>(
    alloc: Global,
    name: &str,
    shelf: &mut F,
    listeners: &mut Vec<Box<dyn Listener>>,
    steps: &mut Steps<L>,
    input: &mut S,
    out: &mut K,
) -> Status
    requires fewer { length listeners.old.items < 2 ^ 64 }
    ensures { Runs an_interview name.now
        (outside F.files F.take_faults F.keep_faults S.left S.faults K.written K.faults shelf.old (map (λ l. hearer (state l)) listeners.old.items) input.old out.old steps.old)
        (outside F.files F.take_faults F.keep_faults S.left S.faults K.written K.faults shelf.new (map (λ l. hearer (state l)) listeners.new.items) input.new out.new steps.new) result }
{
    match load_rulebase(alloc, shelf, name) {
        Ok(base) => {
            declares_a_model(&base);
            end_of(ask(alloc, base, shelf, listeners, steps, input, out))
        }
        Err(error) => match error {
            LoadError::Refused { text, .. } => tell(Status::Refused, out, text.as_str()),
            LoadError::ReadFault => Status::ReadFault,
            LoadError::NoMemory => Status::NoMemory,
        },
    }
}
