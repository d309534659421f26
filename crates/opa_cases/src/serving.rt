// A rulebase is loaded, and the lines of the input are carried out over it.
ghost use Rattle.std.specs.Prelude.{◌≡◌, ◌≢◌, Err, IfErr, OnOk};
ghost use Rattle.opa_model.specs.Models.{IsModel};
ghost use Rattle.opa_talk.specs.WholeInput.Outside.{outside};
ghost use Rattle.opa_talk.specs.Halt.{IsCause};
ghost use Rattle.opa_talk.specs.declared.halt.Halt.TheVariants as halt;
ghost use Rattle.opa_cases.specs.Serving.{Ran, TalksAll, TalksPart, unkept as meant};

use crate::caseload::Caseload;
use opa_io::{Shelf, Sink, Source, Status, Steps};
use opa_listen::Listener;
use opa_rulebase::{LoadError, load_rulebase};
use opa_talk::{Halt, converse, end_of, tell};
use opa_tree::Rulebase;
use std::alloc::Global;
use std::sync::ledger::Ledger;

/// Carries out the lines of the input over a rulebase.
fn talk<S: Source, F: Shelf, K: Sink, L: Ledger>(
    alloc: Global,
    base: Rulebase,
    shelf: &mut F,
    input: &mut S,
    out: &mut K,
    steps: &mut Steps<L>,
) -> Result<(), Halt>
    ensures all { OnOk result (TalksAll base
        (outside F.files F.take_faults F.keep_faults S.left S.faults K.written K.faults shelf.old input.old out.old)
        (outside F.files F.take_faults F.keep_faults S.left S.faults K.written K.faults shelf.new input.new out.new)) }
    ensures part { IfErr result (TalksPart base
        (outside F.files F.take_faults F.keep_faults S.left S.faults K.written K.faults shelf.old input.old out.old)
        (outside F.files F.take_faults F.keep_faults S.left S.faults K.written K.faults shelf.new input.new out.new)) }
    ensures cause { IfErr result (IsCause (F.take_faults shelf.old) (F.take_faults shelf.new) (F.keep_faults shelf.old) (F.keep_faults shelf.new) (K.faults out.old) (K.faults out.new) (S.faults input.old) (S.faults input.new)) }
    ensures kept { result ≢ Err halt.Keep }
{
    let mut caseload = Caseload::start(alloc, base, steps)?;
    let mut nobody: Vec<Box<dyn Listener>> = Vec::new(alloc);
    let end = converse(alloc, &mut caseload, shelf, &mut nobody, steps, input, out);
    drop(caseload);
    unkept(end)
}

/// How it ended: since no line keeps a file, nothing halts for one.
fn unkept(end: Result<(), Halt>) -> Result<(), Halt>
    ensures { result ≡ meant end }
{
    match end {
        Err(Halt::Keep) => Err(Halt::Memory),
        other => other,
    }
}

/// What a rulebase declares is a model.
fn declares_a_model(base: &Rulebase)
    ensures { IsModel base.now.model }
{
    let _count = base.model.entity_count();
}

/// Loads a rulebase, and carries out the lines of the input over it.
pub(crate) fn open_and_serve<S: Source, F: Shelf, K: Sink, L: Ledger>(
    alloc: Global,
    name: &str,
    shelf: &mut F,
    input: &mut S,
    out: &mut K,
    steps: &mut Steps<L>,
) -> Status
    ensures { Ran name.now
        (outside F.files F.take_faults F.keep_faults S.left S.faults K.written K.faults shelf.old input.old out.old)
        (outside F.files F.take_faults F.keep_faults S.left S.faults K.written K.faults shelf.new input.new out.new) result }
{
    match load_rulebase(alloc, shelf, name) {
        Ok(base) => {
            declares_a_model(&base);
            end_of(talk(alloc, base, shelf, input, out, steps))
        }
        Err(error) => match error {
            LoadError::Refused { text, .. } => tell(Status::Refused, out, text.as_str().as_bytes()),
            LoadError::ReadFault => Status::ReadFault,
            LoadError::NoMemory => Status::NoMemory,
        },
    }
}
