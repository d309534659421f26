// An input is read and decided over a rulebase.
ghost use Rattle.std.specs.Prelude.{◌≡◌};
ghost use Rattle.opa_model.specs.Models.{IsModel};
ghost use Rattle.opa_talk.specs.WholeInput.Outside.{outside};
ghost use Rattle.opa_batch.specs.Counting.{Counts, CountsOver};
ghost use Rattle.opa_batch.specs.Serving.{Decides, Serves};
ghost use Rattle.opa_batch.specs.Serving as meant;

use crate::making::make;
use opa_io::{Shelf, Sink, Source, Status, Steps};
use opa_rulebase::{LoadError, load_rulebase};
use opa_talk::{Stop, read_all, tell};
use opa_tree::Rulebase;
use std::alloc::Global;
use std::sync::ledger::Ledger;

/// What a rulebase declares is a model.
fn declares_a_model(base: &Rulebase)
    ensures { IsModel base.now.model }
{
    let _count = base.model.entity_count();
}

/// How a batch ends whose input wasn't read.
fn stopped(stop: Stop) -> Status
    ensures { result ≡ meant.stopped stop }
{
    match stop {
        Stop::Input => Status::ReadFault,
        Stop::Memory => Status::NoMemory,
        Stop::Limit => Status::InputLimit,
    }
}

/// Reads an input, and writes what it gives over a rulebase.
fn decide<S: Source, F: Shelf, K: Sink, L: Ledger>(
    alloc: Global,
    base: Rulebase,
    shelf: &F,
    input: &mut S,
    out: &mut K,
    steps: &mut Steps<L>,
) -> Status
    ensures decides { Decides base
        (outside F.files F.take_faults F.keep_faults S.left S.faults K.written K.faults shelf.now input.old out.old)
        (outside F.files F.take_faults F.keep_faults S.left S.faults K.written K.faults shelf.now input.new out.new) result }
    ensures counts { CountsOver base (S.left input.old) (S.left input.new) steps.old steps.new }
{
    match read_all(alloc, input) {
        Ok(bytes) => match make(alloc, base, bytes.as_slice(), steps) {
            Ok(made) => tell(made.good, out, &made.text),
            Err(_) => Status::NoMemory,
        },
        Err(stop) => {
            drop(base);
            stopped(stop)
        }
    }
}

/// Loads a rulebase, and decides the input over it.
pub(crate) fn serve<S: Source, F: Shelf, K: Sink, L: Ledger>(
    alloc: Global,
    name: &str,
    shelf: &mut F,
    input: &mut S,
    out: &mut K,
    steps: &mut Steps<L>,
) -> Status
    ensures serves { Serves name.now
        (outside F.files F.take_faults F.keep_faults S.left S.faults K.written K.faults shelf.old input.old out.old)
        (outside F.files F.take_faults F.keep_faults S.left S.faults K.written K.faults shelf.new input.new out.new) result }
    ensures files { F.files shelf.new ≡ F.files shelf.old }
    ensures counts { Counts name.now
        (outside F.files F.take_faults F.keep_faults S.left S.faults K.written K.faults shelf.old input.old out.old)
        (outside F.files F.take_faults F.keep_faults S.left S.faults K.written K.faults shelf.new input.new out.new) steps.old steps.new }
{
    match load_rulebase(alloc, shelf, name) {
        Ok(base) => {
            declares_a_model(&base);
            decide(alloc, base, shelf, input, out, steps)
        }
        Err(error) => match error {
            LoadError::Refused { text, .. } => tell(Status::Refused, out, text.as_str().as_bytes()),
            LoadError::ReadFault => Status::ReadFault,
            LoadError::NoMemory => Status::NoMemory,
        },
    }
}
