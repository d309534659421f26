// Many cases in one input.
ghost use Rattle.opa_talk.specs.WholeInput.Outside.{outside};
ghost use Rattle.opa_cases.specs.Promises.{Promises};

use crate::serving::open_and_serve;
use opa_io::{Shelf, Sink, Source, Status, Steps};
use std::alloc::Global;
use std::sync::ledger::Ledger;

/// Carries out the lines of the input, each for the case that it names, over a rulebase.
pub fn serve_cases<S: Source, F: Shelf, K: Sink, L: Ledger>(
    alloc: Global,
    rulebase: &str,
    shelf: &mut F,
    input: &mut S,
    out: &mut K,
    steps: &mut Steps<L>,
) -> Status
    // Replies, each case by itself, suppositions, causes and completeness: specs/Promises, field by field.
    ensures promises { Promises rulebase.now
        (outside F.files F.take_faults F.keep_faults S.left S.faults K.written K.faults shelf.old input.old out.old)
        (outside F.files F.take_faults F.keep_faults S.left S.faults K.written K.faults shelf.new input.new out.new) result }
{
    open_and_serve(alloc, rulebase, shelf, input, out, steps)
}
