// Many cases.
ghost use Rattle.opa_talk.specs.WholeInput.Outside.{outside};
ghost use Rattle.opa_batch.specs.Counting.{Counts};
ghost use Rattle.opa_batch.specs.Promises.{Promises};

use crate::serving::serve;
use opa_io::{Shelf, Sink, Source, Status, Steps};
use std::alloc::Global;
use std::sync::ledger::Ledger;

/// Writes a heading, and for each record of the input what the goals are where its cells alone are known, or its fault.
pub fn batch<S: Source, F: Shelf, K: Sink, L: Ledger>(
    alloc: Global,
    rulebase: &str,
    shelf: &mut F,
    input: &mut S,
    out: &mut K,
    steps: &mut Steps<L>,
) -> Status
    // Rows, refusals, causes and completeness: specs/Promises, field by field.
    ensures promises { Promises rulebase.now
        (outside F.files F.take_faults F.keep_faults S.left S.faults K.written K.faults shelf.old input.old out.old)
        (outside F.files F.take_faults F.keep_faults S.left S.faults K.written K.faults shelf.new input.new out.new) result }
    // No more steps than the records reach, with every status.
    ensures counts { Counts rulebase.now
        (outside F.files F.take_faults F.keep_faults S.left S.faults K.written K.faults shelf.old input.old out.old)
        (outside F.files F.take_faults F.keep_faults S.left S.faults K.written K.faults shelf.new input.new out.new) steps.old steps.new }
{
    serve(alloc, rulebase, shelf, input, out, steps)
}
