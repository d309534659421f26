// What the words of the command line say is done.
ghost use Rattle.opa_talk.specs.WholeInput.Outside.{outside};
ghost use Rattle.opa_desk.specs.Promises.{CountsAsked, Only, Promises};

use crate::reading::{Mode, read_words};
use opa_batch::batch;
use opa_cases::serve_cases;
use opa_io::{Shelf, Sink, Source, Status, Steps};
use opa_laws::{one_command_fault, one_opening};
use opa_script::one_command;
use opa_talk::tell;
use std::alloc::Global;
use std::sync::ledger::Ledger;

/// Does what the words of the command line say.
fn do_words<S: Source, F: Shelf, K: Sink, L: Ledger>(
    alloc: Global,
    words: &[String],
    shelf: &mut F,
    input: &mut S,
    out: &mut K,
    steps: &mut Steps<L>,
) -> Status
    ensures promises { Promises words.now
        (outside F.files F.take_faults F.keep_faults S.left S.faults K.written K.faults shelf.old input.old out.old)
        (outside F.files F.take_faults F.keep_faults S.left S.faults K.written K.faults shelf.new input.new out.new) result }
    ensures counts { CountsAsked words.now
        (outside F.files F.take_faults F.keep_faults S.left S.faults K.written K.faults shelf.old input.old out.old)
        (outside F.files F.take_faults F.keep_faults S.left S.faults K.written K.faults shelf.new input.new out.new) steps.old steps.new }
{
    match read_words(words) {
        None => tell(Status::Usage, out, b"usage: desk MODE NAME\n"),
        Some(asked) => match asked.mode {
            Mode::Batch => batch(alloc, asked.name, shelf, input, out, steps),
            Mode::Cases => serve_cases(alloc, asked.name, shelf, input, out, steps),
        },
    }
}

/// Does what the words of the command line say, and answers how it ended.
pub fn desk<S: Source, F: Shelf, K: Sink, L: Ledger>(
    alloc: Global,
    words: &[String],
    shelf: &mut F,
    input: &mut S,
    out: &mut K,
    steps: &mut Steps<L>,
) -> Status
    // Usage, and what each mode promises: specs/Promises, field by field.
    ensures promises { Promises words.now
        (outside F.files F.take_faults F.keep_faults S.left S.faults K.written K.faults shelf.old input.old out.old)
        (outside F.files F.take_faults F.keep_faults S.left S.faults K.written K.faults shelf.new input.new out.new) result }
    ensures only { Only words.now
        (outside F.files F.take_faults F.keep_faults S.left S.faults K.written K.faults shelf.old input.old out.old)
        (outside F.files F.take_faults F.keep_faults S.left S.faults K.written K.faults shelf.new input.new out.new) result }
    ensures counts { CountsAsked words.now
        (outside F.files F.take_faults F.keep_faults S.left S.faults K.written K.faults shelf.old input.old out.old)
        (outside F.files F.take_faults F.keep_faults S.left S.faults K.written K.faults shelf.new input.new out.new) steps.old steps.new }
{
    one_opening();
    one_command();
    one_command_fault();
    do_words(alloc, words, shelf, input, out, steps)
}
