// What the words of the command line say is done.
ghost use Rattle.opa_rules.specs.Promises.{outside, Promises};

use crate::describe::describe;
use crate::faults::faults;
use crate::print::print;
use crate::reading::{Mode, read_words};
use crate::review::review;
use crate::reviewing::Form;
use opa_io::{Shelf, Sink, Status};
use opa_talk::tell;
use std::alloc::Global;

/// Does what the words of the command line say, and answers how it ended.
pub fn rules<F: Shelf, K: Sink>(
    alloc: Global,
    words: &[String],
    shelf: &mut F,
    out: &mut K,
) -> Status
    // Usage, and what each mode promises: specs/Promises, field by field.
    ensures { Promises words.now (outside F.files F.take_faults K.written K.faults shelf.old out.old)
        (outside F.files F.take_faults K.written K.faults shelf.new out.new) result }
{
    match read_words(words) {
        None => tell(
            Status::Usage,
            out,
            b"usage: rules MODE NAME | rules review --json NAME\n",
        ),
        Some(asked) => match asked.mode {
            Mode::Describe => describe(alloc, asked.name, shelf, out),
            Mode::Faults => faults(alloc, asked.name, shelf, out),
            Mode::Print => print(alloc, asked.name, shelf, out),
            Mode::Review => review(alloc, asked.name, Form::Lines, shelf, out),
            Mode::ReviewJson => review(alloc, asked.name, Form::Json, shelf, out),
        },
    }
}
