// A line is read with a stack of frames, never by recursion.
ghost use Rattle.std.specs.Option.{option_map};
ghost use Rattle.std.specs.Prelude.{IfOk};
ghost use Rattle.opa_sentence.specs.Cursors.{seen};
ghost use Rattle.opa_sentence.specs.Spelled.{IsReadAs};

use crate::table::{Step, production, resume};
use crate::{Cursor, Frame, Names, Reading, Sort};
use opa_io::{List, NoMemory};
use std::alloc::Global;

/// What stands at the front of the tokens as one of a sort, and what follows it.
pub fn read<'t>(
    alloc: Global,
    names: &Names,
    start: Sort,
    tokens: Cursor<'t>,
) -> Result<Option<(Reading, Cursor<'t>)>, NoMemory>
    ensures { IfOk result (λ r. IsReadAs names.now start (seen tokens.entry) (option_map (λ x. (x.0, seen x.1)) r)) }
{
    let mut stack: List<Frame> = List::new(alloc);
    let mut sort = start;
    let mut rest = tokens;
    loop {
        match production(alloc, names, sort, rest)? {
            Step::Fail => return Ok(None),
            Step::Done(reading, after) => match stack.pop() {
                None => return Ok(Some((reading, after))),
                Some(frame) => {
                    sort = resume(alloc, frame, reading)?;
                    rest = after;
                }
            },
            Step::Next(more, after) => {
                sort = more;
                rest = after;
            }
            Step::Call(part, frame, after) => {
                stack.push(frame)?;
                sort = part;
                rest = after;
            }
        }
    }
}
