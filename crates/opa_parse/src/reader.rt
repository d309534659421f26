// Groups are read with a stack of frames, never by recursion.
ghost use Rattle.std.specs.Prelude.{IfOk};
ghost use Rattle.opa_parse.specs.GroupTable.{IsReadAs};

use crate::table::{Step, production, resume};
use crate::{Frame, Group, Lines, Sort};
use opa_io::{List, NoMemory};
use opa_sentence::Names;
use std::alloc::Global;

/// What stands at the front of the lines as one of a sort, and what follows it.
pub fn read(
    alloc: Global,
    names: &Names,
    start: Sort,
    lines: Lines,
) -> Result<Option<(Group, Lines)>, NoMemory>
    ensures { IfOk result (IsReadAs names.now start lines) }
{
    let mut stack: List<Frame> = List::new(alloc);
    let mut sort = start;
    let mut rest = lines;
    loop {
        match production(alloc, sort, rest)? {
            Step::Fail => return Ok(None),
            Step::Done(group, after) => match stack.pop() {
                None => return Ok(Some((group, after))),
                Some(frame) => {
                    sort = resume(alloc, names, frame, group)?;
                    rest = after;
                }
            },
            Step::Next(more, after) => {
                sort = more;
                rest = after;
            }
            Step::Call(part, frame, after) => {
                stack.push(frame)?;
                sort = part;
                rest = after;
            }
        }
    }
}
