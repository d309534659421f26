// What a cell says of what its column is about, by its own tokens.
ghost use Rattle.std.specs.Prelude.{IfOk, IfSome};
ghost use Rattle.opa_words.specs.Pieces.{seen, AreOfKind};
ghost use Rattle.opa_batch.specs.declared.aim.Aim.TheVariants as aims;
ghost use Rattle.opa_batch.specs.Aims.{IsSaid, SaysAt, SaysSome};

use crate::aim::Aim;
use crate::columns::{cut, text_of};
use crate::head::HeadFault;
use opa_case::{ChangeCommand, InstanceId};
use opa_io::NoMemory;
use opa_io::limits::MOST_TEXT;
use opa_model::{AttrId, RelId};
use opa_script::Command;
use opa_text::{line_of, names_of};
use opa_words::Pieces;
use std::alloc::Global;

fn answer_said(
    alloc: Global,
    attr: AttrId,
    inst: &InstanceId,
    pieces: Pieces<'_>,
) -> Result<Option<Command>, NoMemory>
    requires { AreOfKind pieces }
    ensures { IfOk result (λ r. IfSome r (SaysAt (aims.Answer attr inst.now) (seen pieces.entry))) }
{
    match line_of(alloc, pieces)? {
        None => Ok(None),
        Some(line) => {
            let inst = inst.copy(alloc)?;
            Ok(Some(Command::Change(ChangeCommand::Answer(attr, inst, line))))
        }
    }
}

fn names_said(
    alloc: Global,
    rel: RelId,
    inst: &InstanceId,
    pieces: Pieces<'_>,
) -> Result<Option<Command>, NoMemory>
    requires { AreOfKind pieces }
    ensures { IfOk result (λ r. IfSome r (SaysAt (aims.Names rel inst.now) (seen pieces.entry))) }
{
    match names_of(alloc, pieces)? {
        None => Ok(None),
        Some(names) => {
            let inst = inst.copy(alloc)?;
            Ok(Some(Command::Change(ChangeCommand::SetList(rel, inst, names))))
        }
    }
}

fn pieces_said(alloc: Global, aim: &Aim, pieces: Pieces<'_>) -> Result<Option<Command>, NoMemory>
    requires { AreOfKind pieces }
    ensures { IfOk result (λ r. IfSome r (SaysAt aim.now (seen pieces.entry))) }
{
    match aim {
        Aim::Answer(attr, inst) => answer_said(alloc, *attr, inst, pieces),
        Aim::Names(rel, inst) => names_said(alloc, *rel, inst, pieces),
    }
}

/// The change that tokens say, of which there is one at least.
fn some_said(alloc: Global, aim: &Aim, pieces: Pieces<'_>) -> Result<Option<Command>, NoMemory>
    requires { AreOfKind pieces }
    ensures { IfOk result (λ r. IfSome r (SaysSome aim.now (seen pieces.entry))) }
{
    if pieces.is_empty() {
        return Ok(None);
    }
    match pieces_said(alloc, aim, pieces)? {
        None => Ok(None),
        Some(command) => Ok(Some(command)),
    }
}

/// The change that a cell says. None says nothing.
pub(crate) fn cell_said(alloc: Global, aim: &Aim, cell: &[u8]) -> Result<Option<Command>, NoMemory>
    ensures { IfOk result (λ r. IfSome r (IsSaid aim.now cell.now)) }
{
    if cell.len() > MOST_TEXT {
        return Ok(None);
    }
    match text_of(cell) {
        None => Ok(None),
        Some(text) => match cut(alloc, text) {
            Err(HeadFault::NoMemory) => Err(NoMemory),
            Err(HeadFault::Shape) | Err(HeadFault::Name) => Ok(None),
            Ok(found) => some_said(alloc, aim, Pieces::new(text, &found)),
        },
    }
}
