// The line that a cell stands for, and the command that it is.
ghost use Rattle.std.specs.Prelude.{◌≡◌, IfOk, IfErr, IfSome};
ghost use Rattle.opa_script.specs.Commands.{IsCommand, IsNoCommand};
ghost use Rattle.opa_script.specs.Laws.{IsInRange, IsWellFormed};
ghost use Rattle.opa_batch.specs.Aims.{IsAimed};
ghost use Rattle.opa_batch.specs.Rows as meant;

use crate::aim::Aim;
use crate::head::{Head, Sort};
use crate::said::cell_said;
use opa_io::NoMemory;
use opa_model::Model;
use opa_script::{CmdFault, Command, commands_are_in_range, is_well_formed, read_command};
use std::alloc::Global;

fn word_of(sort: Sort) -> &'static str
    ensures { result.now ≡ meant.word_of sort }
{
    match sort {
        Sort::Answer => "answer ",
        Sort::Names => "list ",
    }
}

/// The line that a cell under a head stands for.
pub(crate) fn line_of(alloc: Global, head: &Head, cell: &[u8]) -> Result<Vec<u8>, NoMemory>
    ensures { IfOk result (λ l. l.items ≡ meant.line_of head.now cell.now) }
{
    let word = word_of(head.sort).as_bytes();
    let text = head.text.as_slice();
    // Room for the whole line, in one request.
    let room = text.len().saturating_add(cell.len()).saturating_add(10);
    let mut line = Vec::with_capacity(alloc, room)?;
    line.extend_from_slice(word)?;
    line.extend_from_slice(text)?;
    line.extend_from_slice(b" = ")?;
    line.extend_from_slice(cell)?;
    Ok(line)
}

/// The command that a line is.
fn asked(alloc: Global, model: &Model, line: &[u8]) -> Result<Command, CmdFault>
    ensures ok { IfOk result (IsCommand model.now line.now) }
    ensures formed { IfOk result IsWellFormed }
    ensures range { IfOk result (IsInRange model.now) }
    ensures fault { IfErr result (IsNoCommand model.now line.now) }
{
    commands_are_in_range();
    match read_command(alloc, model, line) {
        Err(fault) => Err(fault),
        Ok(command) => {
            is_well_formed(&command);
            Ok(command)
        }
    }
}

/// The change that a cell says of what its head is about. None says nothing.
fn quick(
    alloc: Global,
    model: &Model,
    head: &Head,
    aim: &Option<Aim>,
    cell: &[u8],
) -> Result<Option<Command>, NoMemory>
    requires { IfSome aim.now (IsAimed model.now head.now) }
    ensures command { IfOk result (λ r. IfSome r (IsCommand model.now (meant.line_of head.now cell.now))) }
{
    match aim {
        None => Ok(None),
        Some(aim) => {
            let said = cell_said(alloc, aim, cell)?;
            Ok(said)
        }
    }
}

/// The command that the line of a cell is. Where the head and the cell are plain, the line isn't cut.
pub(crate) fn asked_of(
    alloc: Global,
    model: &Model,
    head: &Head,
    aim: &Option<Aim>,
    cell: &[u8],
) -> Result<Command, CmdFault>
    requires { IfSome aim.now (IsAimed model.now head.now) }
    ensures ok { IfOk result (IsCommand model.now (meant.line_of head.now cell.now)) }
    ensures formed { IfOk result IsWellFormed }
    ensures range { IfOk result (IsInRange model.now) }
    ensures fault { IfErr result (IsNoCommand model.now (meant.line_of head.now cell.now)) }
{
    commands_are_in_range();
    match quick(alloc, model, head, aim, cell)? {
        Some(command) => {
            is_well_formed(&command);
            Ok(command)
        }
        None => {
            let line = line_of(alloc, head, cell)?;
            asked(alloc, model, line.as_slice())
        }
    }
}
