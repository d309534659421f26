// Value cells, and the word of the last record.
ghost use Rattle.std.specs.Prelude.{◌≡◌, ◌↔◌, true, IfOk, IsTrue};
ghost use Rattle.std.specs.List.{list_all};
ghost use Rattle.opa_sentence.specs.Cursors.{seen};
ghost use Rattle.opa_parse.specs.Tables.Cells.{Says, IsLine, IsValueCell, is_otherwise as is_otherwise_of, IsOtherwiseCell};
ghost use Rattle.opa_parse.specs.Tables.Tables.{Each, is_empty, AreOtherwise};

use crate::tables::words::{is_none_left, words_of};
use crate::{Ending, ending_of};
use opa_io::{List, NoMemory, front};
use opa_sentence::{Cursor, Names, Reading};
use std::alloc::Global;

/// What words say as a line.
#[tactic(auto, using(crate::proofs::tables::CellLaws::says_spelled))]
fn line_of(alloc: Global, names: &Names, words: Cursor<'_>) -> Result<Option<Reading>, NoMemory>
    ensures { IfOk result (Says (IsLine names.now (seen words.entry))) }
{
    match ending_of(words) {
        Ending::Nothing => opa_sentence::line_of(alloc, names, words.text, words.tokens),
        Ending::And | Ending::Or | Ending::If | Ending::Otherwise => Ok(None),
    }
}

/// What a cell says as a value.
fn value_cell(alloc: Global, names: &Names, cell: &[u8]) -> Result<Option<Reading>, NoMemory>
    ensures { IfOk result (Says (IsValueCell names.now cell.now)) }
{
    match words_of(alloc, cell)? {
        None => Ok(None),
        Some(words) => {
            let value = line_of(alloc, names, words.cursor())?;
            Ok(value)
        }
    }
}

/// What the value cells of a record say.
pub fn values_of(
    alloc: Global,
    names: &Names,
    cells: &[List<u8>],
) -> Result<Option<List<Reading>>, NoMemory>
    ensures { IfOk result (Says (Each (IsValueCell names.now) cells.now)) }
{
    let mut values = List::new(alloc);
    let mut rest = cells;
    while let Some((cell, later)) = front(rest) {
        match value_cell(alloc, names, cell.as_slice())? {
            None => return Ok(None),
            Some(value) => {
                values.push(value)?;
                rest = later;
            }
        }
    }
    Ok(Some(values))
}

fn is_otherwise(words: Cursor<'_>) -> bool
    ensures { result ≡ is_otherwise_of (seen words.entry) }
{
    match words.first() {
        None => false,
        Some((_, text, rest)) => {
            if is_none_left(rest) {
                text == "otherwise"
            } else {
                false
            }
        }
    }
}

fn otherwise_cell(alloc: Global, cell: &[u8]) -> Result<bool, NoMemory>
    ensures { IfOk result (λ b. IsTrue b ↔ IsOtherwiseCell cell.now) }
{
    match words_of(alloc, cell)? {
        None => Ok(false),
        Some(words) => Ok(is_otherwise(words.cursor())),
    }
}

fn are_empty(cells: &[List<u8>]) -> bool
    ensures { result ≡ list_all is_empty cells.now }
{
    let mut rest = cells;
    while let Some((cell, later)) = front(rest) {
        if cell.len() > 0 {
            return false;
        }
        rest = later;
    }
    true
}

/// Whether the condition cells are those of the last record.
pub fn are_otherwise(alloc: Global, cells: &[List<u8>]) -> Result<bool, NoMemory>
    ensures { IfOk result (λ b. IsTrue b ↔ AreOtherwise cells.now) }
{
    match front(cells) {
        None => Ok(true),
        Some((cell, rest)) => {
            if are_empty(rest) {
                let is_last = otherwise_cell(alloc, cell.as_slice())?;
                Ok(is_last)
            } else {
                Ok(false)
            }
        }
    }
}
