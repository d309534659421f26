// The heads of columns are read.
ghost use Rattle.std.specs.Prelude.{◌≡◌, ◌≤◌, length, IfOk, IfErr, MatchOption};
ghost use Rattle.std.specs.List.{All};
ghost use Rattle.std.specs.Str.{chars};
ghost use Rattle.opa_words.specs.Places.{IsWithin, IsOfKind};
ghost use Rattle.opa_words.specs.Cuts.{Cuts};
ghost use Rattle.opa_words.specs.Pieces.{seen, AreOfKind};
ghost use Rattle.opa_script.specs.Lines.{IsText};
ghost use Rattle.opa_script.specs.Commands.{NamesNothing};
ghost use Rattle.csv.specs.Records.{fields_of};
ghost use Rattle.opa_batch.specs.Heads.{IsHead, IsNoHead, NamesSort};
ghost use Rattle.opa_batch.specs.Columns.{IsNoText, IsNotCut, IsSorted, IsUnsorted, IsPointed, AreColumns};

use crate::faults::refused_head;
use crate::head::{Head, HeadFault, Sort};
use csv::ByteRecord;
use opa_io::limits::MOST_LINE;
use opa_io::{List, NoMemory, Txt};
use opa_model::Model;
use opa_text::{Point, point_of};
use opa_words::{Pieces, Token, WordFault, tokens};
use std::alloc::Global;
use std::str;

/// The text of a cell that isn't too long.
pub(crate) fn text_of(cell: &[u8]) -> Option<&str>
    ensures { MatchOption result (IsNoText cell.now) (λ t. IsText cell.now t.now) }
{
    if cell.len() > MOST_LINE {
        return None;
    }
    match str::from_utf8(cell) {
        Ok(text) => Some(text),
        Err(_) => None,
    }
}

/// The tokens of a text.
pub(crate) fn cut(alloc: Global, text: &str) -> Result<Vec<Token>, HeadFault>
    requires { length text.now ≤ 65536 }
    ensures cut { IfOk result (λ v. Cuts (length text.now) (chars text.now) v.items) }
    ensures within { IfOk result (λ v. All (IsWithin text.now) v.items) }
    ensures kinds { IfOk result (λ v. All (IsOfKind text.now) v.items) }
    ensures fault { IfErr result (IsNotCut text.now) }
{
    match tokens(alloc, text) {
        Ok(found) => Ok(found),
        Err(WordFault::Place(_)) => Err(HeadFault::Shape),
        Err(WordFault::NoMemory) => Err(HeadFault::NoMemory),
    }
}

/// What the phrase of a point names.
fn sort_of(model: &Model, point: &Point) -> Option<Sort>
    ensures { MatchOption result (NamesNothing model.now point.now) (NamesSort model.now point.now) }
{
    match model.find_attribute(point.phrase.as_str()) {
        Some(_) => Some(Sort::Answer),
        None => match model.find_relation(point.phrase.as_str()) {
            Some(_) => Some(Sort::Names),
            None => None,
        },
    }
}

/// What the point that tokens are names.
fn pointed(alloc: Global, model: &Model, pieces: Pieces<'_>) -> Result<Sort, HeadFault>
    requires { AreOfKind pieces }
    ensures ok { IfOk result (IsSorted model.now (seen pieces.entry)) }
    ensures fault { IfErr result (IsUnsorted model.now (seen pieces.entry)) }
{
    let Some(point) = point_of(alloc, pieces)? else {
        return Err(HeadFault::Shape);
    };
    match sort_of(model, &point) {
        None => Err(HeadFault::Name),
        Some(sort) => Ok(sort),
    }
}

/// What the point that a cell is names.
fn sorted(alloc: Global, model: &Model, cell: &[u8]) -> Result<Sort, HeadFault>
    ensures ok { IfOk result (IsPointed model.now cell.now) }
    ensures fault { IfErr result (IsNoHead model.now cell.now) }
{
    match text_of(cell) {
        None => Err(HeadFault::Shape),
        Some(text) => match cut(alloc, text) {
            Err(fault) => Err(fault),
            Ok(found) => pointed(alloc, model, Pieces::new(text, &found)),
        },
    }
}

/// The head that a cell is.
fn head_of(alloc: Global, model: &Model, cell: &[u8]) -> Result<Head, HeadFault>
    ensures ok { IfOk result (IsHead model.now cell.now) }
    ensures fault { IfErr result (IsNoHead model.now cell.now) }
{
    match sorted(alloc, model, cell) {
        Err(fault) => Err(fault),
        Ok(sort) => match cell.to_vec(alloc) {
            Err(_) => Err(HeadFault::NoMemory),
            Ok(text) => Ok(Head {
                text: List::from_vec(text),
                sort,
            }),
        },
    }
}

/// The heads of a heading, or the refusal of its first cell that is none.
pub(crate) fn heads_of(
    alloc: Global,
    model: &Model,
    row: &ByteRecord,
) -> Result<Result<List<Head>, Txt>, NoMemory>
    ensures { IfOk result (AreColumns model.now (fields_of row.now)) }
{
    let mut heads = List::new(alloc);
    for place in 0..row.len() {
        let Some(cell) = row.get(place) else {
            return Ok(Ok(heads));
        };
        match head_of(alloc, model, cell) {
            Ok(head) => heads.push(head)?,
            Err(fault) => {
                let text = refused_head(alloc, place + 1, fault)?;
                return Ok(Err(text));
            }
        }
    }
    Ok(Ok(heads))
}
