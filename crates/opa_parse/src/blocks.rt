// What the lines of a rule, and those of a membership block, spell.
ghost use Rattle.std.specs.Prelude.{◌≡◌, ◌∷◌, length, IfOk};
ghost use Rattle.std.specs.Option.{option_map};
ghost use Rattle.std.specs.List.{All};
ghost use Rattle.std.specs.Str.{chars};
ghost use Rattle.opa_words.specs.Cuts.{Cuts};
ghost use Rattle.opa_words.specs.Places.{IsWithin};
ghost use Rattle.opa_sentence.specs.Cursors.{seen};
ghost use Rattle.opa_parse.specs.Blocks.{statement as statement_as, every_of as every_of_relation, if_every, IsStatement, IsMembership};
ghost use Rattle.opa_parse.specs.Fronts.{AreShort};
ghost use Rattle.opa_parse.specs.Lines.{IsCut};
ghost use Rattle.opa_model.specs.Lookups.{relation_at};
ghost use Rattle.opa_parse.specs.Statements.{below_first as below_first_of, is_nothing, IsSaid, IsLineSaid};

use crate::cut::{cut, lines_of};
use crate::openings::{heading, opening, past_equals};
use crate::reader::read;
use crate::words::ending_of;
use crate::{Ending, Front, Items, Membership, Opening, Said, Sort, Statement};
use opa_io::{NoMemory, front};
use opa_model::{AttrId, Model, RelId};
use opa_sentence::{Cursor, Names, Relation};
use opa_words::{BlockLine, Token};
use std::alloc::Global;

/// What the lines say, read as one of a sort, or none.
fn said_below(
    alloc: Global,
    names: &Names,
    start: Sort,
    lines: &[BlockLine],
) -> Result<Option<Said>, NoMemory>
    requires { AreShort lines.now }
    ensures { IfOk result (IsSaid names.now start lines.now) }
{
    match lines_of(alloc, names, lines)? {
        None => Ok(None),
        Some(lines) => match read(alloc, names, start, lines)? {
            None => Ok(None),
            Some((group, rest)) => {
                if rest.is_over() {
                    Ok(Some(group.said))
                } else {
                    Ok(None)
                }
            }
        },
    }
}

/// The group below the first line of a block.
fn below_first() -> Sort
    ensures { result ≡ below_first_of }
{
    Sort::Item(Items {
        level: 1,
        front: Front::Nothing,
    })
}

/// What the line after the equals sign says, where no lines follow, or none.
fn said_after(
    alloc: Global,
    names: &Names,
    number: u32,
    words: Cursor<'_>,
    lines: &[BlockLine],
) -> Result<Option<Said>, NoMemory>
    ensures { IfOk result (IsLineSaid names.now number (seen words.entry) lines.now) }
{
    if !lines.is_empty() {
        return Ok(None);
    }
    let line = past_equals(words);
    if !is_nothing(ending_of(line)) {
        return Ok(None);
    }
    match opa_sentence::line_of(alloc, names, line.text, line.tokens)? {
        None => Ok(None),
        Some(reading) => Ok(Some(Said::of_line(alloc, number, reading)?)),
    }
}

fn is_nothing(ending: Ending) -> bool
    ensures { result ≡ is_nothing ending }
{
    matches!(ending, Ending::Nothing)
}

fn statement(attr: Option<AttrId>, by_if: bool, said: Option<Said>) -> Option<Statement>
    ensures { result ≡ option_map (λ s. statement_as attr by_if s) said }
{
    match said {
        None => None,
        Some(said) => Some(Statement { attr, by_if, said }),
    }
}

/// What a rule says whose first line has these words.
fn stated(
    alloc: Global,
    model: &Model,
    names: &Names,
    first: &BlockLine,
    words: Cursor<'_>,
    rest: &[BlockLine],
) -> Result<Option<Statement>, NoMemory>
    requires level { first.now.level ≡ 0 }
    requires cut { IsCut first.now (seen words) }
    requires short { AreShort rest.now }
    ensures { IfOk result (IsStatement model.now names.now (first.now ∷ rest.now)) }
{
    match opening(alloc, model, words)? {
        Opening::Nothing => Ok(None),
        Opening::If(attr) => {
            let said = said_below(alloc, names, below_first(), rest)?;
            Ok(statement(attr, true, said))
        }
        Opening::Is(attr) => {
            let said = said_after(alloc, names, first.line, words, rest)?;
            Ok(statement(attr, false, said))
        }
        Opening::Cases(attr) => {
            let said = said_below(alloc, names, Sort::FirstCase, rest)?;
            Ok(statement(attr, false, said))
        }
    }
}

/// What the lines of a rule say, or none where they spell none.
pub fn statement_of(
    alloc: Global,
    model: &Model,
    names: &Names,
    lines: &[BlockLine],
) -> Result<Option<Statement>, NoMemory>
    requires { AreShort lines.now }
    ensures { IfOk result (IsStatement model.now names.now lines.now) }
{
    match front(lines) {
        None => Ok(None),
        Some((first, rest)) => {
            if first.level != 0 {
                return Ok(None);
            }
            let text = first.text.as_str();
            match cut(alloc, text)? {
                None => Ok(None),
                Some(tokens) => {
                    let words = Cursor::new(text, tokens.as_slice());
                    stated(alloc, model, names, first, words, rest)
                }
            }
        }
    }
}

/// The relation, if it is declared with `every`.
fn every_of(model: &Model, relation: Relation) -> Option<RelId>
    ensures { result ≡ every_of_relation model.now relation }
{
    match relation {
        Relation::Declared(rel) => declared_every(model, rel),
        Relation::Inferred(_) => None,
        Relation::Unnamed => None,
    }
}

fn declared_every(model: &Model, rel: RelId) -> Option<RelId>
    ensures { result ≡ if_every rel (relation_at model.now rel) }
{
    if rel.0 < model.relation_count() {
        if model.relation(rel).every {
            Some(rel)
        } else {
            None
        }
    } else {
        None
    }
}

/// What a membership block says whose first line has these tokens.
fn membership_by(
    alloc: Global,
    model: &Model,
    names: &Names,
    first: &BlockLine,
    tokens: &[Token],
    rest: &[BlockLine],
) -> Result<Option<Membership>, NoMemory>
    requires level { first.now.level ≡ 0 }
    requires cut { Cuts (length first.now.text) (chars first.now.text) tokens.now }
    requires within { All (IsWithin first.now.text) tokens.now }
    requires short { AreShort rest.now }
    ensures { IfOk result (IsMembership model.now names.now (first.now ∷ rest.now)) }
{
    match heading(alloc, names, first.text.as_str(), tokens)? {
        None => Ok(None),
        Some((phrase, relation)) => match said_below(alloc, names, below_first(), rest)? {
            None => Ok(None),
            Some(said) => Ok(Some(Membership {
                phrase,
                every: every_of(model, relation),
                said,
            })),
        },
    }
}

/// What the lines of a membership block say, or none where they spell none.
pub fn membership_of(
    alloc: Global,
    model: &Model,
    names: &Names,
    lines: &[BlockLine],
) -> Result<Option<Membership>, NoMemory>
    requires { AreShort lines.now }
    ensures { IfOk result (IsMembership model.now names.now lines.now) }
{
    match front(lines) {
        None => Ok(None),
        Some((first, rest)) => {
            if first.level != 0 {
                return Ok(None);
            }
            match cut(alloc, first.text.as_str())? {
                None => Ok(None),
                Some(tokens) => {
                    membership_by(alloc, model, names, first, tokens.as_slice(), rest)
                }
            }
        }
    }
}
