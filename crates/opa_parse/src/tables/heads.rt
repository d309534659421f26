// The first record of a table.
ghost use Rattle.std.specs.Prelude.{◌≡◌, ◌≢◌, [], ◌∷◌, ◌++◌, false, true, IfOk, MatchOption};
ghost use Rattle.opa_sentence.specs.Cursors.{seen};
ghost use Rattle.opa_sentence.specs.Lexemes.{Lexeme};
ghost use Rattle.opa_sentence.specs.declared.reading.Reading.{Reading as ReadingView};
ghost use Rattle.opa_parse.specs.Openings.{concluded as concluded_of};
ghost use Rattle.opa_parse.specs.declared.tables.cells.Heading.TheVariants as head;
ghost use Rattle.opa_parse.specs.Tables.Cells.{Says, is_equals as is_equals_of, begins_with_equals, are_words as are_words_of, IsOperand, IsCondition, SpellsHead, IsHeadCell};
ghost use Rattle.opa_parse.specs.Tables.Tables.{AreHeads, headings};

use crate::tables::words::{is_none_left, words_of};
use crate::tables::{Heading, Heads};
use crate::{Ending, begins_with_word, concluded, ending_of};
use opa_io::{List, NoMemory, front};
use opa_model::Model;
use opa_sentence::{Class, Cursor, Names, Reading};
use opa_tree::OpKind;
use std::alloc::Global;

fn is_equals(class: Class) -> bool
    ensures { result ≡ is_equals_of class }
{
    match class {
        Class::Compare(OpKind::Eq) => true,
        _ => false,
    }
}

/// What follows an equals sign.
fn past_equals(words: Cursor<'_>) -> Option<Cursor<'_>>
    ensures { MatchOption result (begins_with_equals (seen words.entry) ≡ false) (λ c. (t : Lexeme) × (seen words.entry ≡ t ∷ seen c) × (is_equals_of t.class ≡ true)) }
{
    match words.first() {
        None => None,
        Some((class, _, rest)) => { if is_equals(class) { Some(rest) } else { None } }
    }
}

fn are_words(words: Cursor<'_>) -> bool
    ensures { result ≡ are_words_of (seen words.entry) }
{
    begins_with_word(words) && is_none_left(words.past_words())
}

/// What the words after an equals sign conclude.
fn conclusion_of(
    alloc: Global,
    model: &Model,
    words: Cursor<'_>,
) -> Result<Option<Heading>, NoMemory>
    ensures { IfOk result (λ o. MatchOption o (are_words_of (seen words.entry) ≡ false) (λ h. (are_words_of (seen words.entry) ≡ true) × (h ≡ head.Conclusion (concluded_of model.now (seen words.entry))))) }
{
    if are_words(words) {
        let attr = concluded(alloc, model, words)?;
        Ok(Some(Heading::Conclusion(attr)))
    } else {
        Ok(None)
    }
}

/// What words say as an operand.
pub fn operand_of(
    alloc: Global,
    names: &Names,
    words: Cursor<'_>,
) -> Result<Option<Reading>, NoMemory>
    ensures { IfOk result (Says (IsOperand names.now (seen words.entry))) }
{
    let reading = opa_sentence::operand_of(alloc, names, words.text, words.tokens)?;
    Ok(reading)
}

fn condition_of(
    alloc: Global,
    names: &Names,
    words: Cursor<'_>,
) -> Result<Option<Reading>, NoMemory>
    ensures { IfOk result (Says (IsCondition names.now (seen words.entry))) }
{
    match ending_of(words) {
        Ending::Nothing => {
            let reading = operand_of(alloc, names, words)?;
            Ok(reading)
        }
        Ending::And | Ending::Or | Ending::If | Ending::Otherwise => Ok(None),
    }
}

fn as_condition(reading: Option<Reading>) -> Option<Heading>
    ensures { MatchOption result (reading ≡ None) (λ h. (x : ReadingView) × (reading ≡ Some x) × (h ≡ head.Condition x)) }
{
    match reading {
        None => None,
        Some(reading) => Some(Heading::Condition(reading)),
    }
}

/// What words say as a head.
fn head_of(
    alloc: Global,
    model: &Model,
    names: &Names,
    words: Cursor<'_>,
) -> Result<Option<Heading>, NoMemory>
    ensures { IfOk result (Says (SpellsHead model.now names.now (seen words.entry))) }
{
    match past_equals(words) {
        Some(rest) => {
            let conclusion = conclusion_of(alloc, model, rest)?;
            Ok(conclusion)
        }
        None => Ok(as_condition(condition_of(alloc, names, words)?)),
    }
}

/// What a cell says as a head.
fn head_cell(
    alloc: Global,
    model: &Model,
    names: &Names,
    cell: &[u8],
) -> Result<Option<Heading>, NoMemory>
    ensures { IfOk result (Says (IsHeadCell model.now names.now cell.now)) }
{
    match words_of(alloc, cell)? {
        None => Ok(None),
        Some(words) => {
            let heading = head_of(alloc, model, names, words.cursor())?;
            Ok(heading)
        }
    }
}

impl Heads {
    fn none(alloc: Global) -> Heads
        ensures { headings result ≡ [] }
    {
        Heads {
            conditions: List::new(alloc),
            conclusions: List::new(alloc),
        }
    }

    /// Another head. A condition head doesn't stand after a conclusion head.
    fn with(self, heading: Heading) -> Result<Option<Heads>, NoMemory>
        ensures { IfOk result (λ o. MatchOption o ((self.conclusions ≢ []) × (x : ReadingView) × (heading ≡ head.Condition x)) (λ h. headings h ≡ headings self ++ heading ∷ [])) }
    {
        match heading {
            Heading::Condition(reading) => self.with_condition(reading),
            Heading::Conclusion(attr) => {
                let mut heads = self;
                heads.conclusions.push(attr)?;
                Ok(Some(heads))
            }
        }
    }

    fn with_condition(self, reading: Reading) -> Result<Option<Heads>, NoMemory>
        ensures { IfOk result (λ o. MatchOption o (self.conclusions ≢ []) (λ h. headings h ≡ headings self ++ head.Condition reading ∷ [])) }
    {
        let mut heads = self;
        if heads.conclusions.len() == 0 {
            heads.conditions.push(reading)?;
            Ok(Some(heads))
        } else {
            Ok(None)
        }
    }
}

/// What the cells of the first record say.
pub fn heads_of(
    alloc: Global,
    model: &Model,
    names: &Names,
    cells: &[List<u8>],
) -> Result<Option<Heads>, NoMemory>
    ensures { IfOk result (Says (AreHeads model.now names.now cells.now)) }
{
    let mut heads = Heads::none(alloc);
    let mut rest = cells;
    while let Some((cell, later)) = front(rest) {
        match head_cell(alloc, model, names, cell.as_slice())? {
            None => return Ok(None),
            Some(heading) => match heads.with(heading)? {
                None => return Ok(None),
                Some(more) => {
                    heads = more;
                    rest = later;
                }
            },
        }
    }
    if heads.conclusions.len() == 0 {
        Ok(None)
    } else {
        Ok(Some(heads))
    }
}
