// How blocks begin.
ghost use Rattle.std.specs.Prelude.{ℕ, ◌≡◌, ◌+◌, ◌<◌, ◌≤◌, ◌^◌, [], length, drop, take, IfOk};
ghost use Rattle.std.specs.Option.{option_map};
ghost use Rattle.std.specs.List.{All};
ghost use Rattle.opa_words.specs.Places.{IsWithin};
ghost use Rattle.opa_sentence.specs.Cursors.{seen};
ghost use Rattle.opa_sentence.specs.Lexemes.{lexemes};
ghost use Rattle.opa_sentence.specs.Phrases.{past_words};
ghost use Rattle.opa_parse.specs.Fronts.{AreShort};
ghost use Rattle.opa_parse.specs.Openings.{IsSort, IsFirst, sort_of as sort_of_first, sort_of_word as sort_of_word_of, begins_with_word as begins_with_word_of, front_words as front_words_of, concluded as concluded_of, by_words as by_words_of, by_equals as by_equals_of, opening as opening_of, past_equals as past_equals_of, from_place as from_place_of, named_from as named_from_of, heading as heading_of, is_if as is_if_of, is_declaring, IsSortOf};

use crate::cut::{cut, front_of};
use crate::words::{body, ending_of, is_none_left, relation_of};
use crate::{BlockSort, Ending, Opening};
use opa_io::{NoMemory, Txt, front};
use opa_model::{AttrId, Model};
use opa_sentence::{Class, Cursor, Names, Relation};
use opa_tree::OpKind;
use opa_words::{BlockLine, Token, is_phrase, phrase_text, token_text};
use std::alloc::Global;

fn sort_of_word(word: &str) -> BlockSort
    ensures { result ≡ sort_of_word_of word.now }
{
    if is_declaring(word) {
        BlockSort::Declaration
    } else if word == "members" {
        BlockSort::Members
    } else {
        BlockSort::Rule
    }
}

fn is_declaring(word: &str) -> bool
    ensures { result ≡ is_declaring word.now }
{
    if word == "verb" || word == "entity" || word == "global" || word == "goal" {
        true
    } else {
        word == "screen" || word == "include" || word == "table"
    }
}

/// What a block is, by its first word.
pub fn sort_of(alloc: Global, lines: &[BlockLine]) -> Result<BlockSort, NoMemory>
    requires { AreShort lines.now }
    ensures { IfOk result (IsSort lines.now) }
{
    match front(lines) {
        None => Ok(BlockSort::Declaration),
        Some((first, _)) => sort_of_text(alloc, first.text.as_str()),
    }
}

/// What a block is whose first line has this text.
fn sort_of_text(alloc: Global, text: &str) -> Result<BlockSort, NoMemory>
    requires { length text.now < 2 ^ 32 }
    ensures { IfOk result (IsSortOf text.now) }
{
    let whole = front_of(alloc, text)?;
    match cut(alloc, whole)? {
        None => Ok(BlockSort::Rule),
        Some(tokens) => match front(tokens.as_slice()) {
            None => Ok(BlockSort::Rule),
            Some((first, _)) => Ok(sort_of_word(token_text(whole, *first))),
        },
    }
}

/// Whether the first token is a Word.
pub fn begins_with_word(words: Cursor<'_>) -> bool
    ensures { result ≡ begins_with_word_of (seen words.entry) }
{
    match words.first() {
        None => false,
        Some((class, _, _)) => class.is_word(),
    }
}

/// The words and numbers at the front.
fn front_words(words: Cursor<'_>) -> Cursor<'_>
    ensures { seen result ≡ front_words_of (seen words.entry) }
{
    let rest = words.past_words();
    first_words(words, words.tokens.len() - rest.tokens.len())
}

/// So many words at the front.
#[tactic(auto, using(crate::proofs::WordLaws::lexemes_take))]
fn first_words(words: Cursor<'_>, count: usize) -> Cursor<'_>
    requires { count ≤ length words.tokens.now }
    ensures { seen result ≡ take count (seen words.entry) }
{
    Cursor::new(words.text, &words.tokens[..count])
}

/// The attribute whose phrase these words are.
pub fn concluded(
    alloc: Global,
    model: &Model,
    words: Cursor<'_>,
) -> Result<Option<AttrId>, NoMemory>
    ensures { IfOk result (λ attr. attr ≡ concluded_of model.now (seen words.entry)) }
{
    let phrase = phrase_text(alloc, words.text, words.tokens)?;
    Ok(model.find_attribute(phrase.as_str()))
}

fn by_words(
    alloc: Global,
    model: &Model,
    ending: Ending,
    words: Cursor<'_>,
) -> Result<Opening, NoMemory>
    ensures { IfOk result (λ o. o ≡ by_words_of model.now ending (seen words.entry)) }
{
    match ending {
        Ending::If => {
            if begins_with_word(words) {
                Ok(Opening::If(concluded(alloc, model, words)?))
            } else {
                Ok(Opening::Nothing)
            }
        }
        _ => Ok(Opening::Nothing),
    }
}

fn by_equals(attr: Option<AttrId>, class: Class, rest: Cursor<'_>) -> Opening
    ensures { result ≡ by_equals_of attr class (seen rest.entry) }
{
    match class {
        Class::Compare(OpKind::Eq) => {
            if is_none_left(rest) {
                Opening::Cases(attr)
            } else {
                Opening::Is(attr)
            }
        }
        _ => Opening::Nothing,
    }
}

/// How a rule begins.
pub fn opening(alloc: Global, model: &Model, words: Cursor<'_>) -> Result<Opening, NoMemory>
    ensures { IfOk result (λ o. o ≡ opening_of model.now (seen words.entry)) }
{
    if !begins_with_word(words) {
        return Ok(Opening::Nothing);
    }
    match words.past_words().first() {
        None => by_words(alloc, model, ending_of(words), body(words)),
        Some((class, _, rest)) => {
            let attr = concluded(alloc, model, front_words(words))?;
            Ok(by_equals(attr, class, rest))
        }
    }
}

/// What follows the equals sign.
pub fn past_equals(words: Cursor<'_>) -> Cursor<'_>
    ensures { seen result ≡ past_equals_of (seen words.entry) }
{
    let rest = words.past_words();
    match rest.first() {
        None => rest,
        Some((_, _, after)) => after,
    }
}

/// How many tokens stand before the first word `from`.
fn from_place(text: &str, tokens: &[Token]) -> usize
    requires { All (IsWithin text.now) tokens.now }
    ensures place { result ≡ from_place_of text.now tokens.now }
    ensures within { result ≤ length tokens.now }
{
    for (place, token) in tokens.iter().enumerate() {
        if token_text(text, *token) == "from" {
            return place;
        }
    }
    tokens.len()
}

/// What follows so many tokens.
fn after(tokens: &[Token], place: usize) -> &[Token]
    requires { place ≤ length tokens.now }
    ensures { result.now ≡ drop (place + 1) tokens.now }
{
    if place < tokens.len() {
        &tokens[place + 1..]
    } else {
        &[]
    }
}

fn is_if(ending: Ending) -> bool
    ensures { result ≡ is_if_of ending }
{
    matches!(ending, Ending::If)
}

/// The phrase and the relation of `PHRASE from REL if`.
fn named_from(
    alloc: Global,
    names: &Names,
    text: &str,
    tokens: &[Token],
) -> Result<Option<(Txt, Relation)>, NoMemory>
    requires { All (IsWithin text.now) tokens.now }
    ensures { IfOk result (λ h. h ≡ named_from_of names.now text.now tokens.now) }
{
    let place = from_place(text, tokens);
    let phrase = &tokens[..place];
    let rest = after(tokens, place);
    if is_if(ending_of(Cursor::new(text, tokens))) && is_phrase(text, phrase) {
        match relation_of(names, body(Cursor::new(text, rest))) {
            None => Ok(None),
            Some(relation) => Ok(Some((phrase_text(alloc, text, phrase)?, relation))),
        }
    } else {
        Ok(None)
    }
}

/// The phrase and the relation of a membership block.
pub fn heading(
    alloc: Global,
    names: &Names,
    text: &str,
    tokens: &[Token],
) -> Result<Option<(Txt, Relation)>, NoMemory>
    requires { All (IsWithin text.now) tokens.now }
    ensures { IfOk result (λ h. h ≡ heading_of names.now text.now tokens.now) }
{
    match front(tokens) {
        None => Ok(None),
        Some((first, rest)) => {
            if token_text(text, *first) == "members" {
                named_from(alloc, names, text, rest)
            } else {
                Ok(None)
            }
        }
    }
}
