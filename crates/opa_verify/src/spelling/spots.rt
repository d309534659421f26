// The point of a printed line.
ghost use Rattle.std.specs.Prelude.{◌≡◌, ◌<◌, ◌++◌, length, not, true, IfOk, codes};
ghost use Rattle.std.specs.List.{All};
ghost use Rattle.std.specs.Str.{chars};
ghost use Rattle.opa_words.specs.Cuts.{Cuts};
ghost use Rattle.opa_words.specs.Kinds.{quoted};
ghost use Rattle.opa_words.specs.Places.{IsWithin};
ghost use Rattle.opa_words.specs.Quotes.{HasNoQuote, BeginsWithQuote};
ghost use Rattle.opa_verify.specs.Spelling.Printed.{spot_text};
ghost use Rattle.opa_verify.specs.Spelling.Spelling as meant;
ghost use Rattle.opa_verify.specs.Spelling.Spelling.{CanBePhrase, IsName, IsSpot, Reads};

use crate::spelling::cuts::{at_quote, before};
use crate::spelling::printed::Spot;
use crate::spelling::values::{is_same, text_in};
use opa_io::{NoMemory, Txt};
use opa_words::{Token, WordFault, is_phrase, phrase_text, tokens};
use std::alloc::Global;
use std::str;

/// The point that a text may be: a phrase, and a name between quotes behind `of`.
pub(crate) fn spot_in(alloc: Global, text: &[u8]) -> Result<Option<Spot>, NoMemory>
    ensures { IfOk result (Reads IsSpot spot_text text.now) }
{
    match at_quote(text) {
        None => plain_spot(alloc, text),
        Some((front, name)) => {
            let found = named_spot(alloc, front, name)?;
            Ok(found)
        }
    }
}

fn plain_spot(alloc: Global, text: &[u8]) -> Result<Option<Spot>, NoMemory>
    requires { HasNoQuote text.now }
    ensures { IfOk result (Reads IsSpot spot_text text.now) }
{
    match phrase_in(alloc, text)? {
        None => Ok(None),
        Some(phrase) => Ok(Some(Spot { phrase, name: None })),
    }
}

fn named_spot(alloc: Global, front: &[u8], name: &[u8]) -> Result<Option<Spot>, NoMemory>
    requires front { HasNoQuote front.now }
    requires name { BeginsWithQuote name.now }
    ensures { IfOk result (Reads IsSpot spot_text (front.now ++ name.now)) }
{
    match before(" of ", front) {
        None => Ok(None),
        Some(phrase) => {
            let found = both_in(alloc, front, phrase, name)?;
            Ok(found)
        }
    }
}

fn both_in(
    alloc: Global,
    front: &[u8],
    phrase: &[u8],
    name: &[u8],
) -> Result<Option<Spot>, NoMemory>
    requires front { HasNoQuote front.now }
    requires name { BeginsWithQuote name.now }
    requires phrase { front.now ≡ phrase.now ++ codes " of " }
    ensures { IfOk result (Reads IsSpot spot_text (front.now ++ name.now)) }
{
    match phrase_in(alloc, phrase)? {
        None => Ok(None),
        Some(found) => {
            let spot = with_name(alloc, front, found, name)?;
            Ok(spot)
        }
    }
}

fn with_name(
    alloc: Global,
    front: &[u8],
    phrase: Txt,
    name: &[u8],
) -> Result<Option<Spot>, NoMemory>
    requires front { HasNoQuote front.now }
    requires name { BeginsWithQuote name.now }
    requires can { CanBePhrase phrase }
    requires phrase { front.now ≡ phrase ++ codes " of " }
    ensures { IfOk result (Reads IsSpot spot_text (front.now ++ name.now)) }
{
    match name_in(alloc, name)? {
        None => Ok(None),
        Some(found) => {
            let name = Some(found);
            Ok(Some(Spot { phrase, name }))
        }
    }
}

/// A name between quotes, which isn't empty.
pub(crate) fn name_in(alloc: Global, text: &[u8]) -> Result<Option<Txt>, NoMemory>
    ensures { IfOk result (Reads IsName quoted text.now) }
{
    match str::from_utf8(text) {
        Err(_) => Ok(None),
        Ok(text) => name_of(alloc, text),
    }
}

fn name_of(alloc: Global, text: &str) -> Result<Option<Txt>, NoMemory>
    ensures { IfOk result (Reads IsName quoted text.now) }
{
    match text_in(alloc, text)? {
        None => Ok(None),
        Some(name) => {
            if name.as_str().len() == 0 {
                return Ok(None);
            }
            Ok(Some(name))
        }
    }
}

/// The phrase that a text may be.
fn phrase_in(alloc: Global, text: &[u8]) -> Result<Option<Txt>, NoMemory>
    ensures { IfOk result (Reads CanBePhrase (λ t. t) text.now) }
{
    match str::from_utf8(text) {
        Err(_) => Ok(None),
        Ok(text) => worded_phrase(alloc, text),
    }
}

fn worded_phrase(alloc: Global, text: &str) -> Result<Option<Txt>, NoMemory>
    ensures { IfOk result (Reads CanBePhrase (λ t. t) text.now) }
{
    if text.len() > 4_294_967_295 {
        return Err(NoMemory);
    }
    if !is_plain(text.as_bytes()) {
        return Ok(None);
    }
    match tokens(alloc, text) {
        Err(WordFault::NoMemory) => Err(NoMemory),
        Err(WordFault::Place(_)) => Ok(None),
        Ok(found) => phrase_of(alloc, text, &found),
    }
}

fn phrase_of(alloc: Global, text: &str, found: &[Token]) -> Result<Option<Txt>, NoMemory>
    requires cut { Cuts (length text.now) (chars text.now) found.now }
    requires within { All (IsWithin text.now) found.now }
    requires plain { meant.is_plain text.now ≡ true }
    ensures { IfOk result (Reads CanBePhrase (λ t. t) text.now) }
{
    if !is_phrase(text, found) {
        return Ok(None);
    }
    let phrase = phrase_text(alloc, text, found)?;
    if !is_same(phrase.as_str(), text) {
        return Ok(None);
    }
    Ok(Some(phrase))
}

fn is_plain(bytes: &[u8]) -> bool
    ensures { result ≡ meant.is_plain bytes.now }
{
    bytes.iter().all(|byte| is_unsigned(*byte))
}

fn is_unsigned(byte: u8) -> bool
    ensures { result ≡ not (meant.is_sign byte) }
{
    !(byte == 34 || byte == 44 || byte == 58)
}
