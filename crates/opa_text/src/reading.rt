// What stands at the front of tokens.
ghost use Rattle.std.specs.Prelude.{◌≡◌, IfOk, IfSome, ◌<◌, ℕ};
ghost use Rattle.std.specs.Option.{option_map};
ghost use Rattle.std.specs.Str.{chars};
ghost use Rattle.opa_date.specs.declared.TheConstants.{DAYS};
ghost use Rattle.opa_words.specs.Kinds.{IsToken, quoted};
ghost use Rattle.opa_words.specs.Pieces.{seen, AreOfKind};
ghost use Rattle.opa_text.specs.Readers as meant;
ghost use Rattle.opa_text.specs.Readers.{as_written};

use opa_date::parse_day;
use opa_io::{NoMemory, Txt};
use opa_value::{Number, Value};
use opa_words::{Pieces, TokenKind, text_of_token};
use std::alloc::Global;

fn word_value(word: &str) -> Option<Value>
    ensures { result ≡ meant.word_value word.now }
{
    match word {
        "unknown" => Some(Value::Unknown),
        "uncertain" => Some(Value::Uncertain),
        "true" => Some(Value::Bool(true)),
        "false" => Some(Value::Bool(false)),
        _ => None,
    }
}

fn number_of(text: &str) -> Option<Number>
    ensures { result ≡ meant.number_of text.now }
{
    match Number::parse(text) {
        Ok(number) => Some(number),
        Err(_) => None,
    }
}

fn negative(number: Number) -> Option<Number>
    ensures { result ≡ meant.negative number }
{
    Number::from_count(-i128::from(number.count()))
}

fn day_of(text: &str) -> Option<u32>
    ensures value { result ≡ meant.day_of text.now }
    ensures bound { IfSome result (λ d. d < DAYS) }
{
    match parse_day(text) {
        Ok(day) => Some(day),
        Err(_) => None,
    }
}

/// What one token says.
fn token_value(alloc: Global, kind: TokenKind, text: &str) -> Result<Option<Value>, NoMemory>
    requires { IsToken kind (chars text.now) }
    ensures { IfOk result (λ r. option_map as_written r ≡ meant.token_value kind text.now) }
{
    Ok(match kind {
        TokenKind::Word => word_value(text),
        TokenKind::Number => number_of(text).map(|n| Value::Num(n)),
        TokenKind::Date => day_of(text).map(|d| Value::Day(d)),
        TokenKind::Text => Some(Value::Words(text_of_token(alloc, text)?)),
        TokenKind::Symbol => None,
    })
}

fn negative_token(kind: TokenKind, text: &str) -> Option<Value>
    ensures { result ≡ meant.negative_token kind text.now }
{
    match kind {
        TokenKind::Number => Some(Value::Num(negative(number_of(text)?)?)),
        TokenKind::Word | TokenKind::Date | TokenKind::Text | TokenKind::Symbol => None,
    }
}

fn is_symbol(symbol: &str, kind: TokenKind, text: &str) -> bool
    ensures { result ≡ meant.is_symbol symbol.now kind text.now }
{
    match kind {
        TokenKind::Symbol => text == symbol,
        TokenKind::Word | TokenKind::Number | TokenKind::Date | TokenKind::Text => false,
    }
}

pub(crate) fn is_word(word: &str, kind: TokenKind, text: &str) -> bool
    ensures { result ≡ meant.is_word word.now kind text.now }
{
    match kind {
        TokenKind::Word => text == word,
        TokenKind::Number | TokenKind::Date | TokenKind::Text | TokenKind::Symbol => false,
    }
}

fn after_minus<'t>(pieces: Pieces<'t>) -> Option<(Value, Pieces<'t>)>
    requires { AreOfKind pieces }
    ensures value { option_map (λ x. (x.0, seen x.1)) result ≡ meant.after_minus (seen pieces.entry) }
    ensures later { IfSome result (λ x. AreOfKind x.1) }
{
    let (kind, text, rest) = pieces.first()?;
    Some((negative_token(kind, text)?, rest))
}

/// The value at the front.
pub(crate) fn value_at<'t>(
    alloc: Global,
    pieces: Pieces<'t>,
) -> Result<Option<(Value, Pieces<'t>)>, NoMemory>
    requires { AreOfKind pieces }
    ensures value { IfOk result (λ r. option_map (λ x. (as_written x.0, seen x.1)) r ≡ meant.value_at (seen pieces.entry)) }
    ensures later { IfOk result (λ r. IfSome r (λ x. AreOfKind x.1)) }
{
    match pieces.first() {
        None => Ok(None),
        Some((kind, text, rest)) => {
            if is_symbol("-", kind, text) {
                return Ok(after_minus(rest));
            }
            match token_value(alloc, kind, text)? {
                None => Ok(None),
                Some(value) => Ok(Some((value, rest))),
            }
        }
    }
}

fn past_symbol<'t>(symbol: &str, pieces: Pieces<'t>) -> Option<Pieces<'t>>
    requires { AreOfKind pieces }
    ensures value { option_map seen result ≡ meant.past_symbol symbol.now (seen pieces.entry) }
    ensures later { IfSome result AreOfKind }
{
    let (kind, text, rest) = pieces.first()?;
    if is_symbol(symbol, kind, text) {
        Some(rest)
    } else {
        None
    }
}

fn past_word<'t>(word: &str, pieces: Pieces<'t>) -> Option<Pieces<'t>>
    requires { AreOfKind pieces }
    ensures value { option_map seen result ≡ meant.past_word word.now (seen pieces.entry) }
    ensures later { IfSome result AreOfKind }
{
    let (kind, text, rest) = pieces.first()?;
    if is_word(word, kind, text) {
        Some(rest)
    } else {
        None
    }
}

fn day_token(kind: TokenKind, text: &str) -> Option<u32>
    ensures value { result ≡ meant.day_token kind text.now }
    ensures bound { IfSome result (λ d. d < DAYS) }
{
    match kind {
        TokenKind::Date => day_of(text),
        TokenKind::Word | TokenKind::Number | TokenKind::Text | TokenKind::Symbol => None,
    }
}

/// The day at the front.
pub(crate) fn day_at<'t>(pieces: Pieces<'t>) -> Option<(u32, Pieces<'t>)>
    requires { AreOfKind pieces }
    ensures value { option_map (λ x. (x.0, seen x.1)) result ≡ meant.day_at (seen pieces.entry) }
    ensures bound { IfSome result (λ x. x.0 < DAYS) }
    ensures later { IfSome result (λ x. AreOfKind x.1) }
{
    let (kind, text, rest) = pieces.first()?;
    Some((day_token(kind, text)?, rest))
}

/// What follows `; from`.
fn past_from<'t>(pieces: Pieces<'t>) -> Option<Pieces<'t>>
    requires { AreOfKind pieces }
    ensures value { option_map seen result ≡ meant.past_from (seen pieces.entry) }
    ensures later { IfSome result AreOfKind }
{
    past_word("from", past_symbol(";", pieces)?)
}

/// The day behind `; from`.
fn changed_day<'t>(pieces: Pieces<'t>) -> Option<(u32, Pieces<'t>)>
    requires { AreOfKind pieces }
    ensures value { option_map (λ x. (x.0, seen x.1)) result ≡ meant.changed_day (seen pieces.entry) }
    ensures later { IfSome result (λ x. AreOfKind x.1) }
{
    day_at(past_from(pieces)?)
}

/// The change at the front.
pub(crate) fn change_at<'t>(
    alloc: Global,
    pieces: Pieces<'t>,
) -> Result<Option<((u32, Value), Pieces<'t>)>, NoMemory>
    requires { AreOfKind pieces }
    ensures value { IfOk result (λ r. option_map (λ x. ((x.0.0, as_written x.0.1), seen x.1)) r ≡ meant.change_at (seen pieces.entry)) }
    ensures later { IfOk result (λ r. IfSome r (λ x. AreOfKind x.1)) }
{
    match changed_day(pieces) {
        None => Ok(None),
        Some((day, rest)) => match value_at(alloc, rest)? {
            None => Ok(None),
            Some((value, last)) => Ok(Some(((day, value), last))),
        },
    }
}

/// The name at the front.
pub(crate) fn name_at<'t>(
    alloc: Global,
    pieces: Pieces<'t>,
) -> Result<Option<(Txt, Pieces<'t>)>, NoMemory>
    requires { AreOfKind pieces }
    ensures value { IfOk result (λ r. option_map (λ x. (quoted x.0, seen x.1)) r ≡ meant.name_at (seen pieces.entry)) }
    ensures later { IfOk result (λ r. IfSome r (λ x. AreOfKind x.1)) }
{
    match pieces.first() {
        None => Ok(None),
        Some((kind, text, rest)) => match kind {
            TokenKind::Text => Ok(Some((text_of_token(alloc, text)?.shared()?, rest))),
            TokenKind::Word | TokenKind::Number | TokenKind::Date | TokenKind::Symbol => Ok(None),
        },
    }
}

/// The name behind a comma.
pub(crate) fn next_name<'t>(
    alloc: Global,
    pieces: Pieces<'t>,
) -> Result<Option<(Txt, Pieces<'t>)>, NoMemory>
    requires { AreOfKind pieces }
    ensures value { IfOk result (λ r. option_map (λ x. (quoted x.0, seen x.1)) r ≡ meant.next_name (seen pieces.entry)) }
    ensures later { IfOk result (λ r. IfSome r (λ x. AreOfKind x.1)) }
{
    match past_symbol(",", pieces) {
        None => Ok(None),
        Some(rest) => name_at(alloc, rest),
    }
}

/// Whether nothing stands there but this word.
pub(crate) fn is_only(word: &str, pieces: Pieces<'_>) -> bool
    requires { AreOfKind pieces }
    ensures { result ≡ meant.is_only word.now (seen pieces.entry) }
{
    match past_word(word, pieces) {
        None => false,
        Some(rest) => rest.is_empty(),
    }
}
