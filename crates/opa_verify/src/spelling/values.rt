// A value of a printed line.
ghost use Rattle.std.specs.Prelude.{◌<◌, ◌≡◌, ◌%◌, ℕ, List as Seq, None, Ok, IfOk, MatchOption};
ghost use Rattle.std.specs.Bool.{Decides};
ghost use Rattle.std.specs.Int.RustNames.{unsigned_abs};
ghost use Rattle.opa_date.specs.declared.TheConstants.{DAYS};
ghost use Rattle.opa_date.specs.Texts.{day_text};
ghost use Rattle.opa_text.specs.Laws.{CanBeQuoted};
ghost use Rattle.opa_text.specs.Readers.{word_value as word_value_of};
ghost use Rattle.opa_value.specs.NumberText.{read_number};
ghost use Rattle.opa_words.specs.Kinds.{quoted};
ghost use Rattle.opa_verify.specs.Spelling.Reading.{IsShown, shown_text, IsNumber, number_shown};
ghost use Rattle.opa_verify.specs.Spelling.Spelling.{Reads};

use crate::spelling::clean::can_be_quoted;
use opa_date::parse_day;
use opa_io::{NoMemory, Txt};
use opa_model::Kind;
use opa_value::{Number, Value};
use opa_words::front_text;
use std::alloc::Global;

/// The value that a text may be, with a kind as whose it is printed.
pub(crate) fn value_in(alloc: Global, text: &str) -> Result<Option<(Kind, Value)>, NoMemory>
    ensures { IfOk result (Reads IsShown shown_text text.now) }
{
    match word_value(text) {
        None => other_value(alloc, text),
        Some(value) => Ok(Some((Kind::Bool, value))),
    }
}

fn word_value(text: &str) -> Option<Value>
    ensures { result ≡ word_value_of text.now }
{
    match text {
        "unknown" => Some(Value::Unknown),
        "uncertain" => Some(Value::Uncertain),
        "true" => Some(Value::Bool(true)),
        "false" => Some(Value::Bool(false)),
        _ => None,
    }
}

/// A day, a text or a number.
fn other_value(alloc: Global, text: &str) -> Result<Option<(Kind, Value)>, NoMemory>
    requires word { word_value_of text.now ≡ None }
    ensures { IfOk result (Reads IsShown shown_text text.now) }
{
    match day_in(text) {
        None => undated_value(alloc, text),
        Some(day) => Ok(Some((Kind::Date, Value::Day(day)))),
    }
}

pub(crate) fn day_in(text: &str) -> Option<u32>
    ensures { MatchOption result ((d : ℕ) → d < DAYS → day_text d ≡ text.now → ⊥) (λ d. (d < DAYS) × (day_text d ≡ text.now)) }
{
    match parse_day(text) {
        Ok(day) => Some(day),
        Err(_) => None,
    }
}

/// A text or a number.
fn undated_value(alloc: Global, text: &str) -> Result<Option<(Kind, Value)>, NoMemory>
    requires word { word_value_of text.now ≡ None }
    requires day { (d : ℕ) → d < DAYS → day_text d ≡ text.now → ⊥ }
    ensures { IfOk result (Reads IsShown shown_text text.now) }
{
    match text_in(alloc, text)? {
        None => number_value(alloc, text),
        Some(words) => Ok(Some((Kind::Words, Value::Words(words)))),
    }
}

/// What a text between quotes stands for.
pub(crate) fn text_in(alloc: Global, text: &str) -> Result<Option<Txt>, NoMemory>
    ensures { IfOk result (Reads CanBeQuoted quoted text.now) }
{
    match front_text(alloc, text)? {
        None => Ok(None),
        Some((inner, rest)) => {
            if !rest.is_empty() {
                return Ok(None);
            }
            if !can_be_quoted(inner.as_str()) {
                return Ok(None);
            }
            Ok(Some(inner))
        }
    }
}

fn number_value(alloc: Global, text: &str) -> Result<Option<(Kind, Value)>, NoMemory>
    requires word { word_value_of text.now ≡ None }
    requires day { (d : ℕ) → d < DAYS → day_text d ≡ text.now → ⊥ }
    requires words { (w : Seq ℕ) → CanBeQuoted w → quoted w ≡ text.now → ⊥ }
    ensures { IfOk result (Reads IsShown shown_text text.now) }
{
    match number_in(alloc, text)? {
        None => Ok(None),
        Some((kind, number)) => Ok(Some((kind, Value::Num(number)))),
    }
}

/// A number as it needs decimals, or else as a currency.
fn number_in(alloc: Global, text: &str) -> Result<Option<(Kind, Number)>, NoMemory>
    ensures { IfOk result (Reads IsNumber number_shown text.now) }
{
    match Number::parse(text) {
        Err(_) => Ok(None),
        Ok(number) => number_as(alloc, number, text),
    }
}

fn number_as(alloc: Global, number: Number, text: &str) -> Result<Option<(Kind, Number)>, NoMemory>
    requires { read_number text.now ≡ Ok number }
    ensures { IfOk result (Reads IsNumber number_shown text.now) }
{
    let plain = number.text(alloc, false)?;
    if is_same(plain.as_str(), text) {
        return Ok(Some((Kind::Number, number)));
    }
    let money = number.text(alloc, true)?;
    if !is_same(money.as_str(), text) {
        return Ok(None);
    }
    if !has_cents(number) {
        return Ok(None);
    }
    Ok(Some((Kind::Currency, number)))
}

/// Whether a number has no more than two decimals.
fn has_cents(number: Number) -> bool
    ensures { Decides result (unsigned_abs number % 100 ≡ 0) }
{
    number.count().unsigned_abs() % 100 == 0
}

pub(crate) fn is_same(text: &str, other: &str) -> bool
    ensures { Decides result (text.now ≡ other.now) }
{
    text == other
}
