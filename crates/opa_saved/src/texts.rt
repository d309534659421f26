// Texts of a saved case, and the values that they say.
ghost use Rattle.std.specs.Prelude.{◌≡◌, IfOk};
ghost use Rattle.std.specs.List.{list_any};
ghost use Rattle.std.specs.Option.{option_map};
ghost use Rattle.opa_case.specs.Clean.{is_control, is_clean_text};
ghost use Rattle.opa_text.specs.Readers.{number_of, day_of};
ghost use Rattle.opa_saved.specs.Texts as meant;

use opa_date::parse_day;
use opa_io::{NoMemory, Txt};
use opa_value::{Number, Value};
use std::alloc::Global;

fn is_control(byte: u8) -> bool
    ensures { result ≡ is_control byte }
{
    byte < 32 || byte == 127
}

fn is_clean(text: &str) -> bool
    ensures { result ≡ is_clean_text text.now }
{
    !has_control(text.as_bytes())
}

fn has_control(bytes: &[u8]) -> bool
    ensures { result ≡ list_any is_control bytes.now }
{
    bytes.iter().any(|byte| is_control(*byte))
}

/// The text, unless it has a control character.
pub(crate) fn clean(alloc: Global, text: &str) -> Result<Option<Txt>, NoMemory>
    ensures { IfOk result (λ r. r ≡ meant.clean text.now) }
{
    if is_clean(text) {
        Ok(Some(Txt::from_str(alloc, text)?.shared()?))
    } else {
        Ok(None)
    }
}

fn after<'t>(front: &str, text: &'t str) -> Option<&'t str>
    ensures { option_map (λ rest. rest.now) result ≡ meant.after front.now text.now }
{
    match text.strip_prefix(front) {
        Some(rest) => Some(rest),
        None => None,
    }
}

fn number_of(text: &str) -> Option<Number>
    ensures { result ≡ number_of text.now }
{
    match Number::parse(text) {
        Ok(number) => Some(number),
        Err(_) => None,
    }
}

fn day_of(text: &str) -> Option<u32>
    ensures { result ≡ day_of text.now }
{
    match parse_day(text) {
        Ok(day) => Some(day),
        Err(_) => None,
    }
}

/// The number, if this is its plain text.
fn plainly(alloc: Global, text: &str, number: Number) -> Result<Option<Value>, NoMemory>
    ensures { IfOk result (λ r. r ≡ meant.plainly text.now number) }
{
    let plain = number.text(alloc, false)?;
    if plain.as_str() == text {
        Ok(Some(Value::Num(number)))
    } else {
        Ok(None)
    }
}

fn number_value(alloc: Global, text: &str) -> Result<Option<Value>, NoMemory>
    ensures { IfOk result (λ r. r ≡ meant.number_value text.now) }
{
    match number_of(text) {
        Some(number) => plainly(alloc, text, number),
        None => Ok(None),
    }
}

fn text_value(alloc: Global, text: &str) -> Result<Option<Value>, NoMemory>
    ensures { IfOk result (λ r. r ≡ meant.text_value text.now) }
{
    match clean(alloc, text)? {
        Some(words) => Ok(Some(Value::Words(words))),
        None => Ok(None),
    }
}

fn day_value(text: &str) -> Option<Value>
    ensures { result ≡ meant.day_value text.now }
{
    match day_of(text) {
        Some(day) => Some(Value::Day(day)),
        None => None,
    }
}

/// The value behind `n:`, `t:` or `d:`.
#[tactic(auto, unfolding(crate::specs::Texts::typed_value))]
fn typed_value(alloc: Global, text: &str) -> Result<Option<Value>, NoMemory>
    ensures { IfOk result (λ r. r ≡ meant.typed_value text.now) }
{
    if let Some(number) = after("n:", text) {
        return number_value(alloc, number);
    }
    if let Some(words) = after("t:", text) {
        return text_value(alloc, words);
    }
    match after("d:", text) {
        Some(day) => Ok(day_value(day)),
        None => Ok(None),
    }
}

/// The value that a text says.
pub(crate) fn value_of(alloc: Global, text: &str) -> Result<Option<Value>, NoMemory>
    ensures { IfOk result (λ r. r ≡ meant.value_of text.now) }
{
    match text {
        "?" => Ok(Some(Value::Unknown)),
        "u" => Ok(Some(Value::Uncertain)),
        "b:true" => Ok(Some(Value::Bool(true))),
        "b:false" => Ok(Some(Value::Bool(false))),
        _ => typed_value(alloc, text),
    }
}
