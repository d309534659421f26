// The text of a value.
ghost use Rattle.std.specs.Prelude.{◌≡◌, ◌<◌, IfOk, OnOk, ◌++◌, IsTrue};
ghost use Rattle.opa_date.specs.declared.TheConstants.{DAYS};
ghost use Rattle.opa_date.specs.Texts.{day_text as day_text_of};
ghost use Rattle.opa_text.specs.Texts.{value_text as value_text_of, number_text as number_text_of, bool_text as bool_text_of, IsOfCalendar};

use opa_date::day_text;
use opa_io::{NoMemory, Txt};
use opa_model::Kind;
use opa_value::{Number, Value};
use opa_words::quoted;
use std::alloc::Global;
use std::str;

/// The text of a value of a kind: `unknown`, `uncertain`, `true`, `12.5`, a currency's `12.50`, `"a text"`, `2024-01-01`.
pub fn value_text(alloc: Global, kind: Kind, value: &Value) -> Result<Txt, NoMemory>
    requires { IsOfCalendar value.now }
    ensures { IfOk result (λ t. t ≡ value_text_of kind value.now) }
{
    match value {
        Value::Unknown => Txt::from_str(alloc, "unknown"),
        Value::Uncertain => Txt::from_str(alloc, "uncertain"),
        Value::Bool(holds) => Txt::from_str(alloc, bool_text(*holds)),
        Value::Num(number) => number_text(alloc, kind, *number),
        Value::Words(text) => quoted(alloc, text.as_str()),
        Value::Day(day) => date_text(alloc, *day),
    }
}

fn bool_text(holds: bool) -> &'static str
    ensures { result.now ≡ bool_text_of holds }
{
    if holds { "true" } else { "false" }
}

fn number_text(alloc: Global, kind: Kind, number: Number) -> Result<Txt, NoMemory>
    ensures { IfOk result (λ t. t ≡ number_text_of kind number) }
{
    match kind {
        Kind::Currency => number.text(alloc, true),
        Kind::Bool | Kind::Number | Kind::Words | Kind::Date => number.text(alloc, false),
    }
}

/// The text of a day, as YYYY-MM-DD.
pub fn date_text(alloc: Global, day: u32) -> Result<Txt, NoMemory>
    requires { day < DAYS }
    ensures { IfOk result (λ t. t ≡ day_text_of day) }
{
    let text = day_text(day);
    match str::from_utf8(&text) {
        Ok(text) => Txt::from_str(alloc, text),
        Err(_) => Err(NoMemory),
    }
}
