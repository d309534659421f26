// Values, lines and names as JSON.
ghost use Rattle.std.specs.Prelude.{◌≡◌, ◌++◌, ℕ, IfOk};
ghost use Rattle.std.specs.List.{AllByRecursion};
ghost use Rattle.serde_json.specs.View.{view};
ghost use Rattle.opa_text.specs.Texts.{IsOfCalendar, value_text as printed};
ghost use Rattle.opa_model.specs.declared.things.Kind.TheVariants as kinds;
ghost use Rattle.opa_value.specs.declared.value.Value.{Value as ValueView};
ghost use Rattle.opa_saved.specs.RoundTrip.{IsValue, IsLineOfValues};
ghost use Rattle.opa_saved.specs.Saved as meant;
ghost use Rattle.opa_saved.specs.Told.{AreOfCalendar};

use opa_io::{NoMemory, Txt, front};
use opa_line::Line;
use opa_model::Kind;
use opa_value::Value;
use serde_json::{Value as Json, json};
use std::alloc::Global;

fn joined(alloc: Global, front: &str, text: &str) -> Result<Txt, NoMemory>
    ensures { IfOk result (λ t. t ≡ front.now ++ text.now) }
{
    let both = format!(in alloc; "{front}{text}")?;
    Ok(Txt::from_string(both))
}

/// A value as a text: `?`, `u`, `b:true`, `n:1.5`, `t:` and a text, `d:` and a date.
fn value_text(alloc: Global, value: &Value) -> Result<Txt, NoMemory>
    requires { IsOfCalendar value.now }
    ensures { IfOk result (λ t. t ≡ meant.value_text value.now) }
{
    match value {
        Value::Unknown => Txt::from_str(alloc, "?"),
        Value::Uncertain => Txt::from_str(alloc, "u"),
        Value::Bool(true) => Txt::from_str(alloc, "b:true"),
        Value::Bool(false) => Txt::from_str(alloc, "b:false"),
        Value::Num(_) => joined(alloc, "n:", plain(alloc, value)?.as_str()),
        Value::Words(text) => joined(alloc, "t:", text.as_str()),
        Value::Day(_) => joined(alloc, "d:", plain(alloc, value)?.as_str()),
    }
}

/// The text of a number or of a day.
fn plain(alloc: Global, value: &Value) -> Result<Txt, NoMemory>
    requires { IsOfCalendar value.now }
    ensures { IfOk result (λ t. t ≡ printed kinds.Number value.now) }
{
    opa_text::value_text(alloc, Kind::Number, value)
}

/// Shows that a number is in its range.
fn show_range(value: &Value)
    ensures { IsValue value.now }
{
    if let Value::Num(number) = value {
        let _count = number.count();
    }
}

fn pair_json(alloc: Global, pair: &(u32, Value)) -> Result<Json, NoMemory>
    requires { IsOfCalendar pair.now.1 }
    ensures data { IfOk result (λ v. view v ≡ meant.pair_data pair.now) }
    ensures range { IfOk result (λ v. IsValue pair.now.1) }
{
    show_range(&pair.1);
    let text = value_text(alloc, &pair.1)?;
    Ok(json!(in alloc; [pair.0, text.as_str()])?)
}

/// A line as a list of days and values.
pub(crate) fn line_json(alloc: Global, line: &Line<Value>) -> Result<Json, NoMemory>
    requires { AreOfCalendar line.now }
    ensures data { IfOk result (λ v. view v ≡ meant.line_data line.now) }
    ensures line { IfOk result (λ v. IsLineOfValues line.now) }
{
    let json = pairs_json(alloc, line.segments())?;
    Ok(json)
}

fn pairs_json(alloc: Global, pairs: &[(u32, Value)]) -> Result<Json, NoMemory>
    requires { AreOfCalendar pairs.now }
    ensures data { IfOk result (λ v. view v ≡ meant.line_data pairs.now) }
    ensures range { IfOk result (λ v. AllByRecursion (λ (p : ℕ × ValueView). IsValue p.1) pairs.now) }
{
    let mut items = Vec::new(alloc);
    let mut rest = pairs;
    while let Some((pair, later)) = front(rest) {
        items.push(pair_json(alloc, pair)?)?;
        rest = later;
    }
    Ok(Json::Array(items))
}

/// Names as a list.
pub(crate) fn names_json(alloc: Global, names: &[Txt]) -> Result<Json, NoMemory>
    ensures { IfOk result (λ v. view v ≡ meant.names_data names.now) }
{
    let mut items = Vec::new(alloc);
    let mut rest = names;
    while let Some((name, later)) = front(rest) {
        items.push(Json::String(String::from_str(alloc, name.as_str())?))?;
        rest = later;
    }
    Ok(Json::Array(items))
}
