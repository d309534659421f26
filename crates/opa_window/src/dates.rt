// What is asked of a date: the value there, and whether the day is before it.
ghost use Rattle.std.specs.Prelude.{◌≡◌, ◌<◌, ◌≤◌, IfOk, OnOk, nat_lt};
ghost use Rattle.opa_date.specs.declared.TheConstants.{DAYS};
ghost use Rattle.opa_value.specs.declared.value.Value.TheVariants as value;
ghost use Rattle.opa_line.specs.Lines.{StandsFor};
ghost use Rattle.opa_window.specs.Days.{day_value};
ghost use Rattle.opa_window.specs.Stretches.{Reaches};
ghost use Rattle.opa_window.specs.Windows as meant;

use crate::stretches::start_of;
use opa_date::DAYS;
use opa_io::NoMemory;
use opa_line::{Builder, Line};
use opa_value::Value;
use std::alloc::Global;

/// The value of x at the date.
pub fn value_at(alloc: Global, date: &Line<Value>, x: &Line<Value>) -> Result<Line<Value>, NoMemory>
    ensures { IfOk result (StandsFor DAYS (λ d. meant.value_at (day_value x.now) (day_value date.now d))) }
{
    date.map(alloc, |day: &Value| value_on(alloc, day, x))
}

fn value_on(alloc: Global, date: &Value, x: &Line<Value>) -> Result<Value, NoMemory>
    ensures { IfOk result (λ v. v ≡ meant.value_at (day_value x.now) date.now) }
{
    match date {
        Value::Unknown => Ok(Value::Unknown),
        Value::Day(day) => {
            if *day < DAYS {
                x.at(*day).copy(alloc)
            } else {
                Ok(Value::Uncertain)
            }
        }
        _ => Ok(Value::Uncertain),
    }
}

/// Whether the day is before the date.
pub fn before(alloc: Global, date: &Line<Value>) -> Result<Line<Value>, NoMemory>
    ensures { IfOk result (StandsFor DAYS (λ d. meant.before (day_value date.now d) d)) }
{
    let mut out = Builder::new(alloc);
    let mut rest = date.segments();
    while let [p, after @ ..] = rest {
        let to = start_of(after);
        before_date(&mut out, &p.1, to)?;
        rest = after;
    }
    Ok(out.finish())
}

fn before_date(out: &mut Builder<Value>, date: &Value, to: u32) -> Result<(), NoMemory>
    requires below { to ≤ DAYS }
    requires order { out.now.0 < to }
    ensures { OnOk result (Reaches out.old to (meant.before date.now) out.new) }
{
    match date {
        Value::Unknown => out.until(to, Value::Unknown),
        Value::Day(day) => {
            if *day < DAYS {
                turn(out, *day, to)
            } else {
                out.until(to, Value::Uncertain)
            }
        }
        _ => out.until(to, Value::Uncertain),
    }
}

/// True up to the day, and false from it on.
fn turn(out: &mut Builder<Value>, day: u32, to: u32) -> Result<(), NoMemory>
    requires in_calendar { day < DAYS }
    requires below { to ≤ DAYS }
    requires order { out.now.0 < to }
    ensures { OnOk result (Reaches out.old to (λ d. value.Bool (nat_lt d day)) out.new) }
{
    let end = if day < to { day } else { to };
    out.until(end, Value::Bool(true))?;
    out.until(to, Value::Bool(false))
}

/// Whether the day isn't before the date.
pub fn on_or_after(alloc: Global, date: &Line<Value>) -> Result<Line<Value>, NoMemory>
    ensures { IfOk result (StandsFor DAYS (λ d. meant.on_or_after (day_value date.now d) d)) }
{
    let before_it = before(alloc, date)?;
    before_it.map(alloc, |value: &Value| Ok(Value::not(value)))
}
