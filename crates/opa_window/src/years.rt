// Whole years since a date.
ghost use Rattle.std.specs.Prelude.{◌≡◌, ◌<◌, ◌≤◌, ◌+◌, min, Some, IfOk, OnOk};
ghost use Rattle.opa_date.specs.declared.TheConstants.{DAYS};
ghost use Rattle.opa_date.specs.Moves.{IsYearsBetween, years_between as years_from, years_later};
ghost use Rattle.opa_line.specs.Lines.{StandsFor};
ghost use Rattle.opa_window.specs.Days.{day_value};
ghost use Rattle.opa_window.specs.Stretches.{Reaches};
ghost use Rattle.opa_window.specs.Windows as meant;

use crate::numbers::whole;
use crate::stretches::start_of;
use opa_date::{DAYS, add_years, years_between};
use opa_io::NoMemory;
use opa_line::{Builder, Line};
use opa_value::Value;
use std::alloc::Global;

/// The whole years from the date to the day.
pub fn years_since(alloc: Global, date: &Line<Value>) -> Result<Line<Value>, NoMemory>
    ensures { IfOk result (StandsFor DAYS (λ d. meant.years_since (day_value date.now d) d)) }
{
    let mut out = Builder::new(alloc);
    let mut rest = date.segments();
    while let [p, after @ ..] = rest {
        let to = start_of(after);
        years_from_date(&mut out, &p.1, p.0, to)?;
        rest = after;
    }
    Ok(out.finish())
}

fn years_from_date(
    out: &mut Builder<Value>,
    date: &Value,
    from: u32,
    to: u32,
) -> Result<(), NoMemory>
    requires begins { out.now.0 ≡ from }
    requires order { from < to }
    requires below { to ≤ DAYS }
    ensures { OnOk result (Reaches out.old to (meant.years_since date.now) out.new) }
{
    match date {
        Value::Unknown => out.until(to, Value::Unknown),
        Value::Day(day) => {
            if *day < DAYS {
                years_from_day(out, *day, from, to)
            } else {
                out.until(to, Value::Uncertain)
            }
        }
        _ => out.until(to, Value::Uncertain),
    }
}

fn years_from_day(out: &mut Builder<Value>, day: u32, from: u32, to: u32) -> Result<(), NoMemory>
    requires in_calendar { day < DAYS }
    requires begins { out.now.0 ≡ from }
    requires order { from < to }
    requires below { to ≤ DAYS }
    ensures { OnOk result (Reaches out.old to (λ d. meant.years_value (years_from day d)) out.new) }
{
    match years_between(day, from) {
        Some(years) => count_on(out, day, years, from, to),
        None => wait(out, day, to),
    }
}

/// Uncertain before the day, and the years from it on.
fn wait(out: &mut Builder<Value>, day: u32, to: u32) -> Result<(), NoMemory>
    requires in_calendar { day < DAYS }
    requires begins { out.now.0 < day }
    requires order { out.now.0 < to }
    requires below { to ≤ DAYS }
    ensures { OnOk result (Reaches out.old to (λ d. meant.years_value (years_from day d)) out.new) }
{
    if to <= day {
        out.until(to, Value::Uncertain)
    } else {
        out.until(day, Value::Uncertain)?;
        count_on(out, day, 0, day, to)
    }
}

/// The years from a day that has so many, anniversary by anniversary.
fn count_on(
    out: &mut Builder<Value>,
    day: u32,
    reached: u32,
    from: u32,
    to: u32,
) -> Result<(), NoMemory>
    requires in_calendar { day < DAYS }
    requires begins { out.now.0 ≡ from }
    requires later { day ≤ from }
    requires years { IsYearsBetween day from reached }
    requires order { from < to }
    requires below { to ≤ DAYS }
    ensures { OnOk result (Reaches out.old to (λ d. meant.years_value (years_from day d)) out.new) }
{
    let mut years = reached;
    let mut next = next_anniversary(day, years);
    while next < to {
        out.until(next, whole(years))?;
        years += 1;
        next = next_anniversary(day, years);
    }
    out.until(to, whole(years))
}

/// The day on which one more year has passed, or the calendar's end.
fn next_anniversary(day: u32, years: u32) -> u32
    requires in_calendar { day < DAYS }
    requires few { years ≤ 800 }
    ensures { result ≡ min (years_later day (years + 1)) DAYS }
{
    add_years(day, i64::from(years + 1)).unwrap_or(DAYS)
}
