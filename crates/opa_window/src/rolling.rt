// All and any over the last days.
ghost use Rattle.std.specs.Prelude.{◌≡◌, ◌<◌, ◌≤◌, ◌+◌, ◌-◌, ◌||◌, cond, nat_lt, IfOk, OnOk};
ghost use Rattle.opa_date.specs.declared.TheConstants.{DAYS};
ghost use Rattle.opa_line.specs.Lines.{StandsFor};
ghost use Rattle.opa_window.specs.Days.{day_value, last_days};
ghost use Rattle.opa_window.specs.Marks.{has_mark as meant_mark, seen};
ghost use Rattle.opa_window.specs.Stretches.{Reaches};
ghost use Rattle.opa_window.specs.Tables as tables;
ghost use Rattle.opa_window.specs.Windows as meant;

use crate::marks::{Mark, has_mark, mark_of};
use crate::stretches::start_of;
use opa_io::NoMemory;
use opa_line::{Builder, Line};
use opa_value::Value;
use std::alloc::Global;

/// All of x over the days that end with the day itself, so many of them.
pub fn rolling_always(alloc: Global, days: u32, x: &Line<Value>) -> Result<Line<Value>, NoMemory>
    requires some { 0 < days }
    ensures { IfOk result (StandsFor DAYS (meant.rolling_always days (day_value x.now))) }
{
    rolling(alloc, days, x, false)
}

/// Any of x over the days that end with the day itself, so many of them.
pub fn rolling_sometimes(alloc: Global, days: u32, x: &Line<Value>) -> Result<Line<Value>, NoMemory>
    requires some { 0 < days }
    ensures { IfOk result (StandsFor DAYS (meant.rolling_sometimes days (day_value x.now))) }
{
    rolling(alloc, days, x, true)
}

/// All of x over the last days, where `decided` is false, and any of it where that is true.
fn rolling(
    alloc: Global,
    days: u32,
    x: &Line<Value>,
    decided: bool,
) -> Result<Line<Value>, NoMemory>
    requires some { 0 < days }
    ensures { IfOk result (StandsFor DAYS (λ d. tables.table_of decided (last_days days (day_value x.now) d))) }
{
    let found = recently(alloc, days, mark_of(decided), x)?;
    let unknown = recently(alloc, days, Mark::Unknown, x)?;
    let uncertain = recently(alloc, days, Mark::Uncertain, x)?;
    let open = unknown.zip(
        alloc,
        &uncertain,
        move |u: &bool, c: &bool| open_value(decided, *u, *c),
    )?;
    found.zip(
        alloc,
        &open,
        move |f: &bool, v: &Value| unless_found(alloc, decided, *f, v),
    )
}

fn open_value(decided: bool, unknown: bool, uncertain: bool) -> Result<Value, NoMemory>
    ensures { IfOk result (λ v. v ≡ tables.open_value decided unknown uncertain) }
{
    if unknown {
        Ok(Value::Unknown)
    } else if uncertain {
        Ok(Value::Uncertain)
    } else {
        Ok(Value::Bool(!decided))
    }
}

fn unless_found(alloc: Global, decided: bool, found: bool, other: &Value) -> Result<Value, NoMemory>
    ensures { IfOk result (λ v. v ≡ tables.unless_found decided found other.now) }
{
    if found {
        Ok(Value::Bool(decided))
    } else {
        other.copy(alloc)
    }
}

/// Whether a value with the mark stands on one of the last days.
fn recently(alloc: Global, days: u32, mark: Mark, x: &Line<Value>) -> Result<Line<bool>, NoMemory>
    requires some { 0 < days }
    ensures { IfOk result (StandsFor DAYS (seen days (λ d. meant_mark mark (day_value x.now d)))) }
{
    let mut out = Builder::new(alloc);
    let mut fades: u64 = 0;
    let mut rest = x.segments();
    while let [p, after @ ..] = rest {
        let to = start_of(after);
        let on = has_mark(mark, &p.1);
        fill(&mut out, fades, to, on)?;
        fades = fade(fades, to, days, on);
        rest = after;
    }
    Ok(out.finish())
}

/// The first day on which nothing before the day `to` is recent.
fn fade(fades: u64, to: u32, days: u32, on: bool) -> u64
    requires some { 0 < days }
    requires below { to ≤ DAYS }
    ensures { result ≡ cond on (to + days - 1) fades }
{
    if on {
        u64::from(to) + u64::from(days) - 1
    } else {
        fades
    }
}

/// True up to the day `to`, or where it is off, up to the day where it fades.
fn fill(out: &mut Builder<bool>, fades: u64, to: u32, on: bool) -> Result<(), NoMemory>
    requires below { to ≤ DAYS }
    requires order { out.now.0 < to }
    ensures { OnOk result (Reaches out.old to (λ d. on || nat_lt d fades) out.new) }
{
    if on {
        out.until(to, true)
    } else {
        let end = if fades < u64::from(to) {
            fades as u32
        } else {
            to
        };
        out.until(end, true)?;
        out.until(to, false)
    }
}
