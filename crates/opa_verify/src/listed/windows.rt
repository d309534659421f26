// Functions over time of lines of shades.
ghost use Rattle.std.specs.Prelude.{◌≡◌, true, IfOk};
ghost use Rattle.opa_date.specs.declared.TheConstants.{DAYS};
ghost use Rattle.opa_line.specs.Lines.{StandsFor};
ghost use Rattle.opa_window.specs.Days.{day_value};
ghost use Rattle.opa_window.specs.Windows.{in_window};
ghost use Rattle.opa_mean.specs.Spans as spans;
ghost use Rattle.opa_verify.specs.Listed.Shades.{date_shade, rolling_shade, span_shade};
ghost use Rattle.opa_verify.specs.Listed.ShadeLines.{shade_at};

use crate::listed::joins::{either_line, joined_line};
use crate::listed::parts::{Part, part_line};
use crate::listed::shade::Shade;
use opa_code::rolling_line;
use opa_io::NoMemory;
use opa_line::Line;
use opa_tree::WinKind;
use opa_value::Value;
use opa_window::{
    interval_always, interval_max, interval_min, interval_run, interval_sometimes, interval_sum,
    value_at,
};
use std::alloc::Global;

/// From the first date on and below the second, where the function has two dates.
pub fn span_shades(
    alloc: Global,
    kind: WinKind,
    start: &Line<Shade>,
    end: &Line<Shade>,
    x: &Line<Shade>,
) -> Result<Line<Shade>, NoMemory>
    ensures { IfOk result (λ l. spans.has_span kind ≡ true →
        StandsFor DAYS (λ d. span_shade (spans.span_fold kind) (shade_at x.now) (shade_at start.now d)
        (shade_at end.now d)) l) }
{
    let first = part_line(alloc, Part::Value, start)?;
    let last = part_line(alloc, Part::Value, end)?;
    let values = span_line(
        alloc,
        kind,
        &first,
        &last,
        &part_line(alloc, Part::Value, x)?,
    )?;
    let within = interval_sometimes(alloc, &first, &last, &part_line(alloc, Part::Gap, x)?)?;
    let dates = either_line(
        alloc,
        &part_line(alloc, Part::Gap, start)?,
        &part_line(alloc, Part::Gap, end)?,
    )?;
    let gaps = either_line(alloc, &dates, &within)?;
    joined_line(alloc, &values, &gaps)
}

fn span_line(
    alloc: Global,
    kind: WinKind,
    start: &Line<Value>,
    end: &Line<Value>,
    x: &Line<Value>,
) -> Result<Line<Value>, NoMemory>
    ensures { IfOk result (λ l. spans.has_span kind ≡ true → StandsFor DAYS (λ d. in_window (spans.span_fold kind) (day_value x.now) (day_value start.now d) (day_value end.now d)) l) }
{
    match kind {
        WinKind::Always => interval_always(alloc, start, end, x),
        WinKind::Sometimes => interval_sometimes(alloc, start, end, x),
        WinKind::DailySum => interval_sum(alloc, start, end, x),
        WinKind::Maximum => interval_max(alloc, start, end, x),
        WinKind::Minimum => interval_min(alloc, start, end, x),
        WinKind::ConsecutiveDays => interval_run(alloc, start, end, x),
        WinKind::Before | WinKind::OnOrAfter | WinKind::YearsSince | WinKind::ValueAt => {
            Line::constant(alloc, Value::Uncertain)
        }
    }
}

/// At a date.
pub fn date_shades(
    alloc: Global,
    date: &Line<Shade>,
    x: &Line<Shade>,
) -> Result<Line<Shade>, NoMemory>
    ensures { IfOk result (StandsFor DAYS (λ d. date_shade (shade_at x.now) (shade_at date.now d))) }
{
    let dates = part_line(alloc, Part::Value, date)?;
    let values = value_at(alloc, &dates, &part_line(alloc, Part::Value, x)?)?;
    let there = value_at(alloc, &dates, &part_line(alloc, Part::Gap, x)?)?;
    let gaps = either_line(alloc, &part_line(alloc, Part::Gap, date)?, &there)?;
    joined_line(alloc, &values, &gaps)
}

/// All, or any, over the last days.
pub fn rolling_shades(
    alloc: Global,
    always: bool,
    days: u32,
    x: &Line<Shade>,
) -> Result<Line<Shade>, NoMemory>
    ensures { IfOk result (StandsFor DAYS (rolling_shade always days (shade_at x.now))) }
{
    let values = rolling_line(alloc, always, days, &part_line(alloc, Part::Value, x)?)?;
    let gaps = rolling_line(alloc, false, days, &part_line(alloc, Part::Gap, x)?)?;
    joined_line(alloc, &values, &gaps)
}
