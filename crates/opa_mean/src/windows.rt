// Functions over time, from the values of their operands.
ghost use Rattle.std.specs.Prelude.{◌≡◌, IfOk};
ghost use Rattle.opa_window.specs.Windows as meant;
ghost use Rattle.opa_mean.specs.Spans.{dated as dated_of, has_span as has_span_of, span_fold};

use crate::calendar_day::CalendarDay;
use crate::folds::{all_of, any_of, greatest, least, run, sum, unless_open};
use crate::operations::years;
use opa_date::{DAYS, years_between};
use opa_io::NoMemory;
use opa_tree::WinKind;
use opa_value::Value;
use std::alloc::Global;

/// A function of one date, at a day.
pub(crate) fn dated(kind: WinKind, date: &Value, day: CalendarDay) -> Value
    ensures { result ≡ dated_of kind date.now day }
{
    match kind {
        WinKind::Before => before(date, day),
        WinKind::OnOrAfter => on_or_after(date, day),
        WinKind::YearsSince => years_since(date, day),
        _ => Value::Uncertain,
    }
}

fn before(date: &Value, day: CalendarDay) -> Value
    ensures { result ≡ meant.before date.now day }
{
    match date {
        Value::Unknown => Value::Unknown,
        Value::Day(date) if *date < DAYS => Value::Bool(day.number() < *date),
        _ => Value::Uncertain,
    }
}

fn on_or_after(date: &Value, day: CalendarDay) -> Value
    ensures { result ≡ meant.on_or_after date.now day }
{
    match date {
        Value::Unknown => Value::Unknown,
        Value::Day(date) if *date < DAYS => Value::Bool(*date <= day.number()),
        _ => Value::Uncertain,
    }
}

fn years_since(date: &Value, day: CalendarDay) -> Value
    ensures { result ≡ meant.years_since date.now day }
{
    match date {
        Value::Unknown => Value::Unknown,
        Value::Day(date) if *date < DAYS => years(years_between(*date, day.number())),
        _ => Value::Uncertain,
    }
}

/// Whether the function has two dates and looks at the days between them.
pub(crate) fn has_span(kind: WinKind) -> bool
    ensures { result ≡ has_span_of kind }
{
    match kind {
        WinKind::Always
        | WinKind::Sometimes
        | WinKind::DailySum
        | WinKind::Maximum
        | WinKind::Minimum
        | WinKind::ConsecutiveDays => true,
        _ => false,
    }
}

/// What the function makes of the values of its window.
pub(crate) fn folded(alloc: Global, kind: WinKind, values: &[Value]) -> Result<Value, NoMemory>
    ensures { IfOk result (λ v. v ≡ span_fold kind values.now) }
{
    match kind {
        WinKind::Always => Ok(all_of(values)),
        WinKind::Sometimes => Ok(any_of(values)),
        WinKind::DailySum => Ok(unless_open(values, sum(values))),
        WinKind::Maximum => Ok(unless_open(values, greatest(alloc, values)?)),
        WinKind::Minimum => Ok(unless_open(values, least(alloc, values)?)),
        WinKind::ConsecutiveDays => Ok(unless_open(values, run(values))),
        _ => Ok(Value::Uncertain),
    }
}
