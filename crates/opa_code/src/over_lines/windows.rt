// Functions over time, by the lines of their operands.
ghost use Rattle.std.specs.Prelude.{◌≤◌, ◌∷◌, [], List, IfOk, map};
ghost use Rattle.opa_cells.specs.declared.instance.InstanceId.{InstanceId as Instance};
ghost use Rattle.opa_date.specs.declared.TheConstants.{DAYS};
ghost use Rattle.opa_line.specs.Lines.{StandsFor};
ghost use Rattle.opa_window.specs.Days.{day_value};
ghost use Rattle.opa_mean.specs.Meaning as meant;
ghost use Rattle.opa_code.specs.OverLines.Lines.{meaning_of};

use crate::over_lines::operand::Operand;
use opa_io::NoMemory;
use opa_line::Line;
use opa_tree::WinKind;
use opa_value::Value;
use opa_window::{
    before, interval_always, interval_max, interval_min, interval_run, interval_sometimes,
    interval_sum, on_or_after, rolling_always, rolling_sometimes, value_at, years_since,
};
use std::alloc::Global;

/// A function over time.
pub fn window_line(
    alloc: Global,
    kind: WinKind,
    operands: &[Operand<'_>],
) -> Result<Line<Value>, NoMemory>
    ensures { IfOk result (λ l. (enclosing : List Instance) →
        StandsFor DAYS (meant.window kind (map meaning_of operands.now) enclosing) l) }
{
    match operands {
        [date] => dated_line(alloc, kind, date.line()),
        [date, x] => at_line(alloc, kind, date.line(), x.line()),
        [start, end, x] => between_line(alloc, kind, start.line(), end.line(), x.line()),
        _ => Line::constant(alloc, Value::Uncertain),
    }
}

/// A function of one date.
fn dated_line(alloc: Global, kind: WinKind, date: &Line<Value>) -> Result<Line<Value>, NoMemory>
    ensures { IfOk result (λ l. (enclosing : List Instance) → StandsFor DAYS (meant.window kind (meaning_of date.now ∷ []) enclosing) l) }
{
    match kind {
        WinKind::Before => before(alloc, date),
        WinKind::OnOrAfter => on_or_after(alloc, date),
        WinKind::YearsSince => years_since(alloc, date),
        WinKind::ValueAt
        | WinKind::Always
        | WinKind::Sometimes
        | WinKind::DailySum
        | WinKind::Maximum
        | WinKind::Minimum
        | WinKind::ConsecutiveDays => Line::constant(alloc, Value::Uncertain),
    }
}

/// A function of a date and of what is looked at on it.
fn at_line(
    alloc: Global,
    kind: WinKind,
    date: &Line<Value>,
    x: &Line<Value>,
) -> Result<Line<Value>, NoMemory>
    ensures { IfOk result (λ l. (enclosing : List Instance) → StandsFor DAYS (meant.window kind (meaning_of date.now ∷ meaning_of x.now ∷ []) enclosing) l) }
{
    match kind {
        WinKind::ValueAt => value_at(alloc, date, x),
        WinKind::Before
        | WinKind::OnOrAfter
        | WinKind::YearsSince
        | WinKind::Always
        | WinKind::Sometimes
        | WinKind::DailySum
        | WinKind::Maximum
        | WinKind::Minimum
        | WinKind::ConsecutiveDays => Line::constant(alloc, Value::Uncertain),
    }
}

/// A function of two dates and of what is looked at between them.
fn between_line(
    alloc: Global,
    kind: WinKind,
    start: &Line<Value>,
    end: &Line<Value>,
    x: &Line<Value>,
) -> Result<Line<Value>, NoMemory>
    ensures { IfOk result (λ l. (enclosing : List Instance) → StandsFor DAYS (meant.window kind (meaning_of start.now ∷ meaning_of end.now ∷ meaning_of x.now ∷ []) enclosing) l) }
{
    match kind {
        WinKind::Always => interval_always(alloc, start, end, x),
        WinKind::Sometimes => interval_sometimes(alloc, start, end, x),
        WinKind::DailySum => interval_sum(alloc, start, end, x),
        WinKind::Maximum => interval_max(alloc, start, end, x),
        WinKind::Minimum => interval_min(alloc, start, end, x),
        WinKind::ConsecutiveDays => interval_run(alloc, start, end, x),
        WinKind::Before | WinKind::OnOrAfter | WinKind::YearsSince | WinKind::ValueAt => {
            Line::constant(alloc, Value::Uncertain)
        }
    }
}

/// All, or any, over the last days.
pub fn rolling_line(
    alloc: Global,
    always: bool,
    days: u32,
    x: &Line<Value>,
) -> Result<Line<Value>, NoMemory>
    ensures { IfOk result (StandsFor DAYS (meant.rolling always days (day_value x.now))) }
{
    if days == 0 {
        return Line::constant(alloc, Value::Bool(always));
    }
    if always {
        rolling_always(alloc, days, x)
    } else {
        rolling_sometimes(alloc, days, x)
    }
}
