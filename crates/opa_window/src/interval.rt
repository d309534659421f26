// Functions of the values from one date on and below another.
ghost use Rattle.std.specs.Prelude.{◌≡◌, ◌<◌, ◌∷◌, [], IfOk};
ghost use Rattle.opa_date.specs.declared.TheConstants.{DAYS};
ghost use Rattle.opa_value.specs.Truth.{unless_open};
ghost use Rattle.opa_value.specs.declared.value.Value.TheVariants as value;
ghost use Rattle.opa_line.specs.Lines.{StandsFor};
ghost use Rattle.opa_window.specs.Days.{day_value, over_days};
ghost use Rattle.opa_window.specs.Folds.{fold_of};
ghost use Rattle.opa_window.specs.Windows as meant;

use crate::folds::{Fold, folded};
use crate::runs::runs_of;
use opa_date::DAYS;
use opa_io::NoMemory;
use opa_line::Line;
use opa_value::Value;
use std::alloc::Global;

/// All of x from the first date on and below the last.
pub fn interval_always(
    alloc: Global,
    start: &Line<Value>,
    end: &Line<Value>,
    x: &Line<Value>,
) -> Result<Line<Value>, NoMemory>
    ensures { IfOk result (StandsFor DAYS (λ d. meant.interval_always (day_value x.now) (day_value start.now d)
        (day_value end.now d))) }
{
    interval(alloc, Fold::All, start, end, x)
}

/// Any of x from the first date on and below the last.
pub fn interval_sometimes(
    alloc: Global,
    start: &Line<Value>,
    end: &Line<Value>,
    x: &Line<Value>,
) -> Result<Line<Value>, NoMemory>
    ensures { IfOk result (StandsFor DAYS (λ d. meant.interval_sometimes (day_value x.now) (day_value start.now d)
        (day_value end.now d))) }
{
    interval(alloc, Fold::Any, start, end, x)
}

/// The sum of x over the days from the first date on and below the last.
pub fn interval_sum(
    alloc: Global,
    start: &Line<Value>,
    end: &Line<Value>,
    x: &Line<Value>,
) -> Result<Line<Value>, NoMemory>
    ensures { IfOk result (StandsFor DAYS (λ d. meant.interval_sum (day_value x.now) (day_value start.now d)
        (day_value end.now d))) }
{
    interval(alloc, Fold::Sum, start, end, x)
}

/// The greatest x on the days from the first date on and below the last.
pub fn interval_max(
    alloc: Global,
    start: &Line<Value>,
    end: &Line<Value>,
    x: &Line<Value>,
) -> Result<Line<Value>, NoMemory>
    ensures { IfOk result (StandsFor DAYS (λ d. meant.interval_max (day_value x.now) (day_value start.now d)
        (day_value end.now d))) }
{
    interval(alloc, Fold::Greatest, start, end, x)
}

/// The least x on the days from the first date on and below the last.
pub fn interval_min(
    alloc: Global,
    start: &Line<Value>,
    end: &Line<Value>,
    x: &Line<Value>,
) -> Result<Line<Value>, NoMemory>
    ensures { IfOk result (StandsFor DAYS (λ d. meant.interval_min (day_value x.now) (day_value start.now d)
        (day_value end.now d))) }
{
    interval(alloc, Fold::Least, start, end, x)
}

/// How many days the longest run of true days has, from the first date on and below the last.
pub fn interval_run(
    alloc: Global,
    start: &Line<Value>,
    end: &Line<Value>,
    x: &Line<Value>,
) -> Result<Line<Value>, NoMemory>
    ensures { IfOk result (StandsFor DAYS (λ d. meant.interval_run (day_value x.now) (day_value start.now d)
        (day_value end.now d))) }
{
    interval(alloc, Fold::Run, start, end, x)
}

fn interval(
    alloc: Global,
    fold: Fold,
    start: &Line<Value>,
    end: &Line<Value>,
    x: &Line<Value>,
) -> Result<Line<Value>, NoMemory>
    ensures { IfOk result (StandsFor DAYS (λ d. meant.in_window (fold_of fold) (day_value x.now) (day_value start.now d) (day_value end.now d))) }
{
    start.zip(
        alloc,
        end,
        move |s: &Value, t: &Value| window(alloc, fold, s, t, x),
    )
}

fn window(
    alloc: Global,
    fold: Fold,
    start: &Value,
    end: &Value,
    x: &Line<Value>,
) -> Result<Value, NoMemory>
    ensures { IfOk result (λ v. v ≡ meant.in_window (fold_of fold) (day_value x.now) start.now end.now) }
{
    match (start, end) {
        (Value::Day(s), Value::Day(t)) => {
            if *s < DAYS && *t < DAYS {
                between(alloc, fold, *s, *t, x)
            } else {
                Ok(Value::Uncertain)
            }
        }
        _ => Ok(open_of(start, end)),
    }
}

/// What two dates give that aren't both days.
fn open_of(start: &Value, end: &Value) -> Value
    ensures { result ≡ unless_open (start.now ∷ end.now ∷ []) value.Uncertain }
{
    match (start, end) {
        (Value::Unknown, _) | (_, Value::Unknown) => Value::Unknown,
        _ => Value::Uncertain,
    }
}

fn between(
    alloc: Global,
    fold: Fold,
    from: u32,
    to: u32,
    x: &Line<Value>,
) -> Result<Value, NoMemory>
    ensures { IfOk result (λ v. v ≡ fold_of fold (over_days (day_value x.now) from to)) }
{
    if from < to {
        let runs = runs_of(alloc, x.segments(), from, to)?;
        folded(alloc, fold, &runs)
    } else {
        folded(alloc, fold, &[])
    }
}
