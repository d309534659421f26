// What is made of the values of a window, from its runs.
ghost use Rattle.std.specs.Prelude.{◌≡◌, ◌<◌, ◌^◌, IfOk};
ghost use Rattle.opa_value.specs.Truth.{unless_open as unless_open_of};
ghost use Rattle.opa_window.specs.Folds as meant;
ghost use Rattle.opa_window.specs.Runs.{AreLong, day_count, shown, spread};
ghost use Rattle.opa_window.specs.Tables.{table_of};

use crate::extremes::best;
use crate::marks::{Mark, mark_of, occurs};
use crate::numbers::{number_of, whole};
use crate::sums::{longest, total};
use opa_io::NoMemory;
use opa_value::Value;
use std::alloc::Global;

/// What an interval function makes of the values of its window.
#[derive(Clone, Copy, Debug, PartialEq, Eq)]
pub(crate) enum Fold {
    All,
    Any,
    Sum,
    Greatest,
    Least,
    Run,
}

/// What is made of the values of the runs' days.
pub(crate) fn folded(alloc: Global, fold: Fold, runs: &[(u32, &Value)]) -> Result<Value, NoMemory>
    requires long { AreLong (shown runs.now) }
    requires few { day_count (shown runs.now) < 2 ^ 32 }
    ensures { IfOk result (λ v. v ≡ meant.fold_of fold (spread (shown runs.now))) }
{
    match fold {
        Fold::All => Ok(table(runs, false)),
        Fold::Any => Ok(table(runs, true)),
        Fold::Sum => Ok(unless_open(runs, number_of(total(runs)))),
        Fold::Greatest => Ok(unless_open(runs, best(alloc, true, runs)?)),
        Fold::Least => Ok(unless_open(runs, best(alloc, false, runs)?)),
        Fold::Run => Ok(unless_open(runs, whole(longest(runs)))),
    }
}

/// All of the values where `decided` is false, and any of them where it is true.
fn table(runs: &[(u32, &Value)], decided: bool) -> Value
    requires { AreLong (shown runs.now) }
    ensures { result ≡ table_of decided (spread (shown runs.now)) }
{
    if occurs(mark_of(decided), runs) {
        Value::Bool(decided)
    } else {
        unless_open(runs, Value::Bool(!decided))
    }
}

fn unless_open(runs: &[(u32, &Value)], other: Value) -> Value
    requires { AreLong (shown runs.now) }
    ensures { result ≡ unless_open_of (spread (shown runs.now)) other }
{
    if occurs(Mark::Unknown, runs) {
        Value::Unknown
    } else if occurs(Mark::Uncertain, runs) {
        Value::Uncertain
    } else {
        other
    }
}
