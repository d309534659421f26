// The greatest and the least of the values of runs.
ghost use Rattle.std.specs.Prelude.{◌≡◌, IfOk, if◌then◌else◌};
ghost use Rattle.opa_window.specs.Folds as meant;
ghost use Rattle.opa_window.specs.Runs.{AreLong, shown, spread};

use opa_io::NoMemory;
use opa_value::Value;
use std::alloc::Global;

/// The greatest value where `most` is true, and the least where it is false; uncertain where there is none.
pub(crate) fn best(alloc: Global, most: bool, runs: &[(u32, &Value)]) -> Result<Value, NoMemory>
    requires { AreLong (shown runs.now) }
    ensures { IfOk result (λ v. v ≡ meant.best (meant.is_beaten_of most) (spread (shown runs.now))) }
{
    match runs {
        [] => Ok(Value::Uncertain),
        [first, rest @ ..] => best_from(most, first.1, rest).copy(alloc),
    }
}

fn best_from<'a>(most: bool, first: &'a Value, runs: &[(u32, &'a Value)]) -> &'a Value
    requires { AreLong (shown runs.now) }
    ensures { result.now ≡ meant.best_from (meant.is_beaten_of most) first.now (spread (shown runs.now)) }
{
    let mut best = first;
    let mut rest = runs;
    while let [run, after @ ..] = rest {
        best = better(most, best, run.1);
        rest = after;
    }
    best
}

fn better<'a>(most: bool, v: &'a Value, w: &'a Value) -> &'a Value
    ensures { result.now ≡ (if meant.is_beaten_of most v.now w.now then w.now else v.now) }
{
    if is_beaten(most, v, w) { w } else { v }
}

fn is_beaten(most: bool, v: &Value, w: &Value) -> bool
    ensures { result ≡ meant.is_beaten_of most v.now w.now }
{
    if most { is_less(v, w) } else { is_less(w, v) }
}

fn is_less(v: &Value, w: &Value) -> bool
    ensures { result ≡ meant.is_less v.now w.now }
{
    match (v, w) {
        (Value::Num(m), Value::Num(n)) => m.count() < n.count(),
        (Value::Day(a), Value::Day(b)) => *a < *b,
        _ => false,
    }
}
