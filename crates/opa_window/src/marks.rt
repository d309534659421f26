// What a value may be marked as.
ghost use Rattle.std.specs.Prelude.{◌≡◌};
ghost use Rattle.opa_window.specs.Marks as meant;
ghost use Rattle.std.specs.List.{list_any};
ghost use Rattle.opa_window.specs.Runs.{AreLong, shown, spread};
ghost use Rattle.opa_window.specs.Tables as tables;

use opa_value::Value;

/// The values that the truth tables look for.
#[derive(Clone, Copy, Debug, PartialEq, Eq)]
pub(crate) enum Mark {
    False,
    True,
    Unknown,
    Uncertain,
}

pub(crate) fn has_mark(mark: Mark, value: &Value) -> bool
    ensures { result ≡ meant.has_mark mark value.now }
{
    match mark {
        Mark::False => matches!(value, Value::Bool(false)),
        Mark::True => matches!(value, Value::Bool(true)),
        Mark::Unknown => matches!(value, Value::Unknown),
        Mark::Uncertain => matches!(value, Value::Uncertain),
    }
}

/// The mark of a truth value.
pub(crate) fn mark_of(decided: bool) -> Mark
    ensures { result ≡ tables.mark_of decided }
{
    if decided { Mark::True } else { Mark::False }
}

/// Whether a value with the mark stands on one of the runs' days.
pub(crate) fn occurs(mark: Mark, runs: &[(u32, &Value)]) -> bool
    requires { AreLong (shown runs.now) }
    ensures { result ≡ list_any (meant.has_mark mark) (spread (shown runs.now)) }
{
    let mut rest = runs;
    while let [run, after @ ..] = rest {
        if has_mark(mark, run.1) {
            return true;
        }
        rest = after;
    }
    false
}
