// The sum of the values of runs, and their longest run of true days.
ghost use Rattle.std.specs.Prelude.{◌≡◌, ◌≤◌, ◌<◌, ◌+◌, ◌*◌, ◌^◌, ◌≤ℤ◌, ◌*ℤ◌, ◌+ℤ◌, neg_ℤ, pos, if◌then◌else◌};
ghost use Rattle.opa_value.specs.Truth.{is_true as is_true_of};
ghost use Rattle.opa_window.specs.Folds as meant;
ghost use Rattle.opa_window.specs.Runs.{AreLong, day_count, shown, spread};

use opa_value::Value;

/// The whole sum of the counts of all days.
pub(crate) fn total(runs: &[(u32, &Value)]) -> i128
    requires { day_count (shown runs.now) < 2 ^ 32 }
    ensures { result ≡ meant.total (spread (shown runs.now)) }
{
    let mut sum = 0i128;
    let mut rest = runs;
    while let [run, after @ ..] = rest {
        sum = plus(sum, times(run.0, count_of(run.1)));
        rest = after;
    }
    sum
}

/// The count as often as there are days.
fn times(days: u32, count: i64) -> i128
    ensures value { result ≡ pos days *ℤ count }
    ensures low { neg_ℤ (pos (days * 2 ^ 63)) ≤ℤ result }
    ensures high { result ≤ℤ pos (days * 2 ^ 63) }
{
    product(days, count)
}

fn product(days: u32, count: i64) -> i128
    ensures { result ≡ pos days *ℤ count }
{
    i128::from(days) * i128::from(count)
}

fn plus(a: i128, b: i128) -> i128
    requires a_low { neg_ℤ (pos (2 ^ 96)) ≤ℤ a }
    requires a_high { a ≤ℤ pos (2 ^ 96) }
    requires b_low { neg_ℤ (pos (2 ^ 96)) ≤ℤ b }
    requires b_high { b ≤ℤ pos (2 ^ 96) }
    ensures { result ≡ a +ℤ b }
{
    a + b
}

fn count_of(value: &Value) -> i64
    ensures { result ≡ meant.count_of value.now }
{
    match value {
        Value::Num(number) => number.count(),
        _ => 0,
    }
}

/// How many days the longest run of true days has.
pub(crate) fn longest(runs: &[(u32, &Value)]) -> u32
    requires long { AreLong (shown runs.now) }
    requires few { day_count (shown runs.now) < 2 ^ 32 }
    ensures { result ≡ meant.longest (spread (shown runs.now)) }
{
    let mut most = 0;
    let mut current = 0;
    let mut rest = runs;
    while let [run, after @ ..] = rest {
        current = true_days(current, run.0, run.1);
        most = most.max(current);
        rest = after;
    }
    most
}

/// How many true days there are up to the end of a run.
fn true_days(before: u32, days: u32, value: &Value) -> u32
    requires { before + days < 2 ^ 32 }
    ensures { result ≡ (if is_true_of value.now then before + days else 0) }
{
    if matches!(value, Value::Bool(true)) {
        before + days
    } else {
        0
    }
}
