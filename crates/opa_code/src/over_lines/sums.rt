// How many values are true, and the sum of their counts.
ghost use Rattle.std.specs.Prelude.{◌≡◌, ◌∷◌, [], ◌≤ℤ◌, ◌+ℤ◌, ◌*◌, pos, neg_ℤ, ◌^◌, if◌then◌else◌};
ghost use Rattle.opa_value.specs.Truth.{is_true as is_true_of};
ghost use Rattle.opa_window.specs.Folds as folds;
ghost use Rattle.opa_mean.specs.Meaning as meant;
ghost use Rattle.opa_code.specs.OverLines.Tallies as tallies;

use opa_mean::number_of;
use opa_value::Value;

#[derive(Clone, Copy, Debug)]
pub struct Sums {
    pub trues: u64,
    pub total: i128,
}

impl Sums {
    pub fn none() -> Sums
        ensures { tallies.AreSums [] result }
    {
        Sums { trues: 0, total: 0 }
    }

    pub fn one(value: &Value) -> Sums
        ensures { tallies.AreSums (value.now ∷ []) result }
    {
        Sums {
            trues: count_true(value),
            total: count_of(value),
        }
    }

    pub fn both(first: &Sums, second: &Sums) -> Sums
        requires first { tallies.AreSmall first.now }
        requires second { tallies.AreSmall second.now }
        ensures { tallies.AreBothSums first.now second.now result }
    {
        Sums {
            trues: first.trues + second.trues,
            total: plus(first.total, second.total),
        }
    }
}

fn count_true(value: &Value) -> u64
    ensures { result ≡ (if is_true_of value.now then 1 else 0) }
{
    if matches!(value, Value::Bool(true)) {
        1
    } else {
        0
    }
}

/// A number's count, and 0 for another value.
pub(crate) fn count_of(value: &Value) -> i128
    ensures value { result ≡ folds.count_of value.now }
    ensures low { neg_ℤ (pos (10 ^ 17)) ≤ℤ result }
    ensures high { result ≤ℤ pos (10 ^ 17) }
{
    match value {
        Value::Num(number) => i128::from(number.count()),
        _ => 0,
    }
}

fn plus(a: i128, b: i128) -> i128
    requires a_low { neg_ℤ (pos (2 ^ 120)) ≤ℤ a }
    requires a_high { a ≤ℤ pos (2 ^ 120) }
    requires b_low { neg_ℤ (pos (2 ^ 120)) ≤ℤ b }
    requires b_high { b ≤ℤ pos (2 ^ 120) }
    ensures { result ≡ a +ℤ b }
{
    a + b
}

/// A number of things.
pub fn amount(count: u64) -> Value
    ensures { result ≡ meant.amount count }
{
    number_of(ten_thousands(count))
}

pub(crate) fn ten_thousands(count: u64) -> i128
    ensures { result ≡ pos (count * 10000) }
{
    (u128::from(count) * 10_000) as i128
}
