// How many values are false, true, unknown and uncertain, and the sum of the numbers.
ghost use Rattle.std.specs.Prelude.{◌≡◌, ◌^◌, ◌*◌, pos, ◌+ℤ◌, ◌-ℤ◌};
ghost use Rattle.opa_value.specs.Truth as truth;
ghost use Rattle.opa_code.specs.OverLines.Tallies as tallies;
ghost use Rattle.opa_code.specs.OverLines.Sweeps as sweeps;

use crate::over_lines::gathering::Gathering;
use crate::over_lines::sums::{count_of, ten_thousands};
use crate::over_lines::tally::Tally;
use opa_mean::number_of;
use opa_value::Value;

/// A true value counts for ten thousand, as the number 1 does.
#[derive(Clone, Copy, Debug)]
pub struct Counts {
    pub falses: i128,
    pub trues: i128,
    pub unknowns: i128,
    pub uncertains: i128,
    pub total: i128,
}

impl Counts {
    /// Of one value.
    pub fn one(value: &Value) -> Counts
        ensures value { result ≡ sweeps.counts_of value.now }
        ensures within { sweeps.AreWithin (10 ^ 17) result }
    {
        Counts {
            falses: one_if(is_false(value)),
            trues: ten_thousand_if(is_true(value)),
            unknowns: one_if(is_unknown(value)),
            uncertains: one_if(is_uncertain(value)),
            total: count_of(value),
        }
    }

    /// What a tally tells of its values: of those that are false, unknown or uncertain only whether there is one.
    pub fn of_tally(tally: &Tally) -> Counts
        requires { tallies.AreSmall tally.now.sums }
        ensures { result ≡ sweeps.counts_in tally.now }
    {
        Counts {
            falses: one_if(tally.marks.some_false),
            trues: ten_thousands(tally.sums.trues),
            unknowns: one_if(tally.marks.unknown),
            uncertains: one_if(tally.marks.uncertain),
            total: tally.sums.total,
        }
    }

    pub fn plus(&self, more: &Counts) -> Counts
        requires first { sweeps.AreWithin (2 ^ 125) self.now }
        requires second { sweeps.AreWithin (2 ^ 125) more.now }
        ensures { sweeps.IsSum self.now more.now result }
    {
        Counts {
            falses: plus(self.falses, more.falses),
            trues: plus(self.trues, more.trues),
            unknowns: plus(self.unknowns, more.unknowns),
            uncertains: plus(self.uncertains, more.uncertains),
            total: plus(self.total, more.total),
        }
    }

    pub fn minus(&self, less: &Counts) -> Counts
        requires first { sweeps.AreWithin (2 ^ 125) self.now }
        requires second { sweeps.AreWithin (2 ^ 125) less.now }
        ensures { sweeps.IsDifference self.now less.now result }
    {
        Counts {
            falses: minus(self.falses, less.falses),
            trues: minus(self.trues, less.trues),
            unknowns: minus(self.unknowns, less.unknowns),
            uncertains: minus(self.uncertains, less.uncertains),
            total: minus(self.total, less.total),
        }
    }

    /// What is gathered from the values. The best isn't told by counts.
    pub fn told(&self, gathering: Gathering) -> Value
        ensures { result ≡ sweeps.counted gathering self.now }
    {
        match gathering {
            Gathering::All if is_some(self.falses) => Value::Bool(false),
            Gathering::All => self.unless_open(Value::Bool(true)),
            Gathering::Any if is_some(self.trues) => Value::Bool(true),
            Gathering::Any => self.unless_open(Value::Bool(false)),
            Gathering::Open => self.unless_open(Value::Uncertain),
            Gathering::CountIf => self.unless_open(number_of(self.trues)),
            Gathering::Sum => self.unless_open(number_of(self.total)),
            Gathering::Best(_) => self.unless_open(Value::Uncertain),
        }
    }

    fn unless_open(&self, other: Value) -> Value
        ensures { result ≡ sweeps.unless_counted self.now other }
    {
        if is_some(self.unknowns) {
            Value::Unknown
        } else if is_some(self.uncertains) {
            Value::Uncertain
        } else {
            other
        }
    }
}

fn is_some(count: i128) -> bool
    ensures { result ≡ sweeps.is_some count }
{
    0 < count
}

fn is_false(value: &Value) -> bool
    ensures { result ≡ truth.is_false value.now }
{
    matches!(value, Value::Bool(false))
}

fn is_true(value: &Value) -> bool
    ensures { result ≡ truth.is_true value.now }
{
    matches!(value, Value::Bool(true))
}

fn is_unknown(value: &Value) -> bool
    ensures { result ≡ truth.is_unknown value.now }
{
    matches!(value, Value::Unknown)
}

fn is_uncertain(value: &Value) -> bool
    ensures { result ≡ truth.is_uncertain value.now }
{
    matches!(value, Value::Uncertain)
}

fn one_if(holds: bool) -> i128
    ensures value { result ≡ sweeps.many_if 1 holds }
    ensures within { sweeps.IsWithin (10 ^ 17) result }
{
    if holds { 1 } else { 0 }
}

fn ten_thousand_if(holds: bool) -> i128
    ensures value { result ≡ sweeps.many_if 10000 holds }
    ensures within { sweeps.IsWithin (10 ^ 17) result }
{
    if holds { 10_000 } else { 0 }
}

fn plus(a: i128, b: i128) -> i128
    requires first { sweeps.IsWithin (2 ^ 125) a }
    requires second { sweeps.IsWithin (2 ^ 125) b }
    ensures { result ≡ a +ℤ b }
{
    a + b
}

fn minus(a: i128, b: i128) -> i128
    requires first { sweeps.IsWithin (2 ^ 125) a }
    requires second { sweeps.IsWithin (2 ^ 125) b }
    ensures { result ≡ a -ℤ b }
{
    a - b
}
