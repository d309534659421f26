// The best number and the best day among values.
ghost use Rattle.std.specs.Prelude.{◌≡◌, ◌∷◌, [], pos, Bool, IfOk};
ghost use Rattle.opa_code.specs.OverLines.Tallies as tallies;

use crate::over_lines::marks::either;
use opa_io::{NoMemory, Same};
use opa_value::{Number, Value};
use std::alloc::Global;

/// The number counts only where there is one, and so does the day.
#[derive(Clone, Copy, Debug)]
pub struct Peaks {
    pub has_number: bool,
    pub number: Number,
    pub has_day: bool,
    pub day: u32,
}

impl Same for Peaks {
    fn same(&self, other: &Peaks) -> bool {
        self.has_number == other.has_number
            && self.number.count() == other.number.count()
            && self.has_day == other.has_day
            && self.day == other.day
    }
}

impl Peaks {
    pub fn none() -> Peaks
        ensures { (most : Bool) → tallies.ArePeaks most [] result }
    {
        Peaks {
            has_number: false,
            number: zero(),
            has_day: false,
            day: 0,
        }
    }

    pub fn one(value: &Value) -> Peaks
        ensures { (most : Bool) → tallies.ArePeaks most (value.now ∷ []) result }
    {
        match value {
            Value::Num(number) => Peaks {
                has_number: true,
                number: *number,
                has_day: false,
                day: 0,
            },
            Value::Day(day) => Peaks {
                has_number: false,
                number: zero(),
                has_day: true,
                day: *day,
            },
            Value::Unknown | Value::Uncertain | Value::Bool(_) | Value::Words(_) => Peaks::none(),
        }
    }

    pub fn both(most: bool, first: &Peaks, second: &Peaks) -> Peaks
        ensures { tallies.AreBothPeaks most first.now second.now result }
    {
        Peaks {
            has_number: either(first.has_number, second.has_number),
            number: better_number(most, first, second),
            has_day: either(first.has_day, second.has_day),
            day: better_day(most, first, second),
        }
    }

    /// The best of the first value's kind.
    pub fn told(&self, alloc: Global, first: &Value) -> Result<Value, NoMemory>
        ensures { IfOk result (λ v. v ≡ tallies.best_told self.now first.now) }
    {
        match first {
            Value::Num(_) if self.has_number => Ok(Value::Num(self.number)),
            Value::Day(_) if self.has_day => Ok(Value::Day(self.day)),
            Value::Num(_) | Value::Day(_) => Ok(Value::Uncertain),
            _ => first.copy(alloc),
        }
    }
}

fn zero() -> Number
    ensures { result ≡ pos 0 }
{
    let Some(number) = Number::from_count(0) else {
        unreachable!()
    };
    number
}

/// The better of the best numbers.
fn better_number(most: bool, first: &Peaks, second: &Peaks) -> Number
    ensures { result ≡ tallies.better_of (tallies.beats_number most) first.now.has_number first.now.number second.now.has_number second.now.number }
{
    if !first.has_number {
        second.number
    } else if second.has_number && beats_number(most, first.number, second.number) {
        second.number
    } else {
        first.number
    }
}

fn beats_number(most: bool, m: Number, n: Number) -> bool
    ensures { result ≡ tallies.beats_number most m n }
{
    if most {
        m.count() < n.count()
    } else {
        n.count() < m.count()
    }
}

/// The better of the best days.
fn better_day(most: bool, first: &Peaks, second: &Peaks) -> u32
    ensures { result ≡ tallies.better_of (tallies.beats_day most) first.now.has_day first.now.day second.now.has_day second.now.day }
{
    if !first.has_day {
        second.day
    } else if second.has_day && beats_day(most, first.day, second.day) {
        second.day
    } else {
        first.day
    }
}

fn beats_day(most: bool, a: u32, b: u32) -> bool
    ensures { result ≡ tallies.beats_day most a b }
{
    if most { a < b } else { b < a }
}
