// The tally of several values.
ghost use Rattle.std.specs.Prelude.{◌≡◌, [], Bool, IfOk};
ghost use Rattle.opa_code.specs.OverLines.Tallies as tallies;

use crate::over_lines::gathering::Gathering;
use crate::over_lines::marks::Marks;
use crate::over_lines::peaks::Peaks;
use crate::over_lines::sums::{Sums, amount};
use opa_io::NoMemory;
use opa_mean::number_of;
use opa_value::Value;
use std::alloc::Global;

/// All that is gathered from values can be told from their tally and the first of them, and the tallies of two lists of
/// values make that of both.
#[derive(Clone, Copy, Debug)]
pub struct Tally {
    pub marks: Marks,
    pub sums: Sums,
    pub peaks: Peaks,
}

impl Tally {
    /// Of no value.
    pub fn none() -> Tally
        ensures { (most : Bool) → tallies.IsTally most [] result }
    {
        Tally {
            marks: Marks::none(),
            sums: Sums::none(),
            peaks: Peaks::none(),
        }
    }

    /// Of one value.
    pub fn one(value: &Value) -> Tally
        ensures { tallies.IsOne value.now result }
    {
        Tally {
            marks: Marks::one(value),
            sums: Sums::one(value),
            peaks: Peaks::one(value),
        }
    }

    /// Of the values of two tallies.
    pub fn both(most: bool, first: &Tally, second: &Tally) -> Tally
        requires first { tallies.AreSmall first.now.sums }
        requires second { tallies.AreSmall second.now.sums }
        ensures { tallies.IsBoth most first.now second.now result }
    {
        Tally {
            marks: Marks::both(&first.marks, &second.marks),
            sums: Sums::both(&first.sums, &second.sums),
            peaks: Peaks::both(most, &first.peaks, &second.peaks),
        }
    }

    /// What is gathered, where this is the first value.
    pub fn told(
        &self,
        alloc: Global,
        gathering: Gathering,
        first: &Value,
    ) -> Result<Value, NoMemory>
        ensures { IfOk result (λ v. v ≡ tallies.told gathering self.now first.now) }
    {
        match gathering {
            Gathering::All if self.marks.some_false => Ok(Value::Bool(false)),
            Gathering::All => Ok(self.marks.unless_open(Value::Bool(true))),
            Gathering::Any if self.marks.some_true => Ok(Value::Bool(true)),
            Gathering::Any => Ok(self.marks.unless_open(Value::Bool(false))),
            Gathering::Open => Ok(self.marks.unless_open(Value::Uncertain)),
            Gathering::CountIf => Ok(self.marks.unless_open(amount(self.sums.trues))),
            Gathering::Sum => Ok(self.marks.unless_open(number_of(self.sums.total))),
            Gathering::Best(_) => Ok(self.marks.unless_open(self.peaks.told(alloc, first)?)),
        }
    }
}
