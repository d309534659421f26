// What the greatest or the least of values is told from.
ghost use Rattle.std.specs.Prelude.{◌≡◌, ◌∷◌, [], Bool, IfOk};
ghost use Rattle.opa_code.specs.OverLines.Extremes as extremes;

use crate::over_lines::marks::{Marks, either};
use crate::over_lines::peaks::Peaks;
use crate::over_lines::tally::Tally;
use opa_io::{NoMemory, Same};
use opa_value::Value;
use std::alloc::Global;

/// Whether a value is unknown or uncertain, and the best number and day.
#[derive(Clone, Copy, Debug)]
pub struct Bests {
    pub unknown: bool,
    pub uncertain: bool,
    pub peaks: Peaks,
}

impl Same for Bests {
    fn same(&self, other: &Bests) -> bool {
        self.unknown == other.unknown
            && self.uncertain == other.uncertain
            && self.peaks.same(&other.peaks)
    }
}

impl Bests {
    /// Of no value.
    pub fn none() -> Bests
        ensures { (most : Bool) → extremes.AreBests most [] result }
    {
        Bests {
            unknown: false,
            uncertain: false,
            peaks: Peaks::none(),
        }
    }

    /// Of one value.
    pub fn one(value: &Value) -> Bests
        ensures { extremes.IsOneBest value.now result }
    {
        let marks = Marks::one(value);
        Bests {
            unknown: marks.unknown,
            uncertain: marks.uncertain,
            peaks: Peaks::one(value),
        }
    }

    /// Of two values.
    pub fn two(most: bool, first: &Value, second: &Value) -> Bests
        ensures { extremes.AreBests most (first.now ∷ second.now ∷ []) result }
    {
        let one = Bests::one(first);
        let other = Bests::one(second);
        Bests::both(most, &one, &other)
    }

    /// Of the values of a tally.
    pub fn of_tally(tally: &Tally) -> Bests
        ensures { result ≡ extremes.bests_in tally.now }
    {
        Bests {
            unknown: tally.marks.unknown,
            uncertain: tally.marks.uncertain,
            peaks: tally.peaks,
        }
    }

    /// Of the values of two.
    pub fn both(most: bool, first: &Bests, second: &Bests) -> Bests
        ensures { extremes.AreBothBests most first.now second.now result }
    {
        Bests {
            unknown: either(first.unknown, second.unknown),
            uncertain: either(first.uncertain, second.uncertain),
            peaks: Peaks::both(most, &first.peaks, &second.peaks),
        }
    }

    /// The best, where this is the first value.
    pub fn told(&self, alloc: Global, first: &Value) -> Result<Value, NoMemory>
        ensures { IfOk result (λ v. v ≡ extremes.told_best self.now first.now) }
    {
        if self.unknown {
            Ok(Value::Unknown)
        } else if self.uncertain {
            Ok(Value::Uncertain)
        } else {
            self.peaks.told(alloc, first)
        }
    }
}
