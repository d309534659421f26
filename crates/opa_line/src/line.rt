// A line: its form, its pairs and its values.
ghost use Rattle.std.specs.Prelude.{◌≡◌, ◌<◌, ◌∷◌, [], ℕ, Some, IfOk, IfSome};
ghost use Rattle.opa_line.specs.Lines.{at, IsLine, StandsFor};

use opa_date::DAYS;
use opa_io::NoMemory;
use std::alloc::Global;
use std::marker::Model;

/// The pairs of a line: one lies in the line itself, more lie in a vector.
#[derive(Debug, Drop)]
pub(crate) enum Held<T> {
    One([(u32, T); 1]),
    Many(Vec<(u32, T)>),
}

/// A value at each day of the calendar. A line of one pair takes no memory of its own.
#[derive(Debug, Drop)]
pub struct Line<T> {
    pub(crate) held: Held<T>,
}

impl<T> Model for Line<T> {
    ghost use Rattle.std.specs.Prelude.{List, ℕ};
    ghost use Rattle.std.specs.Coded.{coded_list, coded×, coded_ℕ};
    ghost use Rattle.opa_date.specs.declared.TheConstants.{DAYS};
    ghost use Rattle.opa_line.specs.Lines.{IsLine};
    ghost use Rattle.opa_line.specs.Holding.{pairs_held};

    ghost Value = { List (ℕ × T) };

    ghost coded = { coded_list (coded× coded_ℕ T.code) };

    ghost view = { λ l. pairs_held l.held };

    ghost invariant = { λ l. IsLine DAYS (pairs_held l.held) };
}

impl<T> Line<T> {
    /// The same value at every day.
    pub fn constant(alloc: Global, value: T) -> Result<Line<T>, NoMemory>
    where
        T: Drop,
        ensures pair { IfOk result (λ l. l ≡ (0, value) ∷ []) }
        ensures everywhere { IfOk result (StandsFor DAYS (λ _. value)) }
    {
        Ok(Line {
            held: Held::One([(0, value)]),
        })
    }

    /// The pairs.
    pub fn segments(&self) -> &[(u32, T)]
        ensures value { result.now ≡ self.now }
        ensures form { IsLine DAYS self.now }
    {
        match &self.held {
            Held::One(pair) => pair,
            Held::Many(pairs) => pairs.as_slice(),
        }
    }

    /// The value at every day, where the line has no change point.
    pub fn only(&self) -> Option<&T>
        ensures { IfSome result (λ v. (d : ℕ) → at self.now d ≡ Some v.now) }
    {
        match self.segments() {
            [pair] => Some(&pair.1),
            _ => None,
        }
    }

    /// The value at a day.
    pub fn at(&self, day: u32) -> &T
        requires { day < DAYS }
        ensures { at self.now day ≡ Some result.now }
    {
        let pairs = self.segments();
        if pairs.len() == 1 {
            return &pairs[0].1;
        }
        let reached = pairs.partition_point(|pair| pair.0 <= day);
        &pairs[reached - 1].1
    }
}
