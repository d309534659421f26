// Lines from pairs.
ghost use Rattle.std.specs.Prelude.{◌≡◌, ◌<◌, ℕ, None, Err, IsNone, IfSome, IfOk, MatchResult};
ghost use Rattle.opa_line.specs.Lines.{at};
ghost use Rattle.opa_line.specs.Pairs.{fault_of, rises_from, all_below};
ghost use Rattle.opa_line.specs.declared.pairs.LineFault.TheVariants as faults;

use crate::{Builder, Line};
use opa_date::DAYS;
use opa_io::{NoMemory, Same};
use std::alloc::Global;
use std::mem;
use thiserror::Error;

/// Why pairs are no line: there is none, the first day isn't 0, a day isn't above its predecessor, a day is past the
/// calendar, or there was no memory.
#[derive(Clone, Copy, Debug, PartialEq, Eq, Error)]
pub enum LineFault {
    #[error("no pair")]
    Empty,
    #[error("the first day isn't the calendar's first")]
    FirstDay,
    #[error("a day isn't above its predecessor")]
    Order,
    #[error("a day is past the calendar")]
    Range,
    #[error("out of memory")]
    NoMemory,
}

impl<T: Same + Drop> Line<T> {
    /// The line with these values from these days on; equal neighbours are merged.
    pub fn from_pairs(alloc: Global, pairs: Vec<(u32, T)>) -> Result<Line<T>, LineFault>
        ensures faulty { IfSome (fault_of pairs.items) (λ fault. result ≡ Err fault) }
        ensures line { IsNone (fault_of pairs.items) →
            MatchResult result (λ l. (d : ℕ) → d < DAYS → at l d ≡ at pairs.items d)
            (λ fault. fault ≡ faults.NoMemory) }
    {
        match first_fault(&pairs) {
            Some(fault) => Err(fault),
            None => merged(alloc, pairs).map_err(|_| LineFault::NoMemory),
        }
    }
}

/// The line of pairs that have no fault.
fn merged<T: Same + Drop>(alloc: Global, pairs: Vec<(u32, T)>) -> Result<Line<T>, NoMemory>
    requires { fault_of pairs.items ≡ None }
    ensures { IfOk result (λ l. (d : ℕ) → d < DAYS → at l d ≡ at pairs.items d) }
{
    let mut out = Builder::new(alloc);
    let mut rest = pairs.into_iter();
    let Some(first) = rest.next() else {
        unreachable!()
    };
    let (_, mut value) = first;
    for (day, next) in rest {
        let before = mem::replace(&mut value, next);
        out.until(day, before)?;
    }
    out.until(DAYS, value)?;
    Ok(out.finish())
}

/// The first of the four faults, if there is one.
fn first_fault<T>(pairs: &[(u32, T)]) -> Option<LineFault>
    ensures { result ≡ fault_of pairs.now }
{
    match pairs {
        [] => Some(LineFault::Empty),
        [first, rest @ ..] => {
            if first.0 == 0 {
                if rises_from(first.0, rest) {
                    if all_below(pairs) {
                        None
                    } else {
                        Some(LineFault::Range)
                    }
                } else {
                    Some(LineFault::Order)
                }
            } else {
                Some(LineFault::FirstDay)
            }
        }
    }
}

fn rises_from<T>(from: u32, pairs: &[(u32, T)]) -> bool
    ensures { result ≡ rises_from from pairs.now }
{
    let mut day = from;
    let mut rest = pairs;
    while let [p, after @ ..] = rest {
        if day < p.0 {
            day = p.0;
            rest = after;
        } else {
            return false;
        }
    }
    true
}

fn all_below<T>(pairs: &[(u32, T)]) -> bool
    ensures { result ≡ all_below DAYS pairs.now }
{
    let mut rest = pairs;
    while let [p, after @ ..] = rest {
        if p.0 < DAYS {
            rest = after;
        } else {
            return false;
        }
    }
    true
}
