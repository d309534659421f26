// What is made of sets of days.
ghost use Rattle.std.specs.Prelude.{◌≡◌, Bool, not, ◌&&◌, ◌||◌, false, IfOk};
ghost use Rattle.std.specs.List.{list_any};
ghost use Rattle.opa_date.specs.declared.TheConstants.{DAYS};
ghost use Rattle.opa_line.specs.Lines.{StandsFor};
ghost use Rattle.opa_report.specs.DaySets.Sets.{Has, on};

use opa_io::NoMemory;
use opa_line::Line;
use std::alloc::Global;

/// No day.
pub fn nothing(alloc: Global) -> Result<Line<bool>, NoMemory>
    ensures { IfOk result (StandsFor DAYS (λ _. false)) }
{
    Line::constant(alloc, false)
}

/// The days of both.
pub fn both(alloc: Global, a: &Line<bool>, b: &Line<bool>) -> Result<Line<bool>, NoMemory>
    ensures { IfOk result (StandsFor DAYS (λ d. on a.now d && on b.now d)) }
{
    a.zip(alloc, b, |x: &bool, y: &bool| Ok(and(*x, *y)))
}

fn and(x: bool, y: bool) -> bool
    ensures { result ≡ (x && y) }
{
    x && y
}

/// The days of one of them.
pub fn either(alloc: Global, a: &Line<bool>, b: &Line<bool>) -> Result<Line<bool>, NoMemory>
    ensures { IfOk result (StandsFor DAYS (λ d. on a.now d || on b.now d)) }
{
    a.zip(alloc, b, |x: &bool, y: &bool| Ok(or(*x, *y)))
}

fn or(x: bool, y: bool) -> bool
    ensures { result ≡ (x || y) }
{
    x || y
}

/// The days of the first that the second doesn't have.
pub fn without(alloc: Global, a: &Line<bool>, b: &Line<bool>) -> Result<Line<bool>, NoMemory>
    ensures { IfOk result (StandsFor DAYS (λ d. on a.now d && not (on b.now d))) }
{
    a.zip(alloc, b, |x: &bool, y: &bool| Ok(and_not(*x, *y)))
}

fn and_not(x: bool, y: bool) -> bool
    ensures { result ≡ (x && not y) }
{
    x && !y
}

/// Whether there is a day in the set.
pub fn has_some(days: &Line<bool>) -> bool
    ensures { Has result (on days.now) }
{
    one_on(days.segments())
}

fn one_on(pairs: &[(u32, bool)]) -> bool
    ensures { result ≡ list_any (λ p. p.1) pairs.now }
{
    pairs.iter().any(|pair| pair.1)
}
