// The circle that the least attribute without a rank leads to.
ghost use Rattle.std.specs.Prelude.{ℕ, ◌≡◌, ◌<◌, [], ◌∷◌, ◌++◌, not, is_some, find, length, slice_get, true, false, Some, None, IfOk};
ghost use Rattle.opa_tree.specs.declared.faults.RbFault.{RbFault as FaultView};
ghost use Rattle.opa_rulebase.specs.Checking.Circles.{Circles, IsFirstLeft, IsLeastLeft, HasCircle, from_visit};
ghost use Rattle.opa_rulebase.specs.Checking.Found.{rank_found};
ghost use Rattle.opa_rulebase.specs.Checking.Settled.{AreSettled, IsOpen, BeginsOpen};

use crate::checking::ranks::rank_found;
use opa_io::{List, NoMemory, front};
use opa_model::AttrId;
use opa_tree::{RbFault, RbKind, Rule, Rules};
use std::alloc::Global;

/// The first of several attributes whose rank isn't found.
fn first_open(ranks: &[Option<u32>], mentioned: &[AttrId]) -> Option<AttrId>
    ensures { result ≡ find (λ b. not (is_some (rank_found ranks.now b))) mentioned.now }
{
    let mut rest = mentioned;
    while let Some((attr, later)) = front(rest) {
        if rank_found(ranks, *attr).is_none() {
            return Some(*attr);
        }
        rest = later;
    }
    None
}

/// The first mention of an attribute without a rank that has none itself. The rules are those that the ranks are of.
fn next_open(
    rules: &[Rule],
    uses: &[Option<List<AttrId>>],
    ranks: &[Option<u32>],
    at: AttrId,
) -> AttrId
    requires settled { AreSettled rules.now uses.now ranks.now }
    requires is_open { IsOpen ranks.now at }
    ensures next { IsFirstLeft rules.now at result }
    ensures is_open { IsOpen ranks.now result }
{
    match &uses[at.0 as usize] {
        Some(mentioned) => match first_open(ranks, mentioned.as_slice()) {
            Some(next) => next,
            None => unreachable!(),
        },
        None => unreachable!(),
    }
}

/// The part of a walk from the first visit of an attribute on.
fn from_visit(alloc: Global, at: AttrId, walk: &[AttrId]) -> Result<List<AttrId>, NoMemory>
    ensures { IfOk result (λ circle. circle ≡ from_visit at walk.now) }
{
    let mut rest = walk;
    while let Some((attr, later)) = front(rest) {
        if at.0 == attr.0 {
            return Ok(List::from_vec(rest.to_vec(alloc)?));
        }
        rest = later;
    }
    Ok(List::new(alloc))
}

/// None is visited.
fn unvisited(alloc: Global, count: usize) -> Result<Vec<bool>, NoMemory>
    ensures count { IfOk result (λ marks. length marks.items ≡ count) }
    ensures none { IfOk result (λ marks. (n : ℕ) → n < count → slice_get marks.items n ≡ Some false) }
{
    let mut marks = Vec::new(alloc);
    for _ in 0..count {
        marks.push(false)?;
    }
    Ok(marks)
}

/// The circle that an attribute without a rank leads to.
pub fn circle(
    alloc: Global,
    rules: &[Rule],
    uses: &[Option<List<AttrId>>],
    ranks: &[Option<u32>],
    start: AttrId,
) -> Result<List<AttrId>, NoMemory>
    requires settled { AreSettled rules.now uses.now ranks.now }
    requires is_open { IsOpen ranks.now start }
    ensures circle { IfOk result (λ circle. Circles rules.now [] start circle) }
    ensures begins { IfOk result (BeginsOpen ranks.now) }
{
    let mut visited = unvisited(alloc, ranks.len())?;
    let mut walk = List::new(alloc);
    let mut at = start;
    while !visited[at.0 as usize] {
        visited[at.0 as usize] = true;
        walk.push(at)?;
        at = next_open(rules, uses, ranks, at);
    }
    let circle = from_visit(alloc, at, walk.as_slice())?;
    Ok(circle)
}
