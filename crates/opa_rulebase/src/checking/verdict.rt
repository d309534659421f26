// The check of rules.
ghost use Rattle.std.specs.Prelude.{ℕ, ◌≡◌, ◌<◌, List as Seq, [], ◌∷◌, not, is_some, length, map, position, unwrap_or, slice_get, Some, None, All, MatchOption, IfOk, IfErr};
ghost use Rattle.opa_model.specs.declared.ids.AttrId.{AttrId as AttrView};
ghost use Rattle.opa_model.specs.Models.{HasAttribute};
ghost use Rattle.opa_tree.specs.declared.faults.RbError.TheVariants.{Refused};
ghost use Rattle.opa_tree.specs.declared.faults.RbFault.{RbFault as FaultView};
ghost use Rattle.opa_tree.specs.Accepted.{AreSound};
ghost use Rattle.opa_tree.specs.Ranks.{AreRanks};
ghost use Rattle.opa_rulebase.specs.Checking.Circles.{HasCircle, IsLeastLeft};
ghost use Rattle.opa_rulebase.specs.Checking.Refused.{IsRefused};
ghost use Rattle.opa_rulebase.specs.Checking.Settled.{AreSettled, IsOpen};

use crate::checking::circle::circle;
use crate::checking::faults::first_rule_fault;
use crate::checking::ranks::all_ranks;
use crate::checking::uses::uses_of;
use opa_io::{List, NoMemory, front};
use opa_model::{AttrId, Model};
use opa_tree::{Ranks, RbError, RbFault, RbKind, Rules};
use std::alloc::Global;

/// The first attribute without a rank.
fn first_open(ranks: &[Option<u32>]) -> Option<usize>
    ensures { result ≡ position (λ r. not (is_some r)) ranks.now }
{
    ranks.iter().position(|rank| rank.is_none())
}

/// The ranks, where each is found.
fn found_ranks(alloc: Global, ranks: &[Option<u32>]) -> Result<Ranks, NoMemory>
    ensures { IfOk result (λ found. found ≡ map (λ r. unwrap_or r 0) ranks.now) }
{
    let mut found = List::new(alloc);
    for rank in ranks {
        found.push(rank.unwrap_or(0))?;
    }
    Ok(found)
}

/// The first attribute of a walk.
fn head(walk: &[AttrId]) -> Option<AttrId>
    ensures { MatchOption result (walk.now ≡ []) (λ a. (more : Seq AttrView) × (walk.now ≡ a ∷ more)) }
{
    match front(walk) {
        Some((first, _)) => Some(*first),
        None => None,
    }
}

/// The circle that the least attribute without a rank leads to, at the line of the rule of its first attribute.
fn circle_fault(
    alloc: Global,
    rules: &Rules,
    uses: &[Option<List<AttrId>>],
    ranks: &[Option<u32>],
    start: AttrId,
) -> Result<RbFault, NoMemory>
    requires settled { AreSettled rules.now uses.now ranks.now }
    requires is_open { IsOpen ranks.now start }
    requires least { IsLeastLeft rules.now start }
    ensures { IfOk result (HasCircle rules.now) }
{
    let cycle = circle(alloc, rules.as_slice(), uses, ranks, start)?;
    match head(cycle.as_slice()) {
        None => unreachable!(),
        Some(first) => match rules.of(first) {
            None => unreachable!(),
            Some(rule) => Ok(RbFault {
                file: rule.file,
                line: rule.line,
                kind: RbKind::Cycle,
                cycle,
            }),
        },
    }
}

/// The ranks of the rules, or the first of their faults: what no enclosing instance reaches, a kind that isn't allowed, a
/// second rule for one attribute, and where there is none of these, a circle.
pub fn check(alloc: Global, model: &Model, rules: &Rules) -> Result<Ranks, RbError>
    requires declared { All (λ r. HasAttribute model.now r.attr) rules.now }
    ensures sound { IfOk result (λ _. AreSound model.now rules.now) }
    ensures ranks { IfOk result (λ ranks. AreRanks (length model.now.attributes) rules.now ranks) }
    ensures refused { IfErr result (λ e. (fault : FaultView) → e ≡ Refused fault →
        IsRefused model.now rules.now fault) }
{
    if let Some(fault) = first_rule_fault(alloc, model, rules.as_slice())? {
        return Err(RbError::Refused(fault));
    }
    let uses = uses_of(alloc, model.attribute_count(), rules.as_slice())?;
    let ranking = all_ranks(alloc, &uses)?;
    match first_open(&ranking.ranks) {
        None => Ok(found_ranks(alloc, &ranking.ranks)?),
        Some(place) => {
            let start = AttrId(place as u32);
            let fault = circle_fault(alloc, rules, &uses, &ranking.ranks, start)?;
            Err(RbError::Refused(fault))
        }
    }
}
