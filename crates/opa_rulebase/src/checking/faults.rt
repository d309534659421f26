// The faults of rules, but for circles.
ghost use Rattle.std.specs.Prelude.{ℕ, ◌≡◌, ◌<◌, List as Seq, [], ◌∷◌, ◌++◌, flat_map, length, is_some, All, IfOk};
ghost use Rattle.opa_tree.specs.declared.faults.RbKind.TheVariants.{Twice};
ghost use Rattle.opa_tree.specs.declared.rules.Rule.{Rule as RuleView};
ghost use Rattle.opa_tree.specs.Rules.{rule_of};
ghost use Rattle.opa_model.specs.Models.{HasAttribute};
ghost use Rattle.opa_tree.specs.FirstFaults.{first_fault};
ghost use Rattle.opa_tree.specs.Laws.{AreDeclared};
ghost use Rattle.opa_rulebase.specs.Checking.Faults.{fault_at, own_faults, second_faults, rule_faults, when, AreMarks, unless as unless_holds};

use crate::checking::kinds::has_its_kind;
use crate::checking::scopes::rule_is_reached;
use opa_io::{List, NoMemory, front};
use opa_model::Model;
use opa_tree::{RbFault, RbKind, Rule, first_of};
use std::alloc::Global;

/// A fault of a rule, at its line.
fn fault_at(alloc: Global, kind: RbKind, rule: &Rule) -> RbFault
    ensures { result ≡ fault_at kind rule.now }
{
    RbFault {
        file: rule.file,
        line: rule.line,
        kind,
        cycle: List::new(alloc),
    }
}

/// What a rule speaks of that isn't reached, else a kind that isn't allowed.
fn own_fault(alloc: Global, model: &Model, rule: &Rule) -> Result<Option<RbFault>, NoMemory>
    ensures { IfOk result (λ fault. fault ≡ first_fault (own_faults model.now rule.now)) }
{
    let is_reached = rule_is_reached(alloc, model, rule)?;
    let has_its_kind = has_its_kind(alloc, model, rule)?;
    Ok(first_of(
        unless(alloc, is_reached, RbKind::Scope, rule),
        unless(alloc, has_its_kind, RbKind::Kind, rule),
    ))
}

/// A fault of a rule, unless the test holds.
fn unless(alloc: Global, test: bool, kind: RbKind, rule: &Rule) -> Option<RbFault>
    ensures { result ≡ first_fault (unless_holds test (fault_at kind rule.now)) }
{
    if test {
        None
    } else {
        Some(fault_at(alloc, kind, rule))
    }
}

/// The first of the faults that rules have by themselves.
#[tactic(auto, using(opa_tree::proofs::FirstFaultLaws::first_faults))]
fn own_first(alloc: Global, model: &Model, rules: &[Rule]) -> Result<Option<RbFault>, NoMemory>
    ensures { IfOk result (λ fault. fault ≡ first_fault (flat_map (own_faults model.now) rules.now)) }
{
    let mut first = None;
    let mut rest = rules;
    while let Some((rule, later)) = front(rest) {
        first = first_of(first, own_fault(alloc, model, rule)?);
        rest = later;
    }
    Ok(first)
}

/// No attribute is concluded.
fn none_concluded(alloc: Global, count: u32) -> Result<Vec<bool>, NoMemory>
    ensures { IfOk result (λ marks. AreMarks count [] marks.items) }
{
    let mut marks = Vec::new(alloc);
    for _ in 0..count {
        marks.push(false)?;
    }
    Ok(marks)
}

/// Whether an earlier rule concludes the attribute of this one, which is marked.
fn is_second(marks: &mut Vec<bool>, rule: &Rule) -> bool
    requires declared { rule.now.attr.0 < length marks.old.items }
    ensures second { (count : ℕ) (before : Seq RuleView) → AreMarks count before marks.old.items → result ≡ is_some (rule_of before rule.now.attr) }
    ensures marked { (count : ℕ) (before : Seq RuleView) → AreMarks count before marks.old.items → AreMarks count (before ++ rule.now ∷ []) marks.new.items }
{
    let place = rule.attr.0 as usize;
    let was = marks[place];
    marks[place] = true;
    was
}

/// The fault of a rule whose attribute an earlier one concludes.
fn second_fault(alloc: Global, is_second: bool, rule: &Rule) -> Option<RbFault>
    ensures { result ≡ first_fault (when is_second (fault_at Twice rule.now)) }
{
    if is_second {
        Some(fault_at(alloc, RbKind::Twice, rule))
    } else {
        None
    }
}

/// The first rule whose attribute an earlier one concludes.
fn second_first(alloc: Global, count: u32, rules: &[Rule]) -> Result<Option<RbFault>, NoMemory>
    requires declared { AreDeclared count rules.now }
    ensures { IfOk result (λ fault. fault ≡ first_fault (second_faults [] rules.now)) }
{
    let mut marks = none_concluded(alloc, count)?;
    let mut first = None;
    for rule in rules {
        let is_second = is_second(&mut marks, rule);
        first = first_of(first, second_fault(alloc, is_second, rule));
    }
    Ok(first)
}

/// The first fault of the rules, but for circles.
pub fn first_rule_fault(
    alloc: Global,
    model: &Model,
    rules: &[Rule],
) -> Result<Option<RbFault>, NoMemory>
    requires declared { All (λ r. HasAttribute model.now r.attr) rules.now }
    ensures { IfOk result (λ fault. fault ≡ first_fault (rule_faults model.now rules.now)) }
{
    let own = own_first(alloc, model, rules)?;
    let second = second_first(alloc, model.attribute_count(), rules)?;
    Ok(first_of(own, second))
}
