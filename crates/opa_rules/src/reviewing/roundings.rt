// Currencies that are computed and rounded, and that further ones are concluded from.
ghost use Rattle.std.specs.Prelude.{◌≡◌, ◌++◌, ◌||◌, flat_map, IfOk, OnOk};
ghost use Rattle.std.specs.List.{list_any};
ghost use Rattle.opa_tree.specs.Mentions.{is_attr};
ghost use Rattle.opa_rules.specs.Reviewing.Roundings as meant;

use crate::reviewing::finding::{Finding, RoundedCurrency};
use crate::reviewing::operations::multiplies;
use opa_io::{List, NoMemory};
use opa_model::{AttrId, Kind, Model};
use opa_tree::{Rule, Rulebase, mentions};
use std::alloc::Global;

fn is_currency(kind: Kind) -> bool
    ensures { result ≡ meant.is_currency kind }
{
    match kind {
        Kind::Currency => true,
        Kind::Bool | Kind::Number | Kind::Words | Kind::Date => false,
    }
}

/// Whether an attribute is a currency; one that isn't declared is none.
#[tactic(auto, using(std::proofs::lemmas::Option::slice_get_past))]
fn is_currency_of(model: &Model, attr: AttrId) -> bool
    ensures { result ≡ meant.is_currency_of model.now attr }
{
    if attr.0 < model.attribute_count() {
        is_currency(model.attribute(attr).kind)
    } else {
        false
    }
}

fn is_found(found: bool, attr: AttrId, goal: AttrId) -> bool
    ensures { result ≡ (found || is_attr attr goal) }
{
    found || attr.0 == goal.0
}

fn is_goal(model: &Model, attr: AttrId) -> bool
    ensures { result ≡ meant.is_goal model.now attr }
{
    let mut found = false;
    for n in 0..model.goal_count() {
        found = is_found(found, attr, model.goal(n));
    }
    found
}

fn is_among(attrs: &[AttrId], attr: AttrId) -> bool
    ensures { result ≡ list_any (is_attr attr) attrs.now }
{
    attrs.contains(&attr)
}

fn push_all(attrs: &mut List<AttrId>, more: &[AttrId]) -> Result<(), NoMemory>
    ensures { OnOk result (attrs.new ≡ attrs.old ++ more.now) }
{
    for attr in more {
        attrs.push(*attr)?;
    }
    Ok(())
}

/// Adds what the rule of a currency mentions.
fn push_used(
    alloc: Global,
    attrs: &mut List<AttrId>,
    model: &Model,
    rule: &Rule,
) -> Result<(), NoMemory>
    ensures { OnOk result (attrs.new ≡ attrs.old ++ meant.used_by model.now rule.now) }
{
    if !is_currency_of(model, rule.attr) {
        return Ok(());
    }
    let mentioned = mentions(alloc, &rule.expr)?;
    push_all(attrs, mentioned.as_slice())
}

/// What the rules of currencies mention.
fn used(alloc: Global, model: &Model, rules: &[Rule]) -> Result<List<AttrId>, NoMemory>
    ensures { IfOk result (λ attrs. attrs ≡ flat_map (meant.used_by model.now) rules.now) }
{
    let mut attrs = List::new(alloc);
    for rule in rules {
        push_used(alloc, &mut attrs, model, rule)?;
    }
    Ok(attrs)
}

/// Whether an attribute is a currency that is no goal, and is among these.
fn is_between(model: &Model, attrs: &[AttrId], attr: AttrId) -> bool
    ensures { result ≡ meant.is_between model.now attrs.now attr }
{
    is_currency_of(model, attr) && !is_goal(model, attr) && is_among(attrs, attr)
}

/// Whether the rule of such a one multiplies or divides.
fn is_rounded(alloc: Global, model: &Model, attrs: &[AttrId], rule: &Rule) -> Result<bool, NoMemory>
    ensures { IfOk result (λ b. b ≡ meant.is_rounded model.now attrs.now rule.now) }
{
    if is_between(model, attrs, rule.attr) {
        multiplies(alloc, &rule.expr)
    } else {
        Ok(false)
    }
}

fn push_rounding(
    alloc: Global,
    findings: &mut List<Finding>,
    model: &Model,
    attrs: &[AttrId],
    rule: &Rule,
) -> Result<(), NoMemory>
    ensures { OnOk result (findings.new ≡ findings.old ++ meant.rounding_of model.now attrs.now rule.now) }
{
    if !is_rounded(alloc, model, attrs, rule)? {
        return Ok(());
    }
    findings.push(Finding::Rounding(RoundedCurrency {
        attr: rule.attr,
        file: rule.file,
        line: rule.line,
    }))
}

fn push_each(
    alloc: Global,
    findings: &mut List<Finding>,
    model: &Model,
    attrs: &[AttrId],
    rules: &[Rule],
) -> Result<(), NoMemory>
    ensures { OnOk result (findings.new ≡ findings.old ++ flat_map (meant.rounding_of model.now attrs.now) rules.now) }
{
    for rule in rules {
        push_rounding(alloc, findings, model, attrs, rule)?;
    }
    Ok(())
}

/// Adds the currencies that others are concluded from.
pub(crate) fn push_roundings(
    alloc: Global,
    findings: &mut List<Finding>,
    base: &Rulebase,
) -> Result<(), NoMemory>
    ensures { OnOk result (findings.new ≡ findings.old ++ meant.roundings base.now) }
{
    let attrs = used(alloc, &base.model, base.rules.as_slice())?;
    push_each(
        alloc,
        findings,
        &base.model,
        attrs.as_slice(),
        base.rules.as_slice(),
    )
}
