// All findings, in their order.
ghost use Rattle.std.specs.Prelude.{◌≡◌, ◌++◌, flat_map, IfOk, OnOk};
ghost use Rattle.opa_rules.specs.Reviewing.Compared.{compared_in};
ghost use Rattle.opa_rules.specs.Reviewing.Findings as meant;
ghost use Rattle.opa_rules.specs.Reviewing.Rows.{of_rule};

use crate::reviewing::alike::push_alike;
use crate::reviewing::attributes::{push_settled, push_unused};
use crate::reviewing::endings::push_endings;
use crate::reviewing::finding::Finding;
use crate::reviewing::judging::push_compared;
use crate::reviewing::roundings::push_roundings;
use crate::reviewing::rows::push_rule;
use opa_io::{List, NoMemory};
use opa_tree::{Rule, Rulebase};
use std::alloc::Global;

/// The rows that are never reached, rule by rule.
fn unreached_rows(alloc: Global, rules: &[Rule]) -> Result<List<Finding>, NoMemory>
    ensures { IfOk result (λ fs. fs ≡ flat_map of_rule rules.now) }
{
    let mut findings = List::new(alloc);
    for rule in rules {
        push_rule(alloc, &mut findings, rule)?;
    }
    Ok(findings)
}

/// Adds what is found of comparisons, rule by rule.
fn push_all_compared(
    alloc: Global,
    findings: &mut List<Finding>,
    base: &Rulebase,
    rules: &[Rule],
) -> Result<(), NoMemory>
    ensures { OnOk result (findings.new ≡ findings.old ++ flat_map (compared_in base.now) rules.now) }
{
    for rule in rules {
        push_compared(alloc, findings, base, rule)?;
    }
    Ok(())
}

/// What is so in every case.
fn warnings(alloc: Global, base: &Rulebase) -> Result<List<Finding>, NoMemory>
    ensures { IfOk result (λ fs. fs ≡ meant.warnings base.now) }
{
    let mut findings = unreached_rows(alloc, base.rules.as_slice())?;
    push_all_compared(alloc, &mut findings, base, base.rules.as_slice())?;
    push_unused(alloc, &mut findings, base)?;
    push_settled(alloc, &mut findings, base)?;
    Ok(findings)
}

/// Adds what is only worth a look.
fn push_notes(alloc: Global, findings: &mut List<Finding>, base: &Rulebase) -> Result<(), NoMemory>
    ensures { OnOk result (findings.new ≡ findings.old ++ meant.notes base.now) }
{
    push_alike(findings, &base.model)?;
    push_roundings(alloc, findings, base)?;
    push_endings(findings, base.rules.as_slice())
}

/// All that is worth a look.
pub(crate) fn findings(alloc: Global, base: &Rulebase) -> Result<List<Finding>, NoMemory>
    ensures { IfOk result (λ fs. fs ≡ meant.findings base.now) }
{
    let mut findings = warnings(alloc, base)?;
    push_notes(alloc, &mut findings, base)?;
    Ok(findings)
}
