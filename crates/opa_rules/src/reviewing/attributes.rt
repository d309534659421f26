// Attributes that no goal looks at, and goals that no answer changes.
ghost use Rattle.std.specs.Prelude.{◌≡◌, ◌++◌, flat_map, length, OnOk};
ghost use Rattle.std.specs.Option.{option_copied};
ghost use Rattle.opa_model.specs.Models.{HasAttribute};
ghost use Rattle.opa_tree.specs.Levels.{attributes};
ghost use Rattle.opa_rules.specs.Reviewing.Looking as meant;
ghost use Rattle.opa_rules.specs.Reviewing.Marks.{AreSeen, AreSettled};

use crate::reviewing::finding::{Finding, SettledGoal, UnusedAttribute};
use crate::reviewing::looking::{goals_of, seen_table};
use crate::reviewing::marks::is_marked;
use crate::reviewing::settling::settled_table;
use opa_io::{List, NoMemory};
use opa_model::AttrId;
use opa_tree::{Rule, Rulebase};
use std::alloc::Global;

/// An attribute that no goal looks at, at its rule.
fn unused_by(attr: AttrId, rule: Option<&Rule>) -> UnusedAttribute
    ensures { result ≡ meant.unused_by attr (option_copied rule.entry) }
{
    match rule {
        None => UnusedAttribute {
            attr,
            file: 0,
            line: 0,
        },
        Some(rule) => UnusedAttribute {
            attr,
            file: rule.file,
            line: rule.line,
        },
    }
}

/// Adds an attribute, if no goal looks at it.
fn push_unseen(
    findings: &mut List<Finding>,
    base: &Rulebase,
    seen: &[bool],
    attr: AttrId,
) -> Result<(), NoMemory>
    requires seen { AreSeen base.now seen.now }
    requires declared { HasAttribute base.now.model attr }
    ensures { OnOk result (findings.new ≡ findings.old ++ meant.unused_at base.now attr) }
{
    if is_marked(seen, attr) {
        return Ok(());
    }
    findings.push(Finding::Unused(unused_by(attr, base.rules.of(attr))))
}

/// Adds the attributes that no goal looks at, by a table of what goals look at.
fn push_all_unseen(
    findings: &mut List<Finding>,
    base: &Rulebase,
    seen: &[bool],
) -> Result<(), NoMemory>
    requires { AreSeen base.now seen.now }
    ensures { OnOk result (findings.new ≡ findings.old ++ flat_map (meant.unused_at base.now) (attributes (length base.now.model.attributes))) }
{
    for number in 0..base.model.attribute_count() {
        push_unseen(findings, base, seen, AttrId(number))?;
    }
    Ok(())
}

/// Adds the attributes that no goal looks at. Where there is no goal, it adds nothing.
pub(crate) fn push_unused(
    alloc: Global,
    findings: &mut List<Finding>,
    base: &Rulebase,
) -> Result<(), NoMemory>
    ensures { OnOk result (findings.new ≡ findings.old ++ meant.unused base.now) }
{
    if base.model.goal_count() == 0 {
        return Ok(());
    }
    let seen = seen_table(alloc, base)?;
    push_all_unseen(findings, base, seen.as_slice())
}

/// Adds a settled goal, at its rule.
fn push_settled_goal(
    findings: &mut List<Finding>,
    goal: AttrId,
    rule: Option<&Rule>,
) -> Result<(), NoMemory>
    ensures { OnOk result (findings.new ≡ findings.old ++ meant.settled_by goal (option_copied rule.entry)) }
{
    match rule {
        None => Ok(()),
        Some(rule) => findings.push(Finding::Settled(SettledGoal {
            attr: goal,
            file: rule.file,
            line: rule.line,
        })),
    }
}

/// Adds a goal, if it is settled.
fn push_goal(
    findings: &mut List<Finding>,
    base: &Rulebase,
    marks: &[bool],
    goal: AttrId,
) -> Result<(), NoMemory>
    requires { AreSettled base.now marks.now }
    ensures { OnOk result (findings.new ≡ findings.old ++ meant.settled_at base.now goal) }
{
    if is_marked(marks, goal) {
        return push_settled_goal(findings, goal, base.rules.of(goal));
    }
    Ok(())
}

/// Adds those goals that are settled, by a table of what is settled.
fn push_goals(
    findings: &mut List<Finding>,
    base: &Rulebase,
    marks: &[bool],
    goals: &[AttrId],
) -> Result<(), NoMemory>
    requires { AreSettled base.now marks.now }
    ensures { OnOk result (findings.new ≡ findings.old ++ flat_map (meant.settled_at base.now) goals.now) }
{
    for goal in goals {
        push_goal(findings, base, marks, *goal)?;
    }
    Ok(())
}

/// Adds the goals that no answer changes.
pub(crate) fn push_settled(
    alloc: Global,
    findings: &mut List<Finding>,
    base: &Rulebase,
) -> Result<(), NoMemory>
    ensures { OnOk result (findings.new ≡ findings.old ++ meant.settled base.now) }
{
    let marks = settled_table(alloc, base)?;
    let goals = goals_of(alloc, &base.model)?;
    push_goals(findings, base, marks.as_slice(), goals.as_slice())
}
