// What the rule of each attribute mentions.
ghost use Rattle.std.specs.Prelude.{ℕ, ◌<◌, List as Seq, [], ◌∷◌, ◌++◌, length, IfOk, OnOk};
ghost use Rattle.opa_tree.specs.declared.rules.Rule.{Rule as RuleView};
ghost use Rattle.opa_tree.specs.Laws.{AreDeclared};
ghost use Rattle.opa_rulebase.specs.Checking.Found.{AreUses};

use opa_io::{List, NoMemory};
use opa_model::AttrId;
use opa_tree::{Rule, mentions};
use std::alloc::Global;

/// What the rule of each attribute mentions, in declared order; none where it has no rule.
pub type Uses = Vec<Option<List<AttrId>>>;

/// No attribute has a rule.
fn without_rules(alloc: Global, count: u32) -> Result<Uses, NoMemory>
    ensures { IfOk result (λ uses. AreUses count [] uses.items) }
{
    let mut uses = Vec::new(alloc);
    for _ in 0..count {
        uses.push(None)?;
    }
    Ok(uses)
}

/// Where two rules conclude one attribute, the first counts.
fn add_rule(alloc: Global, uses: &mut Uses, rule: &Rule) -> Result<(), NoMemory>
    requires declared { rule.now.attr.0 < length uses.old.items }
    ensures { OnOk result ((count : ℕ) (before : Seq RuleView) → AreUses count before uses.old.items → AreUses count (before ++ rule.now ∷ []) uses.new.items) }
{
    let place = rule.attr.0 as usize;
    if uses[place].is_none() {
        uses[place] = Some(mentions(alloc, &rule.expr)?);
    }
    Ok(())
}

pub fn uses_of(alloc: Global, count: u32, rules: &[Rule]) -> Result<Uses, NoMemory>
    requires declared { AreDeclared count rules.now }
    ensures { IfOk result (λ uses. AreUses count rules.now uses.items) }
{
    let mut uses = without_rules(alloc, count)?;
    for rule in rules {
        add_rule(alloc, &mut uses, rule)?;
    }
    Ok(uses)
}
