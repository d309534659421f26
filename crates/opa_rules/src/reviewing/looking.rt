// Which attributes goals look at.
ghost use Rattle.std.specs.Prelude.{◌≡◌, ◌+◌, ◌<◌, ℕ, [], false, All, length, replicate, IfOk, OnOk};
ghost use Rattle.opa_tree.specs.Levels.{levels as levels_by};
ghost use Rattle.opa_tree.specs.Ranks.{rank_at};
ghost use Rattle.opa_rules.specs.Reviewing.Marks.{passed_on, AddsMarks, AreSeen, AreSpread};

use crate::reviewing::marks::{is_marked, mark_all, no_marks};
use opa_io::{List, NoMemory};
use opa_model::{AttrId, Model};
use opa_tree::{Rulebase, levels_of, mentions};
use std::alloc::Global;

/// The goals, in their order.
pub(crate) fn goals_of(alloc: Global, model: &Model) -> Result<List<AttrId>, NoMemory>
    ensures { IfOk result (λ goals. goals ≡ model.now.goals) }
{
    let mut goals = List::new(alloc);
    for number in 0..model.goal_count() {
        goals.push(model.goal(number))?;
    }
    Ok(goals)
}

/// Marks what the rule of an attribute mentions, if the attribute is marked.
fn pass_on(
    alloc: Global,
    base: &Rulebase,
    attr: AttrId,
    marks: &mut Vec<bool>,
) -> Result<(), NoMemory>
    ensures { OnOk result (AddsMarks marks.old.items (passed_on base.now marks.old.items attr) marks.new.items) }
{
    let attrs = passed(alloc, base, attr, marks.as_slice())?;
    mark_all(marks, attrs.as_slice());
    Ok(())
}

/// What the rule of a marked attribute mentions.
fn passed(
    alloc: Global,
    base: &Rulebase,
    attr: AttrId,
    marks: &[bool],
) -> Result<List<AttrId>, NoMemory>
    ensures { IfOk result (λ attrs. attrs ≡ passed_on base.now marks.now attr) }
{
    if !is_marked(marks, attr) {
        return Ok(List::new(alloc));
    }
    match base.rules.of(attr) {
        None => Ok(List::new(alloc)),
        Some(rule) => mentions(alloc, &rule.expr),
    }
}

/// The same of the attributes of one rank.
fn pass_on_level(
    alloc: Global,
    base: &Rulebase,
    level: &[AttrId],
    marks: &mut Vec<bool>,
) -> Result<(), NoMemory>
    ensures { OnOk result ((n : ℕ) → All (λ a. rank_at base.now.ranks a + 1 ≡ n) level.now → AreSpread base.now n [] marks.old.items → AreSpread base.now n level.now marks.new.items) }
{
    for attr in level {
        pass_on(alloc, base, *attr, marks)?;
    }
    Ok(())
}

/// The same of the level at a place, where those of higher ranks passed on theirs.
fn pass_on_from(
    alloc: Global,
    base: &Rulebase,
    levels: &[List<AttrId>],
    place: usize,
    marks: &mut Vec<bool>,
) -> Result<(), NoMemory>
    requires within { place < length levels.now }
    requires are { levels.now ≡ levels_by base.now.ranks (length base.now.model.attributes) }
    ensures { OnOk result (AreSpread base.now (place + 1) [] marks.old.items → AreSpread base.now place [] marks.new.items) }
{
    let level = &levels[place];
    pass_on_level(alloc, base, level.as_slice(), marks)?;
    Ok(())
}

/// The same of all levels, from the highest rank down.
fn pass_on_all(
    alloc: Global,
    base: &Rulebase,
    levels: &[List<AttrId>],
    marks: &mut Vec<bool>,
) -> Result<(), NoMemory>
    requires { levels.now ≡ levels_by base.now.ranks (length base.now.model.attributes) }
    ensures { OnOk result (AreSpread base.now (length levels.now) [] marks.old.items → AreSpread base.now 0 [] marks.new.items) }
{
    for done in 0..levels.len() {
        pass_on_from(alloc, base, levels, levels.len() - 1 - done, marks)?;
    }
    Ok(())
}

/// The goals alone are marked.
fn marked_goals(alloc: Global, model: &Model) -> Result<Vec<bool>, NoMemory>
    ensures { IfOk result (λ marks. AddsMarks (replicate (length model.now.attributes) false) model.now.goals marks.items) }
{
    let goals = goals_of(alloc, model)?;
    let mut marks = no_marks(alloc, model.attribute_count())?;
    mark_all(&mut marks, goals.as_slice());
    Ok(marks)
}

/// Whether a goal looks at each attribute, in declared order. A rule mentions attributes of lower rank, so that one pass
/// from the highest rank down is enough.
pub(crate) fn seen_table(alloc: Global, base: &Rulebase) -> Result<List<bool>, NoMemory>
    ensures { IfOk result (AreSeen base.now) }
{
    let count = base.model.attribute_count();
    let levels = levels_of(alloc, base.ranks.as_slice(), count)?;
    let mut marks = marked_goals(alloc, &base.model)?;
    pass_on_all(alloc, base, levels.as_slice(), &mut marks)?;
    Ok(List::from_vec(marks))
}
