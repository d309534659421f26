// Which attributes rest on no answer.
ghost use Rattle.std.specs.Prelude.{◌≡◌, ℕ, List as Seq, [], ◌∷◌, ◌++◌, ◌==◌, ◌&&◌, length, All, IfOk, OnOk};
ghost use Rattle.std.specs.List.{list_all};
ghost use Rattle.opa_model.specs.declared.ids.AttrId.{AttrId as AttrView};
ghost use Rattle.opa_model.specs.Models.{HasAttribute};
ghost use Rattle.opa_tree.specs.Ranks.{rank_at};
ghost use Rattle.opa_tree.specs.Mentions.{mentions as mentioned_by};
ghost use Rattle.opa_tree.specs.Rules.{rule_of};
ghost use Rattle.opa_rules.specs.Describing.Ranges.{ranges as ranges_of};
ghost use Rattle.opa_rules.specs.Reviewing.Marks.{settled_by, told, AreSettled, AreSettledUpTo};

use crate::describing::ranges::ranges;
use crate::reviewing::marks::{are_marked, no_marks, put};
use opa_io::{List, NoMemory};
use opa_model::AttrId;
use opa_tree::{Expr, Rulebase, levels_of, mentions};
use std::alloc::Global;

/// Whether each attribute is settled, in declared order. A rule mentions attributes of lower rank, so that one pass in the
/// order of ranks is enough.
pub(crate) fn settled_table(alloc: Global, base: &Rulebase) -> Result<List<bool>, NoMemory>
    ensures { IfOk result (AreSettled base.now) }
{
    let count = base.model.attribute_count();
    let levels = levels_of(alloc, base.ranks.as_slice(), count)?;
    let mut marks = no_marks(alloc, count)?;
    for level in levels.as_slice() {
        settle_level(alloc, base, level.as_slice(), &mut marks)?;
    }
    Ok(List::from_vec(marks))
}

/// Tells of the attributes of a rank what those of lower ranks tell.
fn settle_level(
    alloc: Global,
    base: &Rulebase,
    level: &[AttrId],
    marks: &mut Vec<bool>,
) -> Result<(), NoMemory>
    requires declared { All (HasAttribute base.now.model) level.now }
    requires long { length marks.old.items ≡ length base.now.model.attributes }
    ensures long { length marks.new.items ≡ length base.now.model.attributes }
    ensures done { OnOk result ((rank : ℕ) → All (λ a. rank_at base.now.ranks a ≡ rank) level.now → AreSettledUpTo base.now rank [] marks.old.items → AreSettledUpTo base.now rank level.now marks.new.items) }
{
    for attr in level {
        settle(alloc, base, *attr, marks)?;
    }
    Ok(())
}

/// The same of one attribute.
fn settle(
    alloc: Global,
    base: &Rulebase,
    attr: AttrId,
    marks: &mut Vec<bool>,
) -> Result<(), NoMemory>
    requires declared { HasAttribute base.now.model attr }
    requires long { length marks.old.items ≡ length base.now.model.attributes }
    ensures long { length marks.new.items ≡ length base.now.model.attributes }
    ensures done { OnOk result ((before : Seq AttrView) → AreSettledUpTo base.now (rank_at base.now.ranks attr) before marks.old.items → AreSettledUpTo base.now (rank_at base.now.ranks attr) (before ++ attr ∷ []) marks.new.items) }
{
    let own = is_settled_by(alloc, base, attr, marks.as_slice())?;
    put(marks, attr, own);
    Ok(())
}

/// Whether the rule of an attribute goes over no list, and all that it mentions is settled by the table.
fn is_settled_by(
    alloc: Global,
    base: &Rulebase,
    attr: AttrId,
    marks: &[bool],
) -> Result<bool, NoMemory>
    ensures { IfOk result (λ own. own ≡ settled_by marks.now (rule_of base.now.rules attr)) }
{
    match base.rules.of(attr) {
        None => Ok(false),
        Some(rule) => rests_on_marks(alloc, &rule.expr, marks),
    }
}

/// Whether a tree goes over no list, and all that it mentions is marked.
fn rests_on_marks(alloc: Global, expr: &Expr, marks: &[bool]) -> Result<bool, NoMemory>
    ensures { IfOk result (λ own. own ≡ ((length (ranges_of expr.now) == 0) && list_all (told marks.now) (mentioned_by expr.now))) }
{
    let lists = ranges(alloc, expr)?;
    let attrs = mentions(alloc, expr)?;
    Ok(lists.as_slice().is_empty() && are_marked(marks, attrs.as_slice()))
}
