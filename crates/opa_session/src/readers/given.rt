// The lists and answers that differ in another case.
ghost use Rattle.std.specs.Prelude.{◌≡◌, ◌++◌, flat_map, IfOk, OnOk};
ghost use Rattle.opa_mean.specs.Rulebases.{IsOf};
ghost use Rattle.opa_session.specs.Readers.Indexes.{readers_in};
ghost use Rattle.opa_session.specs.Readers.Renewing.{answer_told, list_told, newly_told, AreAnswersTold, AreGiven};

use crate::readers::index::Index;
use crate::telling::{answer_differs, list_differs};
use opa_case::{Case, InstanceId, Question};
use opa_io::{List, NoMemory};
use opa_line::Line;
use opa_mean::{Slot, answers_differ};
use opa_model::{AttrId, RelId};
use opa_tree::Rulebase;
use opa_value::Value;
use std::alloc::Global;
use std::collections::BTreeSet;

/// The questions that no rule gives and that differ in the two cases: lists of the index, and answers of attributes without a
/// rule. None that differs and that a slot of the index reads is missing.
pub fn given_changes(
    alloc: Global,
    base: &Rulebase,
    old: &Case,
    new: &Case,
    index: &Index,
) -> Result<List<Question>, NoMemory>
    requires before { IsOf base.now old.now }
    requires after { IsOf base.now new.now }
    ensures { IfOk result (AreGiven base.now old.now new.now (readers_in index.now)) }
{
    let mut told = answers_told(alloc, base, old, new)?;
    let lists = index.lists.unordered(alloc)?;
    add_lists(alloc, old, new, lists.as_slice(), &mut told)?;
    Ok(told)
}

/// The answers that differ in the two cases. Only what is answered in one of them is gone through.
pub(crate) fn answers_told(
    alloc: Global,
    base: &Rulebase,
    old: &Case,
    new: &Case,
) -> Result<List<Question>, NoMemory>
    requires before { IsOf base.now old.now }
    requires after { IsOf base.now new.now }
    ensures { IfOk result (AreAnswersTold base.now old.now new.now) }
{
    answers_differ();
    let mut told = List::new(alloc);
    let before = old.answered(alloc)?;
    add_answers(alloc, base, old, new, before.as_slice(), &mut told)?;
    let after = new.answered(alloc)?;
    add_newly(alloc, base, old, new, after.as_slice(), &mut told)?;
    Ok(told)
}

/// Adds the answers that differ.
fn add_answers(
    alloc: Global,
    base: &Rulebase,
    old: &Case,
    new: &Case,
    cells: &[(u32, &InstanceId, &Line<Value>)],
    told: &mut List<Question>,
) -> Result<(), NoMemory>
    ensures { OnOk result (told.new ≡ told.old ++ flat_map (λ x. answer_told base.now old.now new.now (x.0, x.1.now)) cells.now) }
{
    for (number, inst, _) in cells {
        add_answer(alloc, base, old, new, AttrId(*number), inst, told)?;
    }
    Ok(())
}

/// Adds the answers that differ where nothing was answered before.
fn add_newly(
    alloc: Global,
    base: &Rulebase,
    old: &Case,
    new: &Case,
    cells: &[(u32, &InstanceId, &Line<Value>)],
    told: &mut List<Question>,
) -> Result<(), NoMemory>
    ensures { OnOk result (told.new ≡ told.old ++ flat_map (λ x. newly_told base.now old.now new.now (x.0, x.1.now)) cells.now) }
{
    for (number, inst, _) in cells {
        add_new(alloc, base, old, new, AttrId(*number), inst, told)?;
    }
    Ok(())
}

/// Adds the answer of an attribute, where nothing was answered before, it has no rule and the answer differs.
fn add_new(
    alloc: Global,
    base: &Rulebase,
    old: &Case,
    new: &Case,
    attr: AttrId,
    inst: &InstanceId,
    told: &mut List<Question>,
) -> Result<(), NoMemory>
    ensures { OnOk result (told.new ≡ told.old ++ newly_told base.now old.now new.now (attr.0, inst.now)) }
{
    if old.answer_of(attr, inst).is_some() {
        return Ok(());
    }
    add_answer(alloc, base, old, new, attr, inst, told)?;
    Ok(())
}

/// Adds the answer of an attribute, where it has no rule and the answer differs.
fn add_answer(
    alloc: Global,
    base: &Rulebase,
    old: &Case,
    new: &Case,
    attr: AttrId,
    inst: &InstanceId,
    told: &mut List<Question>,
) -> Result<(), NoMemory>
    ensures { OnOk result (told.new ≡ told.old ++ answer_told base.now old.now new.now (attr.0, inst.now)) }
{
    if base.rules.of(attr).is_some() {
        return Ok(());
    }
    let differs = answer_differs(alloc, old, new, attr, inst)?;
    if differs {
        let inst = inst.copy(alloc)?;
        told.push(Question::Attr(attr, inst))?;
        Ok(())
    } else {
        Ok(())
    }
}

/// Adds the lists that differ.
fn add_lists(
    alloc: Global,
    old: &Case,
    new: &Case,
    cells: &[(u32, &InstanceId, &BTreeSet<Slot>)],
    told: &mut List<Question>,
) -> Result<(), NoMemory>
    ensures { OnOk result (told.new ≡ told.old ++ flat_map (λ x. list_told old.now new.now (x.0, x.1.now)) cells.now) }
{
    for (number, inst, _) in cells {
        add_list(alloc, old, new, RelId(*number), inst, told)?;
    }
    Ok(())
}

/// Adds a list, where it differs.
fn add_list(
    alloc: Global,
    old: &Case,
    new: &Case,
    rel: RelId,
    inst: &InstanceId,
    told: &mut List<Question>,
) -> Result<(), NoMemory>
    ensures { OnOk result (told.new ≡ told.old ++ list_told old.now new.now (rel.0, inst.now)) }
{
    if list_differs(old, new, rel, inst) {
        let inst = inst.copy(alloc)?;
        told.push(Question::Members(rel, inst))?;
        Ok(())
    } else {
        Ok(())
    }
}
