// What waits before anything is derived.
ghost use Rattle.std.specs.Prelude.{◌≡◌, ◌∷◌, [], false, is_some, IfOk, OnOk};
ghost use Rattle.std.specs.Option.{option_copied};
ghost use Rattle.opa_mean.specs.Reached.Settling.{AreReaders, IsBegun, shift};
ghost use Rattle.opa_mean.specs.Reached.Slots.{slots_in};
ghost use Rattle.opa_mean.specs.Rulebases.{IsOf};
ghost use Rattle.opa_session.specs.Settlement.Tasks.{AddsTask, AreRanked, Marks, slots_of};
ghost use Rattle.opa_session.specs.Store.Nexts.{case_with};
ghost use Rattle.opa_tree.specs.Ranks.{rank_at};
ghost use Rattle.opa_tree.specs.Rules.{rule_of};

use crate::settlement::task::Task;
use crate::settlement::tasks::Tasks;
use crate::store::{Answered, lines_differ};
use opa_io::NoMemory;
use opa_mean::{Readers, Slot};
use opa_model::AttrId;
use opa_tree::Rulebase;
use std::alloc::Global;
use std::collections::BTreeSet;

/// The slots wait besides.
pub fn mark(
    alloc: Global,
    base: &Rulebase,
    slots: &[Slot],
    tasks: &mut Tasks,
) -> Result<(), NoMemory>
    ensures { OnOk result (Marks base.now slots.now tasks.old tasks.new) }
{
    for slot in slots {
        mark_one(alloc, base, slot, tasks)?;
    }
    Ok(())
}

/// The slots of a set wait besides.
pub fn mark_set(
    alloc: Global,
    base: &Rulebase,
    set: Option<&BTreeSet<Slot>>,
    tasks: &mut Tasks,
) -> Result<(), NoMemory>
    ensures { OnOk result (Marks base.now (slots_in (option_copied set.entry)) tasks.old tasks.new) }
{
    match set {
        Some(slots) => {
            mark_each(alloc, base, slots, tasks)?;
            Ok(())
        }
        None => Ok(()),
    }
}

fn mark_each(
    alloc: Global,
    base: &Rulebase,
    slots: &BTreeSet<Slot>,
    tasks: &mut Tasks,
) -> Result<(), NoMemory>
    ensures { OnOk result (Marks base.now slots.now.keys tasks.old tasks.new) }
{
    for slot in slots {
        mark_one(alloc, base, slot, tasks)?;
    }
    Ok(())
}

/// One slot waits besides.
pub fn mark_one(
    alloc: Global,
    base: &Rulebase,
    slot: &Slot,
    tasks: &mut Tasks,
) -> Result<(), NoMemory>
    ensures { OnOk result (Marks base.now (slot.now ∷ []) tasks.old tasks.new) }
{
    add_slot(alloc, base, slot, tasks)?;
    Ok(())
}

fn add_slot(alloc: Global, base: &Rulebase, slot: &Slot, tasks: &mut Tasks) -> Result<(), NoMemory>
    ensures { OnOk result (AddsTask base.now slot.now tasks.old tasks.new) }
{
    tasks.add(Task {
        rank: rank_of(base, slot.attr),
        attr: slot.attr,
        inst: slot.inst.copy(alloc)?,
    })
}

fn rank_of(base: &Rulebase, attr: AttrId) -> u32
    ensures { result ≡ rank_at base.now.ranks attr }
{
    let ranks = base.ranks.as_slice();
    let place = attr.0 as usize;
    if place < ranks.len() { ranks[place] } else { 0 }
}

/// What an answer reaches at first: nothing, where it is the one before; else the readers of its line.
pub fn start_answer<R: Readers>(
    alloc: Global,
    base: &Rulebase,
    readers: &R,
    next: &Answered<'_>,
) -> Result<Tasks, NoMemory>
    requires before { IsOf base.now next.now.case.now }
    requires after { IsOf base.now (case_with next.now) }
    requires unruled { is_some (rule_of base.now.rules next.now.attr) ≡ false }
    requires readers { AreReaders base.now next.now.case.now (R.readers readers.now) }
    ensures begun { IfOk result (λ tasks. IsBegun (shift base.now next.now.case.now (case_with next.now))
        (slots_of tasks)) }
    ensures ranked { IfOk result (AreRanked base.now) }
{
    let mut tasks = Tasks::new(alloc);
    let differs = lines_differ(alloc, next.case.answer_of(next.attr, next.inst), next.line)?;
    if differs {
        let reading = readers.of_line(next.attr, next.inst);
        mark_set(alloc, base, reading, &mut tasks)?;
        Ok(tasks)
    } else {
        Ok(tasks)
    }
}
