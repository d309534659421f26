// What waits before anything is derived, where one list is set or forgotten.
ghost use Rattle.std.specs.Prelude.{◌≡◌, IfOk, OnOk};
ghost use Rattle.opa_case.specs.Overlays.{relisted_case};
ghost use Rattle.opa_mean.specs.Reached.ByLists.{AreListsTold, IsByLists};
ghost use Rattle.opa_mean.specs.Reached.Settling.{AreReaders, IsBegun, shift};
ghost use Rattle.opa_session.specs.Readers.Indexes.{readers_in};
ghost use Rattle.opa_session.specs.Readers.Waits.{IsLiveReader, IsOwnSlot, IsSlotOfOne, IsThisSlot, WaitsBesides};
ghost use Rattle.opa_session.specs.Settlement.Tasks.{AreRanked, slots_of};
ghost use Rattle.opa_session.specs.Store.Owners.{AreOwners};

use crate::readers::index::Index;
use crate::settlement::{Reading, Tasks, mark_live, mark_one};
use crate::store::{Owners, has_slot};
use opa_case::{InstanceId, Question, Relisted};
use opa_io::NoMemory;
use opa_mean::Slot;
use opa_model::AttrId;
use opa_tree::Rulebase;
use std::alloc::Global;

/// What a list that is set or forgotten reaches at first: the slots of what comes, and by the index of the case that is held the
/// readers that stay of the lists that differ. No slot is gone through besides.
pub fn begin_list(
    alloc: Global,
    base: &Rulebase,
    owners: &Owners,
    next: &Relisted<'_>,
    index: &Index,
    told: &[Question],
) -> Result<Tasks, NoMemory>
    requires owners { AreOwners base.now owners.now }
    requires lists { IsByLists (shift base.now next.now.case.now (relisted_case next.now)) }
    requires readers { AreReaders base.now next.now.case.now (readers_in index.now) }
    requires told { AreListsTold (shift base.now next.now.case.now (relisted_case next.now)) told.now }
    ensures begun { IfOk result (λ tasks. IsBegun (shift base.now next.now.case.now (relisted_case next.now))
        (slots_of tasks)) }
    ensures ranked { IfOk result (AreRanked base.now) }
{
    let came = next.came();
    let mut tasks = Tasks::new(alloc);
    mark_came(alloc, base, owners, came, &mut tasks)?;
    mark_told(alloc, base, next, index, told, &mut tasks)?;
    Ok(tasks)
}

/// The slots of what comes wait besides.
fn mark_came(
    alloc: Global,
    base: &Rulebase,
    owners: &Owners,
    came: &[(InstanceId, InstanceId)],
    tasks: &mut Tasks,
) -> Result<(), NoMemory>
    requires { AreOwners base.now owners.now }
    ensures { OnOk result (WaitsBesides base.now (IsSlotOfOne base.now came.now) tasks.old tasks.new) }
{
    for (inst, _) in came {
        mark_slots_of(alloc, base, owners, inst, tasks)?;
    }
    Ok(())
}

/// The slots of an instance wait besides, by the attributes of its entity.
fn mark_slots_of(
    alloc: Global,
    base: &Rulebase,
    owners: &Owners,
    inst: &InstanceId,
    tasks: &mut Tasks,
) -> Result<(), NoMemory>
    requires { AreOwners base.now owners.now }
    ensures { OnOk result (WaitsBesides base.now (IsOwnSlot base.now inst.now) tasks.old tasks.new) }
{
    let attrs = owners.attributes(inst.entity.0);
    for attr in attrs {
        mark_slot(alloc, base, *attr, inst, tasks)?;
    }
    Ok(())
}

/// The attribute at the instance waits besides, where that is a slot.
fn mark_slot(
    alloc: Global,
    base: &Rulebase,
    attr: AttrId,
    inst: &InstanceId,
    tasks: &mut Tasks,
) -> Result<(), NoMemory>
    ensures { OnOk result (WaitsBesides base.now (IsThisSlot base.now attr inst.now) tasks.old tasks.new) }
{
    let has = has_slot(base, attr, inst);
    if has {
        let inst = inst.copy(alloc)?;
        let slot = Slot { attr, inst };
        mark_one(alloc, base, &slot, tasks)?;
        Ok(())
    } else {
        Ok(())
    }
}

/// The readers of some questions wait besides, where they stay.
fn mark_told(
    alloc: Global,
    base: &Rulebase,
    next: &Relisted<'_>,
    index: &Index,
    told: &[Question],
    tasks: &mut Tasks,
) -> Result<(), NoMemory>
    ensures { OnOk result (WaitsBesides base.now (IsLiveReader (relisted_case next.now) (readers_in index.now) told.now) tasks.old tasks.new) }
{
    for question in told {
        let reading = index.of(question);
        mark_live(alloc, base, next, reading, tasks)?;
    }
    Ok(())
}
