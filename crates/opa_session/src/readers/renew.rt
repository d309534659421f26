// What a change of a list makes of the readers.
ghost use Rattle.std.specs.Prelude.{◌≡◌, [], IfOk};
ghost use Rattle.opa_case.specs.Overlays.{relisted_case};
ghost use Rattle.opa_mean.specs.Gathering.{AreThose};
ghost use Rattle.opa_mean.specs.Reached.ByLists.{AreListsTold, IsByLists};
ghost use Rattle.opa_mean.specs.Reached.Settling.{AreReaders, shift};
ghost use Rattle.opa_mean.specs.Slots as place;
ghost use Rattle.opa_session.specs.Readers.Indexes.{readers_in};
ghost use Rattle.opa_session.specs.Readers.Renewals.{IsRenewal, relisting};
ghost use Rattle.opa_session.specs.Readers.Touches.{AreRenewed, IsRenewed, reads_in};
ghost use Rattle.opa_session.specs.Settlement.Tasks.{slots_of};
ghost use Rattle.opa_session.specs.Store.Owners.{AreOwners};

use crate::readers::difference::without;
use crate::readers::index::Index;
use crate::readers::renewal::{Renewal, Renewed};
use crate::readers::touched::slots_touched;
use crate::settlement::Tasks;
use crate::store::Owners;
use opa_case::{Case, InstanceId, Question, Relisted};
use opa_io::{List, NoMemory};
use opa_mean::{Slot, gathered_over, is_slot, owner_of};
use opa_model::AttrId;
use opa_tree::Rulebase;
use std::alloc::Global;

impl Index {
    /// What a change of a list makes of the readers of the held case. Nothing is changed yet. The questions are those lists
    /// that differ.
    pub fn renewal(
        &self,
        alloc: Global,
        base: &Rulebase,
        owners: &Owners,
        held: &Case,
        next: &Relisted<'_>,
        told: &[Question],
    ) -> Result<Renewal, NoMemory>
        requires owners { AreOwners base.now owners.now }
        requires held { held.now ≡ next.now.case.now }
        requires lists { IsByLists (relisting base.now next.now) }
        requires exact { AreReaders base.now next.now.case.now (readers_in self.now) }
        requires told { AreListsTold (relisting base.now next.now) told.now }
        ensures { IfOk result (IsRenewal (relisting base.now next.now) (readers_in self.now)) }
    {
        let tasks = slots_touched(alloc, base, owners, self, next, told)?;
        let slots = renewed_each(alloc, base, held, next, tasks)?;
        Ok(Renewal { slots })
    }
}

/// Each of some slots, renewed.
fn renewed_each(
    alloc: Global,
    base: &Rulebase,
    held: &Case,
    next: &Relisted<'_>,
    tasks: Tasks,
) -> Result<List<Renewed>, NoMemory>
    ensures { IfOk result (AreRenewed (shift base.now held.now (relisted_case next.now)) (slots_of tasks) []) }
{
    let mut tasks = tasks;
    let mut all = List::new(alloc);
    while let Some(task) = tasks.take_first() {
        let slot = Slot {
            attr: task.attr,
            inst: task.inst,
        };
        let renewed = renewed_one(alloc, base, held, next, slot)?;
        all.push(renewed)?;
    }
    Ok(all)
}

fn renewed_one(
    alloc: Global,
    base: &Rulebase,
    held: &Case,
    next: &Relisted<'_>,
    slot: Slot,
) -> Result<Renewed, NoMemory>
    ensures renewed { IfOk result (IsRenewed (shift base.now held.now (relisted_case next.now))) }
    ensures slot { IfOk result (λ renewed. renewed.slot ≡ slot) }
{
    let before = reads_before(alloc, base, held, slot.attr, &slot.inst)?;
    let then = reads_then(alloc, base, next, slot.attr, &slot.inst)?;
    let more = without(alloc, then.as_slice(), before.as_slice())?;
    let lost = without(alloc, before.as_slice(), then.as_slice())?;
    Ok(Renewed { slot, more, lost })
}

fn reads_before(
    alloc: Global,
    base: &Rulebase,
    held: &Case,
    attr: AttrId,
    inst: &InstanceId,
) -> Result<List<Question>, NoMemory>
    ensures { IfOk result (λ reads. AreThose reads (reads_in base.now held.now attr inst.now)) }
{
    if is_slot(base, held, attr, inst) {
        let reads = gathered_over(alloc, base, held, attr, inst)?;
        Ok(reads)
    } else {
        Ok(List::new(alloc))
    }
}

fn reads_then(
    alloc: Global,
    base: &Rulebase,
    next: &Relisted<'_>,
    attr: AttrId,
    inst: &InstanceId,
) -> Result<List<Question>, NoMemory>
    ensures { IfOk result (λ reads. AreThose reads (reads_in base.now (relisted_case next.now) attr inst.now)) }
{
    if is_slot_then(base, next, attr, inst) {
        let reads = gathered_over(alloc, base, next, attr, inst)?;
        Ok(reads)
    } else {
        Ok(List::new(alloc))
    }
}

fn is_slot_then(base: &Rulebase, next: &Relisted<'_>, attr: AttrId, inst: &InstanceId) -> bool
    ensures { result ≡ place.is_slot base.now (relisted_case next.now) attr inst.now }
{
    next.live(inst) && inst.entity.0 == owner_of(&base.model, attr) && base.rules.of(attr).is_some()
}
