// The slots whose reads a change of a list may change.
ghost use Rattle.std.specs.Prelude.{◌≡◌, ◌++◌, map, IfOk, OnOk};
ghost use Rattle.opa_case.specs.Overlays.{relisted_case};
ghost use Rattle.opa_mean.specs.Reached.Slots.{pairs_of};
ghost use Rattle.opa_session.specs.Readers.Indexes.{readers_in};
ghost use Rattle.opa_session.specs.Readers.Renewals.{relisting};
ghost use Rattle.opa_session.specs.Readers.Touches.{AreTouched, HaveTurned, slots_at_each};
ghost use Rattle.opa_session.specs.Settlement.Starts.{MarksReaders};
ghost use Rattle.opa_session.specs.Settlement.Tasks.{slots_of};
ghost use Rattle.opa_session.specs.Store.Owners.{AreOwners};

use crate::readers::index::Index;
use crate::settlement::{Reading, Tasks, mark, mark_set};
use crate::store::Owners;
use opa_case::{InstanceId, Question, Relisted};
use opa_io::{List, NoMemory};
use opa_mean::Slot;
use opa_model::AttrId;
use opa_tree::Rulebase;
use std::alloc::Global;

/// The slots of what goes and of what comes, and the readers of these questions, each once.
pub(crate) fn slots_touched(
    alloc: Global,
    base: &Rulebase,
    owners: &Owners,
    index: &Index,
    next: &Relisted<'_>,
    told: &[Question],
) -> Result<Tasks, NoMemory>
    requires { AreOwners base.now owners.now }
    ensures { IfOk result (λ tasks. AreTouched (relisting base.now next.now) (readers_in index.now) told.now (slots_of tasks)) }
{
    let turned = slots_turned(alloc, base, owners, next)?;
    let slots = turned.as_slice();
    let mut tasks = Tasks::new(alloc);
    mark(alloc, base, slots, &mut tasks)?;
    mark_readers(alloc, base, index, told, &mut tasks)?;
    Ok(tasks)
}

fn mark_readers(
    alloc: Global,
    base: &Rulebase,
    index: &Index,
    told: &[Question],
    tasks: &mut Tasks,
) -> Result<(), NoMemory>
    ensures { OnOk result (MarksReaders base.now (readers_in index.now) told.now tasks.old tasks.new) }
{
    for question in told {
        let reading = index.of(question);
        mark_set(alloc, base, reading, tasks)?;
    }
    Ok(())
}

/// The slots of what goes and of what comes.
fn slots_turned(
    alloc: Global,
    base: &Rulebase,
    owners: &Owners,
    next: &Relisted<'_>,
) -> Result<List<Slot>, NoMemory>
    requires { AreOwners base.now owners.now }
    ensures { IfOk result (λ slots. HaveTurned base.now next.now.case.now (relisted_case next.now) (pairs_of slots)) }
{
    let mut slots = List::new(alloc);
    let went = next.went();
    add_each(alloc, base, owners, went, &mut slots)?;
    let came = next.came();
    add_each(alloc, base, owners, came, &mut slots)?;
    Ok(slots)
}

/// Adds the slots of instances.
fn add_each(
    alloc: Global,
    base: &Rulebase,
    owners: &Owners,
    instances: &[(InstanceId, InstanceId)],
    slots: &mut List<Slot>,
) -> Result<(), NoMemory>
    requires { AreOwners base.now owners.now }
    ensures { OnOk result (pairs_of slots.new ≡ pairs_of slots.old ++ slots_at_each base.now instances.now) }
{
    for (inst, _) in instances {
        let attrs = owners.attributes(inst.entity.0);
        add_slots(alloc, attrs, inst, slots)?;
    }
    Ok(())
}

fn add_slots(
    alloc: Global,
    attrs: &[AttrId],
    inst: &InstanceId,
    slots: &mut List<Slot>,
) -> Result<(), NoMemory>
    ensures { OnOk result (pairs_of slots.new ≡ pairs_of slots.old ++ map (λ a. (a, inst.now)) attrs.now) }
{
    for attr in attrs {
        let inst = inst.copy(alloc)?;
        slots.push(Slot { attr: *attr, inst })?;
    }
    Ok(())
}
