// Slots of what is live in the coming case wait besides.
ghost use Rattle.std.specs.Prelude.{◌∷◌, [], OnOk};
ghost use Rattle.std.specs.Option.{option_copied};
ghost use Rattle.opa_mean.specs.Reached.Slots.{slots_in};
ghost use Rattle.opa_session.specs.Settlement.Tasks.{MarksLive};

use crate::settlement::starting::mark_one;
use crate::settlement::tasks::Tasks;
use crate::store::Next;
use opa_io::NoMemory;
use opa_mean::Slot;
use opa_tree::Rulebase;
use std::alloc::Global;
use std::collections::BTreeSet;

/// Of a set of slots those of what is live in the coming case wait besides: one look for each.
pub fn mark_live<N: Next>(
    alloc: Global,
    base: &Rulebase,
    next: &N,
    set: Option<&BTreeSet<Slot>>,
    tasks: &mut Tasks,
) -> Result<(), NoMemory>
    ensures { OnOk result (MarksLive base.now (N.next next.now) (slots_in (option_copied set.entry))
        tasks.old tasks.new) }
{
    match set {
        Some(slots) => {
            mark_each_live(alloc, base, next, slots, tasks)?;
            Ok(())
        }
        None => Ok(()),
    }
}

fn mark_each_live<N: Next>(
    alloc: Global,
    base: &Rulebase,
    next: &N,
    slots: &BTreeSet<Slot>,
    tasks: &mut Tasks,
) -> Result<(), NoMemory>
    ensures { OnOk result (MarksLive base.now (N.next next.now) slots.now.keys tasks.old tasks.new) }
{
    for slot in slots {
        mark_if_live(alloc, base, next, slot, tasks)?;
    }
    Ok(())
}

fn mark_if_live<N: Next>(
    alloc: Global,
    base: &Rulebase,
    next: &N,
    slot: &Slot,
    tasks: &mut Tasks,
) -> Result<(), NoMemory>
    ensures { OnOk result (MarksLive base.now (N.next next.now) (slot.now ∷ []) tasks.old tasks.new) }
{
    let live = next.live(&slot.inst);
    if live {
        mark_one(alloc, base, slot, tasks)?;
        Ok(())
    } else {
        Ok(())
    }
}
