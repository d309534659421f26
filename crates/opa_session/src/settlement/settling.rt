// A change is settled: what it reaches is derived, in the order of ranks.
ghost use Rattle.std.specs.Prelude.{◌≡◌, ◌+◌, ◌<◌, ◌≤◌, [], ◌∷◌, length, OnOk, OnErr, Contains};
ghost use Rattle.opa_mean.specs.Reached.Settling.{AreCurrent, AreSettled, CanSettle, IsBegun, IsSettling, NoLines, SameLines, laid_over, left, reached, shift};
ghost use Rattle.opa_session.specs.Settlement.Tasks.{AreInOrder, AreRanked, ComesFirst, slots_of};
ghost use Rattle.opa_session.specs.Settlement.Orders.{StandBefore};
ghost use Rattle.opa_session.specs.declared.settlement.task.Task.{Task as TaskView};
ghost use Rattle.opa_session.specs.Store.Stores.{kept_of, staged_of};

use crate::settlement::living::mark_live;
use crate::settlement::task::Task;
use crate::settlement::tasks::Tasks;
use crate::store::{Next, Store};
use opa_case::Case;
use opa_io::{NoMemory, Steps};
use opa_mean::{Derive, Readers, Slot};
use opa_tree::Rulebase;
use std::alloc::Global;
use std::sync::ledger::Ledger;

/// Derives what waits, and what reads each line that differs, until nothing waits. The held case is there for the contract
/// alone: nothing is read of it.
pub fn settle<D: Derive, N: Next, R: Readers, L: Ledger>(
    alloc: Global,
    base: &Rulebase,
    code: &D,
    readers: &R,
    held: &Case,
    next: &N,
    store: &mut Store<L>,
    tasks: Tasks,
    steps: &mut Steps<L>,
) -> Result<(), NoMemory>
    requires code { D.stands_for code.now ≡ base.now }
    requires can { CanSettle (shift base.now held.now (N.next next.now)) (kept_of store.old) (R.readers readers.now) }
    requires empty { store.old.slots ≡ [] }
    requires ranked { AreRanked base.now tasks }
    requires begun { IsBegun (shift base.now held.now (N.next next.now)) (slots_of tasks) }
    ensures settled { OnOk result (AreSettled (shift base.now held.now (N.next next.now)) (staged_of store.new)) }
    ensures current { OnOk result (AreCurrent base.now (N.next next.now)
        (laid_over (N.next next.now) (kept_of store.new) (staged_of store.new))) }
    ensures order { AreInOrder base.now store.new.slots }
    ensures kept { SameLines (kept_of store.old) (kept_of store.new) }
    ensures dirty { OnOk result (length store.new.slots ≡ reached (shift base.now held.now (N.next next.now))) }
    ensures counted { OnOk result (steps.new ≡ steps.old + reached (shift base.now held.now (N.next next.now))) }
    ensures bound { steps.new ≤ steps.old + reached (shift base.now held.now (N.next next.now)) }
{
    nothing_staged(store);
    let mut tasks = tasks;
    while let Some(task) = tasks.take_first() {
        settle_one(
            alloc, base, code, readers, held, next, store, &mut tasks, steps, task,
        )?;
    }
    Ok(())
}

/// Where no slot is listed, nothing is staged.
fn nothing_staged<L: Ledger>(store: &Store<L>)
    requires { store.now.slots ≡ [] }
    ensures { NoLines (staged_of store.now) }
{
    let _slots = store.slots();
}

/// Derives one slot, of which all that is of lower rank was derived.
fn settle_one<D: Derive, N: Next, R: Readers, L: Ledger>(
    alloc: Global,
    base: &Rulebase,
    code: &D,
    readers: &R,
    held: &Case,
    next: &N,
    store: &mut Store<L>,
    tasks: &mut Tasks,
    steps: &mut Steps<L>,
    task: Task,
) -> Result<(), NoMemory>
    requires code { D.stands_for code.now ≡ base.now }
    requires can { CanSettle (shift base.now held.now (N.next next.now)) (kept_of store.old) (R.readers readers.now) }
    requires ranked { AreRanked base.now (task ∷ tasks.old) }
    requires first { (u : TaskView) → Contains tasks.old u → ComesFirst task u }
    requires once { Contains tasks.old task → ⊥ }
    requires settling { IsSettling (shift base.now held.now (N.next next.now)) (staged_of store.old) (slots_of (task ∷ tasks.old)) }
    requires before { StandBefore base.now store.old.slots (slots_of (task ∷ tasks.old)) }
    ensures settling { OnOk result (IsSettling (shift base.now held.now (N.next next.now)) (staged_of store.new) (slots_of tasks.new)) }
    ensures ranked { OnOk result (AreRanked base.now tasks.new) }
    ensures before { OnOk result (StandBefore base.now store.new.slots (slots_of tasks.new)) }
    ensures order { AreInOrder base.now store.new.slots }
    ensures kept { SameLines (kept_of store.old) (kept_of store.new) }
    ensures fewer { OnOk result (left (shift base.now held.now (N.next next.now)) (staged_of store.new) < left (shift base.now held.now (N.next next.now)) (staged_of store.old)) }
    ensures listed { length store.new.slots + left (shift base.now held.now (N.next next.now)) (staged_of store.new) ≡ length store.old.slots + left (shift base.now held.now (N.next next.now)) (staged_of store.old) }
    ensures counted { steps.new + left (shift base.now held.now (N.next next.now)) (staged_of store.new) ≡ steps.old + left (shift base.now held.now (N.next next.now)) (staged_of store.old) }
{
    let slot = Slot {
        attr: task.attr,
        inst: task.inst,
    };
    let reading = readers.of_line(slot.attr, &slot.inst);
    let differs = store.derive(alloc, slot, code, next, steps)?;
    if differs {
        mark_live(alloc, base, next, reading, tasks)?;
        Ok(())
    } else {
        Ok(())
    }
}
