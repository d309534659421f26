// The first lines: those of all slots of a case.
ghost use Rattle.std.specs.Prelude.{◌≡◌, ◌≤◌, ◌<◌, ◌+◌, [], length, take, IfOk, OnOk};
ghost use Rattle.opa_code.specs.Rulebases.{rulebase_of};
ghost use Rattle.opa_mean.specs.Reached.Settling.{AreCurrent, NoLines};
ghost use Rattle.opa_session.specs.Infer.First.{AreFirst};
ghost use Rattle.opa_mean.specs.Changes.{slots as slots_of};
ghost use Rattle.opa_mean.specs.Given.{base_of, facts_of};
ghost use Rattle.opa_mean.specs.Rulebases.{IsOf};
ghost use Rattle.opa_session.specs.Store.Stores.{kept_of, staged_of};

use crate::store::Store;
use crate::telling::live_slots;
use opa_case::{Case, InstanceId};
use opa_code::Code;
use opa_io::{NoMemory, Steps};
use opa_mean::{Slot, values_have_kinds};
use opa_model::AttrId;
use opa_tree::Rulebase;
use std::alloc::Global;
use std::sync::ledger::Ledger;

/// The line of each slot of a case, derived once.
pub(crate) fn first_lines<L: Ledger>(
    alloc: Global,
    base: &Rulebase,
    code: &Code,
    case: &Case,
    steps: &mut Steps<L>,
) -> Result<Store<L>, NoMemory>
    requires code { rulebase_of code.now ≡ base.now }
    requires fits { IsOf base.now case.now }
    ensures current { IfOk result (λ store. AreCurrent base.now case.now (kept_of store)) }
    ensures empty { IfOk result (λ store. store.slots ≡ []) }
    ensures bound { steps.new ≤ steps.old + length (slots_of (base_of base.now) (facts_of case.now)) }
{
    let all = live_slots(alloc, base, case)?;
    let slots = all.as_slice();
    let mut store = staged_lines(alloc, base, code, case, slots, steps)?;
    store.commit();
    Ok(store)
}

/// The same, staged.
fn staged_lines<L: Ledger>(
    alloc: Global,
    base: &Rulebase,
    code: &Code,
    case: &Case,
    slots: &[(AttrId, InstanceId)],
    steps: &mut Steps<L>,
) -> Result<Store<L>, NoMemory>
    requires code { rulebase_of code.now ≡ base.now }
    requires fits { IsOf base.now case.now }
    requires slots { slots.now ≡ slots_of (base_of base.now) (facts_of case.now) }
    ensures first { IfOk result (λ store. AreFirst base.now case.now slots.now (kept_of store) (staged_of store)) }
    ensures bound { steps.new ≤ steps.old + length slots.now }
{
    let mut store = nothing_staged(alloc);
    for place in 0..slots.len() {
        stage_first(alloc, base, code, case, slots, place, &mut store, steps)?;
    }
    Ok(store)
}

/// A store without lines.
fn nothing_staged<L: Ledger>(alloc: Global) -> Store<L>
    ensures kept { NoLines (kept_of result) }
    ensures staged { NoLines (staged_of result) }
{
    let store = Store::new(alloc);
    let _none = store.slots();
    store
}

/// Derives the line of one slot, behind those of the slots before it.
fn stage_first<L: Ledger>(
    alloc: Global,
    base: &Rulebase,
    code: &Code,
    case: &Case,
    slots: &[(AttrId, InstanceId)],
    place: usize,
    store: &mut Store<L>,
    steps: &mut Steps<L>,
) -> Result<(), NoMemory>
    requires code { rulebase_of code.now ≡ base.now }
    requires fits { IsOf base.now case.now }
    requires slots { slots.now ≡ slots_of (base_of base.now) (facts_of case.now) }
    requires place { place < length slots.now }
    requires first { AreFirst base.now case.now (take place slots.now) (kept_of store.old) (staged_of store.old) }
    ensures first { OnOk result (AreFirst base.now case.now (take (place + 1) slots.now) (kept_of store.new) (staged_of store.new)) }
    ensures bound { steps.new ≤ steps.old + 1 }
{
    values_have_kinds();
    let (attr, inst) = &slots[place];
    if store.staged(*attr, inst).is_some() {
        return Ok(());
    }
    let inst = inst.copy(alloc)?;
    let slot = Slot { attr: *attr, inst };
    store.derive(alloc, slot, code, case, steps)?;
    Ok(())
}
