// What a change reaches is derived and staged, and what is told of it is made ready; or nothing is staged.
ghost use Rattle.std.specs.Prelude.{◌≡◌, ◌+◌, ◌≤◌, ◌<◌, ◌^◌, false, [], is_some, length, map, IfOk, OnOk, OnErr};
ghost use Rattle.std.specs.Option.{option_copied};
ghost use Rattle.opa_code.specs.Rulebases.{rulebase_of};
ghost use Rattle.opa_mean.specs.Reached.Settling.{AreCurrent, AreReaders, AreSettled, IsBegun, SameLines, laid, laid_over, shift};
ghost use Rattle.opa_listen.specs.Hearing.{hearer};
ghost use Rattle.opa_mean.specs.Rulebases.{IsOf};
ghost use Rattle.opa_session.specs.Readers.Indexes.{readers_in};
ghost use Rattle.opa_session.specs.Settlement.Tasks.{AreRanked, slots_of};
ghost use Rattle.opa_session.specs.Store.Nexts.{answered, case_with};
ghost use Rattle.opa_session.specs.Store.Stores.{kept_of, staged_of};
ghost use Rattle.opa_tree.specs.Rules.{rule_of};
ghost use Rattle.opa_session.specs.Infer.Ready.{IsReady};
ghost use Rattle.opa_session.specs.Infer.Sessions.{reached};

use crate::infer::ready::{Ready, made_ready};
use crate::readers::Index;
use crate::settlement::{Tasks, settle, settle_answer};
use crate::store::{Answered, Store};
use opa_case::{Case, InstanceId};
use opa_code::Code;
use opa_io::{NoMemory, Steps};
use opa_line::Line;
use opa_listen::Listener;
use opa_mean::{new_can_tell, values_have_kinds};
use opa_model::AttrId;
use opa_tree::Rulebase;
use opa_value::Value;
use std::alloc::Global;
use std::sync::ledger::Ledger;

/// Stages what another case reaches, by its readers and by what waits at first, and makes ready what is told of it. Without memory
/// nothing is staged.
pub(crate) fn prepare_change<L: Ledger>(
    alloc: Global,
    base: &Rulebase,
    code: &Code,
    held: &Case,
    next: &Case,
    readers: &Index,
    tasks: Tasks,
    store: &mut Store<L>,
    steps: &mut Steps<L>,
    listeners: &mut Vec<Box<dyn Listener>>,
) -> Result<Ready, NoMemory>
    requires code { rulebase_of code.now ≡ base.now }
    requires before { IsOf base.now held.now }
    requires after { IsOf base.now next.now }
    requires exact { AreReaders base.now next.now (readers_in readers.now) }
    requires begun { IsBegun (shift base.now held.now next.now) (slots_of tasks) }
    requires ranked { AreRanked base.now tasks }
    requires current { AreCurrent base.now held.now (kept_of store.old) }
    requires empty { store.old.slots ≡ [] }
    requires fewer { length listeners.old.items < 2 ^ 64 }
    ensures current { OnOk result (AreCurrent base.now next.now (laid_over next.now (kept_of store.new) (staged_of store.new))) }
    ensures settled { OnOk result (AreSettled (shift base.now held.now next.now) (staged_of store.new)) }
    ensures kept { SameLines (kept_of store.old) (kept_of store.new) }
    ensures empty { OnErr result (store.new.slots ≡ []) }
    ensures dirty { OnOk result (length store.new.slots ≡ reached base.now held.now next.now) }
    ensures counted { OnOk result (steps.new ≡ steps.old + reached base.now held.now next.now) }
    ensures bound { steps.new ≤ steps.old + reached base.now held.now next.now }
    ensures ready { IfOk result (λ ready. IsReady base.now held.now next.now (map (λ l. state l) listeners.old.items) (map (λ l. state l) listeners.new.items) (map (λ v. v.items) ready.lists.items) ready.count) }
    ensures quiet { map (λ l. hearer (state l)) listeners.new.items ≡ map (λ l. hearer (state l)) listeners.old.items }
{
    match stage_change(
        alloc, base, code, held, next, readers, tasks, store, steps, listeners,
    ) {
        Ok(ready) => Ok(ready),
        Err(_) => {
            store.abandon();
            Err(NoMemory)
        }
    }
}

/// The same, but that something may be staged where there is no memory.
fn stage_change<L: Ledger>(
    alloc: Global,
    base: &Rulebase,
    code: &Code,
    held: &Case,
    next: &Case,
    readers: &Index,
    tasks: Tasks,
    store: &mut Store<L>,
    steps: &mut Steps<L>,
    listeners: &mut Vec<Box<dyn Listener>>,
) -> Result<Ready, NoMemory>
    requires code { rulebase_of code.now ≡ base.now }
    requires before { IsOf base.now held.now }
    requires after { IsOf base.now next.now }
    requires exact { AreReaders base.now next.now (readers_in readers.now) }
    requires begun { IsBegun (shift base.now held.now next.now) (slots_of tasks) }
    requires ranked { AreRanked base.now tasks }
    requires current { AreCurrent base.now held.now (kept_of store.old) }
    requires empty { store.old.slots ≡ [] }
    requires fewer { length listeners.old.items < 2 ^ 64 }
    ensures current { OnOk result (AreCurrent base.now next.now (laid_over next.now (kept_of store.new) (staged_of store.new))) }
    ensures settled { OnOk result (AreSettled (shift base.now held.now next.now) (staged_of store.new)) }
    ensures kept { SameLines (kept_of store.old) (kept_of store.new) }
    ensures dirty { OnOk result (length store.new.slots ≡ reached base.now held.now next.now) }
    ensures counted { OnOk result (steps.new ≡ steps.old + reached base.now held.now next.now) }
    ensures bound { steps.new ≤ steps.old + reached base.now held.now next.now }
    ensures ready { IfOk result (λ ready. IsReady base.now held.now next.now (map (λ l. state l) listeners.old.items) (map (λ l. state l) listeners.new.items) (map (λ v. v.items) ready.lists.items) ready.count) }
    ensures quiet { map (λ l. hearer (state l)) listeners.new.items ≡ map (λ l. hearer (state l)) listeners.old.items }
{
    new_can_tell();
    values_have_kinds();
    settle(alloc, base, code, readers, held, next, store, tasks, steps)?;
    let ready = made_ready(alloc, base, held, next, store, listeners)?;
    Ok(ready)
}

/// Stages what an answer reaches, or its absence, and makes ready what is told of it. No case is copied. Without memory nothing
/// is staged.
pub(crate) fn prepare_answer<L: Ledger>(
    alloc: Global,
    base: &Rulebase,
    code: &Code,
    readers: &Index,
    case: &Case,
    attr: AttrId,
    inst: &InstanceId,
    line: Option<&Line<Value>>,
    store: &mut Store<L>,
    steps: &mut Steps<L>,
    listeners: &mut Vec<Box<dyn Listener>>,
) -> Result<Ready, NoMemory>
    requires code { rulebase_of code.now ≡ base.now }
    requires before { IsOf base.now case.now }
    requires after { IsOf base.now (answered case.now attr inst.now (option_copied line)) }
    requires unruled { is_some (rule_of base.now.rules attr) ≡ false }
    requires exact { AreReaders base.now case.now (readers_in readers.now) }
    requires current { AreCurrent base.now case.now (kept_of store.old) }
    requires empty { store.old.slots ≡ [] }
    requires fewer { length listeners.old.items < 2 ^ 64 }
    ensures current { OnOk result (AreCurrent base.now (answered case.now attr inst.now (option_copied line.entry)) (laid (kept_of store.new) (staged_of store.new))) }
    ensures exact { OnOk result (AreReaders base.now (answered case.now attr inst.now (option_copied line.entry)) (readers_in readers.now)) }
    ensures kept { SameLines (kept_of store.old) (kept_of store.new) }
    ensures empty { OnErr result (store.new.slots ≡ []) }
    ensures dirty { OnOk result (length store.new.slots ≡ reached base.now case.now (answered case.now attr inst.now (option_copied line.entry))) }
    ensures counted { OnOk result (steps.new ≡ steps.old + reached base.now case.now (answered case.now attr inst.now (option_copied line.entry))) }
    ensures bound { steps.new ≤ steps.old + reached base.now case.now (answered case.now attr inst.now (option_copied line.entry)) }
    ensures ready { IfOk result (λ ready. IsReady base.now case.now (answered case.now attr inst.now (option_copied line.entry)) (map (λ l. state l) listeners.old.items) (map (λ l. state l) listeners.new.items) (map (λ v. v.items) ready.lists.items) ready.count) }
    ensures quiet { map (λ l. hearer (state l)) listeners.new.items ≡ map (λ l. hearer (state l)) listeners.old.items }
{
    let next = Answered {
        case,
        attr,
        inst,
        line,
    };
    match stage_answer(alloc, base, code, readers, &next, store, steps, listeners) {
        Ok(ready) => Ok(ready),
        Err(_) => {
            store.abandon();
            Err(NoMemory)
        }
    }
}

/// The same, but that something may be staged where there is no memory.
fn stage_answer<L: Ledger>(
    alloc: Global,
    base: &Rulebase,
    code: &Code,
    readers: &Index,
    next: &Answered<'_>,
    store: &mut Store<L>,
    steps: &mut Steps<L>,
    listeners: &mut Vec<Box<dyn Listener>>,
) -> Result<Ready, NoMemory>
    requires code { rulebase_of code.now ≡ base.now }
    requires before { IsOf base.now next.now.case.now }
    requires after { IsOf base.now (case_with next.now) }
    requires unruled { is_some (rule_of base.now.rules next.now.attr) ≡ false }
    requires exact { AreReaders base.now next.now.case.now (readers_in readers.now) }
    requires current { AreCurrent base.now next.now.case.now (kept_of store.old) }
    requires empty { store.old.slots ≡ [] }
    requires fewer { length listeners.old.items < 2 ^ 64 }
    ensures current { OnOk result (AreCurrent base.now (case_with next.now) (laid (kept_of store.new) (staged_of store.new))) }
    ensures exact { OnOk result (AreReaders base.now (case_with next.now) (readers_in readers.now)) }
    ensures kept { SameLines (kept_of store.old) (kept_of store.new) }
    ensures dirty { OnOk result (length store.new.slots ≡ reached base.now next.now.case.now (case_with next.now)) }
    ensures counted { OnOk result (steps.new ≡ steps.old + reached base.now next.now.case.now (case_with next.now)) }
    ensures bound { steps.new ≤ steps.old + reached base.now next.now.case.now (case_with next.now) }
    ensures ready { IfOk result (λ ready. IsReady base.now next.now.case.now (case_with next.now) (map (λ l. state l) listeners.old.items) (map (λ l. state l) listeners.new.items) (map (λ v. v.items) ready.lists.items) ready.count) }
    ensures quiet { map (λ l. hearer (state l)) listeners.new.items ≡ map (λ l. hearer (state l)) listeners.old.items }
{
    values_have_kinds();
    settle_answer(alloc, base, code, readers, next, store, steps)?;
    let ready = made_ready(alloc, base, next.case, next, store, listeners)?;
    Ok(ready)
}
