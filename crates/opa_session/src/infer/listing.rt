// What a list reaches is derived and staged, and all that may want memory is ready before it is written.
ghost use Rattle.std.specs.Prelude.{◌≡◌, ◌≢◌, ◌+◌, ◌≤◌, ◌<◌, ◌^◌, [], length, map, Ok, Err, IfOk, IfErr, OnOk, OnErr};
ghost use Rattle.std.specs.Option.{option_copied};
ghost use Rattle.opa_case.specs.Cases.{CaseView};
ghost use Rattle.opa_case.specs.Overlays.{relisted_case};
ghost use Rattle.opa_case.specs.declared.change.Refusal.{Refusal as Refused};
ghost use Rattle.opa_case.specs.declared.change.Refusal.TheVariants as refusals;
ghost use Rattle.opa_code.specs.Rulebases.{rulebase_of};
ghost use Rattle.opa_mean.specs.Reached.ByLists.{IsByLists};
ghost use Rattle.opa_mean.specs.Reached.Settling.{AreCurrent, AreReaders, AreSettled, SameLines, shift};
ghost use Rattle.opa_session.specs.Infer.Ready.{IsReady};
ghost use Rattle.opa_session.specs.Infer.Relisting.{IsPrepared, relists};
ghost use Rattle.opa_session.specs.Infer.Sessions.{reached};
ghost use Rattle.opa_listen.specs.Hearing.{hearer};
ghost use Rattle.opa_mean.specs.Rulebases.{IsOf};
ghost use Rattle.opa_model.specs.Models.{HasRelation};
ghost use Rattle.opa_session.specs.Readers.Indexes.{readers_in};
ghost use Rattle.opa_session.specs.Readers.Renewals.{IsRenewal};
ghost use Rattle.opa_session.specs.Store.Owners.{AreOwners};
ghost use Rattle.opa_session.specs.Store.Stores.{kept_of, staged_of};

use crate::infer::placing::note_places;
use crate::infer::ready::{Ready, made_ready};
use crate::readers::{Index, Renewal, begin_list, lists_told};
use crate::settlement::settle;
use crate::store::{Owners, Store};
use opa_case::{
    Case, InstanceId, Moves, Refusal, Relisted, models_are_shapes, step_fits, step_keeps_containers,
};
use opa_code::Code;
use opa_io::{List, NoMemory, Steps, Txt};
use opa_listen::Listener;
use opa_mean::{held_can_tell, relisted_is_by_lists, values_have_kinds};
use opa_model::RelId;
use opa_tree::Rulebase;
use std::alloc::Global;
use std::sync::ledger::Ledger;

/// What is ready before a list is written: what is told, what the list moves, and how the readers are renewed.
#[derive(Drop)]
pub(crate) struct Prepared {
    pub(crate) ready: Ready,
    pub(crate) moves: Moves,
    pub(crate) renewal: Renewal,
}

/// The same without what the list moves.
#[derive(Drop)]
struct Staged {
    ready: Ready,
    renewal: Renewal,
}

/// Stages what a list reaches that is set, or forgotten where there are no names, and makes all ready for it; or its refusal.
/// Nothing is staged then.
pub(crate) fn prepare_list<L: Ledger>(
    alloc: Global,
    base: &Rulebase,
    owners: &Owners,
    code: &Code,
    readers: &Index,
    held: &Case,
    rel: RelId,
    inst: &InstanceId,
    names: Option<&List<Txt>>,
    store: &mut Store<L>,
    steps: &mut Steps<L>,
    listeners: &mut Vec<Box<dyn Listener>>,
) -> Result<Prepared, Refusal>
    requires owners { AreOwners base.now owners.now }
    requires code { rulebase_of code.now ≡ base.now }
    requires before { IsOf base.now held.now }
    requires declared { HasRelation base.now.model rel }
    requires exact { AreReaders base.now held.now (readers_in readers.now) }
    requires current { AreCurrent base.now held.now (kept_of store.old) }
    requires empty { store.old.slots ≡ [] }
    requires fewer { length listeners.old.items < 2 ^ 64 }
    ensures prepared { IfOk result (λ p. IsPrepared base.now held.now rel inst.now (option_copied names.entry) (readers_in readers.now) (staged_of store.new) p.moves p.renewal) }
    ensures dirty { OnOk result ((c : CaseView) → relists base.now held.now rel inst.now (option_copied names.entry) ≡ Ok c → length store.new.slots ≡ reached base.now held.now c) }
    ensures counted { OnOk result ((c : CaseView) → relists base.now held.now rel inst.now (option_copied names.entry) ≡ Ok c → steps.new ≡ steps.old + reached base.now held.now c) }
    ensures ready { IfOk result (λ p. (c : CaseView) → relists base.now held.now rel inst.now (option_copied names.entry) ≡ Ok c → IsReady base.now held.now c (map (λ l. state l) listeners.old.items) (map (λ l. state l) listeners.new.items) (map (λ v. v.items) p.ready.lists.items) p.ready.count) }
    ensures err { IfErr result (λ e. e ≢ refusals.NoMemory → relists base.now held.now rel inst.now (option_copied names.entry) ≡ Err e) }
    ensures bound { (c : CaseView) → relists base.now held.now rel inst.now (option_copied names.entry) ≡ Ok c → steps.new ≤ steps.old + reached base.now held.now c }
    ensures uncounted { (e : Refused) → relists base.now held.now rel inst.now (option_copied names.entry) ≡ Err e → steps.new ≡ steps.old }
    ensures empty { OnErr result (store.new.slots ≡ []) }
    ensures kept { SameLines (kept_of store.old) (kept_of store.new) }
    ensures quiet { map (λ l. hearer (state l)) listeners.new.items ≡ map (λ l. hearer (state l)) listeners.old.items }
{
    models_are_shapes();
    step_fits();
    step_keeps_containers();
    relisted_is_by_lists();
    let next = coming_list(base, held, rel, inst, names)?;
    match stage_list(
        alloc, base, owners, code, readers, held, &next, rel, inst, names, store, steps, listeners,
    ) {
        Ok(staged) => Ok(Prepared {
            ready: staged.ready,
            moves: next.into_moves(),
            renewal: staged.renewal,
        }),
        Err(_) => {
            store.abandon();
            Err(Refusal::NoMemory)
        }
    }
}

/// The case that comes, which isn't written yet; or the refusal.
fn coming_list<'a>(
    base: &'a Rulebase,
    held: &'a Case,
    rel: RelId,
    inst: &'a InstanceId,
    names: Option<&'a List<Txt>>,
) -> Result<Relisted<'a>, Refusal>
    requires before { IsOf base.now held.now }
    requires declared { HasRelation base.now.model rel }
    ensures ok { IfOk result (λ next. relists base.now held.now rel inst.now (option_copied names.entry) ≡ Ok (relisted_case next)) }
    ensures err { IfErr result (λ e. e ≢ refusals.NoMemory → relists base.now held.now rel inst.now (option_copied names.entry) ≡ Err e) }
    ensures case { IfOk result (λ next. held.now ≡ next.case.now) }
    ensures inst { IfOk result (λ next. next.inst.now ≡ inst.now) }
{
    match names {
        Some(names) => {
            let next = held.with_list(&base.model, &base.ruled, rel, inst, names)?;
            Ok(next)
        }
        None => {
            let next = held.without_list(&base.model, &base.ruled, rel, inst)?;
            Ok(next)
        }
    }
}

/// The same, but that something may be staged where there is no memory.
fn stage_list<L: Ledger>(
    alloc: Global,
    base: &Rulebase,
    owners: &Owners,
    code: &Code,
    readers: &Index,
    held: &Case,
    next: &Relisted<'_>,
    rel: RelId,
    inst: &InstanceId,
    names: Option<&List<Txt>>,
    store: &mut Store<L>,
    steps: &mut Steps<L>,
    listeners: &mut Vec<Box<dyn Listener>>,
) -> Result<Staged, NoMemory>
    requires owners { AreOwners base.now owners.now }
    requires code { rulebase_of code.now ≡ base.now }
    requires declared { HasRelation base.now.model rel }
    requires case { held.now ≡ next.now.case.now }
    requires lists { IsByLists (shift base.now next.now.case.now (relisted_case next.now)) }
    requires exact { AreReaders base.now next.now.case.now (readers_in readers.now) }
    requires current { AreCurrent base.now next.now.case.now (kept_of store.old) }
    requires empty { store.old.slots ≡ [] }
    requires fewer { length listeners.old.items < 2 ^ 64 }
    ensures settled { OnOk result (AreSettled (shift base.now next.now.case.now (relisted_case next.now)) (staged_of store.new)) }
    ensures renews { IfOk result (λ p. IsRenewal (shift base.now next.now.case.now (relisted_case next.now)) (readers_in readers.now) p.renewal) }
    ensures dirty { OnOk result (length store.new.slots ≡ reached base.now next.now.case.now (relisted_case next.now)) }
    ensures counted { OnOk result (steps.new ≡ steps.old + reached base.now next.now.case.now (relisted_case next.now)) }
    ensures bound { steps.new ≤ steps.old + reached base.now next.now.case.now (relisted_case next.now) }
    ensures ready { IfOk result (λ p. IsReady base.now next.now.case.now (relisted_case next.now) (map (λ l. state l) listeners.old.items) (map (λ l. state l) listeners.new.items) (map (λ v. v.items) p.ready.lists.items) p.ready.count) }
    ensures kept { SameLines (kept_of store.old) (kept_of store.new) }
    ensures quiet { map (λ l. hearer (state l)) listeners.new.items ≡ map (λ l. hearer (state l)) listeners.old.items }
{
    values_have_kinds();
    held_can_tell();
    let told = lists_told(alloc, base, held, next)?;
    let questions = told.as_slice();
    let tasks = begin_list(alloc, base, owners, next, readers, questions)?;
    settle(alloc, base, code, readers, held, next, store, tasks, steps)?;
    let renewal = readers.renewal(alloc, base, owners, held, next, questions)?;
    let ready = made_ready(alloc, base, held, next, store, listeners)?;
    note_places(alloc, base, held, rel, inst, names, store)?;
    Ok(Staged { ready, renewal })
}
