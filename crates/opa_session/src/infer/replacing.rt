// Another case takes the place of the one that is held.
ghost use Rattle.std.specs.Prelude.{◌≡◌, ◌<◌, ◌≤◌, ◌+◌, ◌^◌, [], length, map, IfOk, OnOk, OnErr};
ghost use Rattle.opa_case.specs.Fits.{Fits};
ghost use Rattle.opa_case.specs.Shapes.{shape_of};
ghost use Rattle.opa_mean.specs.Reached.Settling.{AreCurrent, AreReaders, AreSettled, IsByAnswers, SameLines, laid_over, shift};
ghost use Rattle.opa_code.specs.Rulebases.{rulebase_of};
ghost use Rattle.opa_session.specs.Infer.Ready.{IsReady};
ghost use Rattle.opa_session.specs.Readers.Indexes.{readers_in};
ghost use Rattle.opa_session.specs.Infer.Sessions.{rules_of, held_of, reached_of, reached, Tells};
ghost use Rattle.opa_listen.specs.Hearing.{hearer};
ghost use Rattle.opa_mean.specs.Rulebases.{IsOf};
ghost use Rattle.opa_session.specs.Store.Stores.{kept_of, staged_of};

use crate::infer::ready::Ready;
use crate::infer::session::Session;
use crate::infer::settling::prepare_change;
use crate::readers::{Index, are_by_answers, begin, begin_answers};
use crate::settlement::same_are_current;
use crate::store::Store;
use opa_case::Case;
use opa_code::Code;
use opa_io::{NoMemory, Steps};
use opa_listen::{Listener, tell};
use opa_mean::{laid_stay_current, readers_stay};
use opa_tree::Rulebase;
use std::alloc::Global;
use std::sync::ledger::Ledger;

impl<L: Ledger> Session<L> {
    /// Puts a case that fits in the place of the one that is held, and tells each listener of the changes; without memory for it
    /// the session and what listeners keep are as they were. It answers how many values differ.
    pub fn replace_case(
        &mut self,
        alloc: Global,
        case: Case,
        listeners: &mut Vec<Box<dyn Listener>>,
        steps: &mut Steps<L>,
    ) -> Result<u32, NoMemory>
        requires fits { Fits (shape_of (rules_of self.old).model) (rules_of self.old).ruled case }
        requires fewer { length listeners.old.items < 2 ^ 64 }
        ensures ok { OnOk result (held_of self.new ≡ case) }
        ensures reached { OnOk result (reached_of self.new ≡ reached (rules_of self.old) (held_of self.old) case) }
        ensures told { IfOk result (Tells (rules_of self.old) (held_of self.old) case
            (map (λ l. hearer (state l)) listeners.old.items) (map (λ l. hearer (state l)) listeners.new.items)) }
        ensures case { OnErr result (held_of self.new ≡ held_of self.old) }
        ensures still { OnErr result (reached_of self.new ≡ reached_of self.old) }
        ensures quiet { OnErr result (map (λ l. hearer (state l)) listeners.new.items ≡ map
            (λ l. hearer (state l)) listeners.old.items) }
        ensures base { rules_of self.new ≡ rules_of self.old }
        ensures counted { OnOk result (steps.new ≡ steps.old + reached (rules_of self.old) (held_of self.old) case) }
        ensures bound { steps.new ≤ steps.old + reached (rules_of self.old) (held_of self.old) case }
    {
        let _count = self.base.model.attribute_count();
        let same = are_by_answers(alloc, &self.base, &self.case, &case)?;
        if same {
            self.replace_answers(alloc, case, listeners, steps)
        } else {
            self.replace_lists(alloc, case, listeners, steps)
        }
    }

    /// The same where the cases differ in answers at most: the readers stay, and no line has to go.
    fn replace_answers(
        &mut self,
        alloc: Global,
        case: Case,
        listeners: &mut Vec<Box<dyn Listener>>,
        steps: &mut Steps<L>,
    ) -> Result<u32, NoMemory>
        requires fits { Fits (shape_of (rules_of self.old).model) (rules_of self.old).ruled case }
        requires answers { IsByAnswers (shift (rules_of self.old) (held_of self.old) case) }
        requires fewer { length listeners.old.items < 2 ^ 64 }
        ensures ok { OnOk result (held_of self.new ≡ case) }
        ensures reached { OnOk result (reached_of self.new ≡ reached (rules_of self.old) (held_of self.old) case) }
        ensures told { IfOk result (Tells (rules_of self.old) (held_of self.old) case
            (map (λ l. hearer (state l)) listeners.old.items) (map (λ l. hearer (state l)) listeners.new.items)) }
        ensures case { OnErr result (held_of self.new ≡ held_of self.old) }
        ensures still { OnErr result (reached_of self.new ≡ reached_of self.old) }
        ensures quiet { OnErr result (map (λ l. hearer (state l)) listeners.new.items ≡ map
            (λ l. hearer (state l)) listeners.old.items) }
        ensures base { rules_of self.new ≡ rules_of self.old }
        ensures counted { OnOk result (steps.new ≡ steps.old + reached (rules_of self.old) (held_of self.old) case) }
        ensures bound { steps.new ≤ steps.old + reached (rules_of self.old) (held_of self.old) case }
    {
        let _count = self.base.model.attribute_count();
        readers_stay();
        same_are_current();
        let prepared = stage_answers(
            alloc,
            &self.base,
            &self.code,
            &self.case,
            &case,
            &self.readers,
            &mut self.store,
            steps,
            listeners,
        );
        match prepared {
            Ok(ready) => {
                self.dirty = keep_answers(&self.base, &self.case, &case, &mut self.store);
                self.case = case;
                tell(listeners, ready.lists);
                Ok(ready.count)
            }
            Err(NoMemory) => {
                drop(case);
                Err(NoMemory)
            }
        }
    }

    /// The same of any two cases: the readers are found anew.
    fn replace_lists(
        &mut self,
        alloc: Global,
        case: Case,
        listeners: &mut Vec<Box<dyn Listener>>,
        steps: &mut Steps<L>,
    ) -> Result<u32, NoMemory>
        requires fits { Fits (shape_of (rules_of self.old).model) (rules_of self.old).ruled case }
        requires fewer { length listeners.old.items < 2 ^ 64 }
        ensures ok { OnOk result (held_of self.new ≡ case) }
        ensures reached { OnOk result (reached_of self.new ≡ reached (rules_of self.old) (held_of self.old) case) }
        ensures told { IfOk result (Tells (rules_of self.old) (held_of self.old) case
            (map (λ l. hearer (state l)) listeners.old.items) (map (λ l. hearer (state l)) listeners.new.items)) }
        ensures case { OnErr result (held_of self.new ≡ held_of self.old) }
        ensures still { OnErr result (reached_of self.new ≡ reached_of self.old) }
        ensures quiet { OnErr result (map (λ l. hearer (state l)) listeners.new.items ≡ map
            (λ l. hearer (state l)) listeners.old.items) }
        ensures base { rules_of self.new ≡ rules_of self.old }
        ensures counted { OnOk result (steps.new ≡ steps.old + reached (rules_of self.old) (held_of self.old) case) }
        ensures bound { steps.new ≤ steps.old + reached (rules_of self.old) (held_of self.old) case }
    {
        let _count = self.base.model.attribute_count();
        let prepared = stage_lists(
            alloc,
            &self.base,
            &self.code,
            &self.case,
            &case,
            &mut self.store,
            steps,
            listeners,
        );
        match prepared {
            Ok(regained) => {
                let Regained { ready, readers } = regained;
                let dirty = keep_change(&self.base, &case, &mut self.store);
                self.dirty = dirty;
                self.case = case;
                self.readers = readers;
                tell(listeners, ready.lists);
                Ok(ready.count)
            }
            Err(NoMemory) => {
                drop(case);
                Err(NoMemory)
            }
        }
    }
}

/// What is ready before a case with other lists is held: what is told, and the readers.
#[derive(Drop)]
struct Regained {
    ready: Ready,
    readers: Index,
}

/// Stages what a case with other answers reaches. Without memory nothing is staged.
fn stage_answers<L: Ledger>(
    alloc: Global,
    base: &Rulebase,
    code: &Code,
    held: &Case,
    next: &Case,
    readers: &Index,
    store: &mut Store<L>,
    steps: &mut Steps<L>,
    listeners: &mut Vec<Box<dyn Listener>>,
) -> Result<Ready, NoMemory>
    requires code { rulebase_of code.now ≡ base.now }
    requires before { IsOf base.now held.now }
    requires after { IsOf base.now next.now }
    requires answers { IsByAnswers (shift base.now held.now next.now) }
    requires exact { AreReaders base.now next.now (readers_in readers.now) }
    requires current { AreCurrent base.now held.now (kept_of store.old) }
    requires empty { store.old.slots ≡ [] }
    requires fewer { length listeners.old.items < 2 ^ 64 }
    ensures settled { OnOk result (AreSettled (shift base.now held.now next.now) (staged_of store.new)) }
    ensures kept { SameLines (kept_of store.old) (kept_of store.new) }
    ensures empty { OnErr result (store.new.slots ≡ []) }
    ensures dirty { OnOk result (length store.new.slots ≡ reached base.now held.now next.now) }
    ensures counted { OnOk result (steps.new ≡ steps.old + reached base.now held.now next.now) }
    ensures bound { steps.new ≤ steps.old + reached base.now held.now next.now }
    ensures ready { IfOk result (λ ready. IsReady base.now held.now next.now (map (λ l. state l) listeners.old.items) (map (λ l. state l) listeners.new.items) (map (λ v. v.items) ready.lists.items) ready.count) }
    ensures quiet { map (λ l. hearer (state l)) listeners.new.items ≡ map (λ l. hearer (state l)) listeners.old.items }
{
    let tasks = begin_answers(alloc, base, held, next, readers)?;
    let ready = prepare_change(
        alloc, base, code, held, next, readers, tasks, store, steps, listeners,
    )?;
    Ok(ready)
}

/// Stages what a case with other lists reaches, and finds its readers anew. Without memory nothing is staged.
fn stage_lists<L: Ledger>(
    alloc: Global,
    base: &Rulebase,
    code: &Code,
    held: &Case,
    next: &Case,
    store: &mut Store<L>,
    steps: &mut Steps<L>,
    listeners: &mut Vec<Box<dyn Listener>>,
) -> Result<Regained, NoMemory>
    requires code { rulebase_of code.now ≡ base.now }
    requires before { IsOf base.now held.now }
    requires after { IsOf base.now next.now }
    requires current { AreCurrent base.now held.now (kept_of store.old) }
    requires empty { store.old.slots ≡ [] }
    requires fewer { length listeners.old.items < 2 ^ 64 }
    ensures current { OnOk result (AreCurrent base.now next.now (laid_over next.now (kept_of store.new) (staged_of store.new))) }
    ensures exact { IfOk result (λ r. AreReaders base.now next.now (readers_in r.readers)) }
    ensures kept { SameLines (kept_of store.old) (kept_of store.new) }
    ensures empty { OnErr result (store.new.slots ≡ []) }
    ensures dirty { OnOk result (length store.new.slots ≡ reached base.now held.now next.now) }
    ensures counted { OnOk result (steps.new ≡ steps.old + reached base.now held.now next.now) }
    ensures bound { steps.new ≤ steps.old + reached base.now held.now next.now }
    ensures ready { IfOk result (λ r. IsReady base.now held.now next.now (map (λ l. state l) listeners.old.items) (map (λ l. state l) listeners.new.items) (map (λ v. v.items) r.ready.lists.items) r.ready.count) }
    ensures quiet { map (λ l. hearer (state l)) listeners.new.items ≡ map (λ l. hearer (state l)) listeners.old.items }
{
    let readers = Index::of(alloc, base, next)?;
    let tasks = begin(alloc, base, held, next, &readers)?;
    let ready = prepare_change(
        alloc, base, code, held, next, &readers, tasks, store, steps, listeners,
    )?;
    Ok(Regained { ready, readers })
}

/// Keeps what is staged, where the same instances are live. It takes no memory, and tells how many slots were staged.
fn keep_answers<L: Ledger>(base: &Rulebase, held: &Case, next: &Case, store: &mut Store<L>) -> u64
    requires before { IsOf base.now held.now }
    requires after { IsOf base.now next.now }
    requires answers { IsByAnswers (shift base.now held.now next.now) }
    requires held { AreCurrent base.now held.now (kept_of store.old) }
    requires settled { AreSettled (shift base.now held.now next.now) (staged_of store.old) }
    ensures current { AreCurrent base.now next.now (kept_of store.new) }
    ensures dirty { result ≡ length store.old.slots }
    ensures empty { store.new.slots ≡ [] }
{
    laid_stay_current();
    same_are_current();
    let dirty = store.slots().len() as u64;
    store.commit();
    dirty
}

/// Keeps what is staged, and drops the lines of what isn't live any more. It takes no memory, and tells how many slots were
/// staged.
fn keep_change<L: Ledger>(base: &Rulebase, next: &Case, store: &mut Store<L>) -> u64
    requires current { AreCurrent base.now next.now (laid_over next.now (kept_of store.old) (staged_of store.old)) }
    ensures current { AreCurrent base.now next.now (kept_of store.new) }
    ensures dirty { result ≡ length store.old.slots }
    ensures empty { store.new.slots ≡ [] }
{
    same_are_current();
    let dirty = store.slots().len() as u64;
    store.commit();
    store.keep_live(next);
    dirty
}
