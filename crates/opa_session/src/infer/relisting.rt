// A list is set, or forgotten.
ghost use Rattle.std.specs.Prelude.{◌≡◌, ◌≢◌, ◌<◌, ◌≤◌, ◌+◌, ◌^◌, [], length, map, Ok, Err, IfOk, IfErr, OnOk, OnErr};
ghost use Rattle.opa_case.specs.Cases.{CaseView};
ghost use Rattle.opa_case.specs.Live.{Population};
ghost use Rattle.opa_case.specs.Turns.{Turns};
ghost use Rattle.opa_case.specs.declared.change.Refusal.{Refusal as Refused};
ghost use Rattle.opa_case.specs.declared.change.Refusal.TheVariants as refusals;
ghost use Rattle.opa_cells.specs.declared.instance.InstanceId.{InstanceId as InstanceView};
ghost use Rattle.opa_mean.specs.Reached.Settling.{AreCurrent, AreReaders, AreSettled, IsShift, Shift};
ghost use Rattle.opa_session.specs.Infer.Relisting.{IsPrepared, relists};
ghost use Rattle.opa_session.specs.Infer.Sessions.{rules_of, held_of, reached_of, reached, Tells};
ghost use Rattle.opa_listen.specs.Hearing.{hearer};
ghost use Rattle.opa_mean.specs.Rulebases.{IsOf};
ghost use Rattle.opa_model.specs.Models.{HasRelation};
ghost use Rattle.opa_session.specs.Readers.Indexes.{readers_in};
ghost use Rattle.opa_session.specs.Store.Owners.{AreOwners};
ghost use Rattle.opa_session.specs.Store.Stores.{kept_of, staged_of};

use crate::infer::listing::{Prepared, prepare_list};
use crate::infer::session::Session;
use crate::readers::{Index, Renewal, same_are_readers};
use crate::settlement::same_are_current;
use crate::store::{Owners, Store, dropped_are_current};
use opa_case::{Case, InstanceId, Moves, Refusal};
use opa_io::{List, NoMemory, Steps, Txt};
use opa_listen::{Listener, tell};
use opa_model::RelId;
use opa_tree::Rulebase;
use std::alloc::Global;
use std::sync::ledger::Ledger;

impl<L: Ledger> Session<L> {
    /// Sets a list, or forgets it where there are no names, and tells each listener of the changes; or refuses it with the session
    /// and what listeners keep as they were. No case is copied, and the case is changed last of all that may want memory.
    pub(crate) fn put_names(
        &mut self,
        alloc: Global,
        rel: RelId,
        inst: &InstanceId,
        names: Option<List<Txt>>,
        listeners: &mut Vec<Box<dyn Listener>>,
        steps: &mut Steps<L>,
    ) -> Result<u32, Refusal>
        requires declared { HasRelation (rules_of self.old).model rel }
        requires fewer { length listeners.old.items < 2 ^ 64 }
        ensures ok { OnOk result (relists (rules_of self.old) (held_of self.old) rel inst.now names ≡ Ok (held_of self.new)) }
        ensures reached { OnOk result (reached_of self.new ≡ reached (rules_of self.old) (held_of self.old) (held_of self.new)) }
        ensures told { IfOk result (Tells (rules_of self.old) (held_of self.old) (held_of self.new) (map (λ l. hearer (state l)) listeners.old.items) (map (λ l. hearer (state l)) listeners.new.items)) }
        ensures err { IfErr result (λ e. e ≢ refusals.NoMemory → relists (rules_of self.old) (held_of self.old) rel inst.now names ≡ Err e) }
        ensures case { OnErr result (held_of self.new ≡ held_of self.old) }
        ensures still { OnErr result (reached_of self.new ≡ reached_of self.old) }
        ensures quiet { OnErr result (map (λ l. hearer (state l)) listeners.new.items ≡ map (λ l. hearer (state l)) listeners.old.items) }
        ensures base { rules_of self.new ≡ rules_of self.old }
        ensures counted { OnOk result (steps.new ≡ steps.old + reached (rules_of self.old) (held_of self.old) (held_of self.new)) }
        ensures bound { (c : CaseView) → relists (rules_of self.old) (held_of self.old) rel inst.now names ≡ Ok c → steps.new ≤ steps.old + reached (rules_of self.old) (held_of self.old) c }
        ensures uncounted { (e : Refused) → relists (rules_of self.old) (held_of self.old) rel inst.now names ≡ Err e → steps.new ≡ steps.old }
    {
        // The count shows the model's form.
        let _count = self.base.model.attribute_count();
        same_are_current();
        let prepared = prepare_list(
            alloc,
            &self.base,
            &self.owners,
            &self.code,
            &self.readers,
            &self.case,
            rel,
            inst,
            names.as_ref(),
            &mut self.store,
            steps,
            listeners,
        )?;
        let Prepared {
            ready,
            moves,
            renewal,
        } = prepared;
        let dirty = keep_list(
            alloc,
            &self.base,
            &self.owners,
            &mut self.case,
            &mut self.readers,
            rel,
            inst,
            names,
            moves,
            &renewal,
            &mut self.store,
        )?;
        self.dirty = dirty;
        tell(listeners, ready.lists);
        Ok(ready.count)
    }
}

/// Changes the case and the readers, and keeps what is staged; without memory the case and the readers stay, and nothing is
/// staged any more. It tells how many slots were staged.
fn keep_list<L: Ledger>(
    alloc: Global,
    base: &Rulebase,
    owners: &Owners,
    case: &mut Case,
    readers: &mut Index,
    rel: RelId,
    inst: &InstanceId,
    names: Option<List<Txt>>,
    moves: Moves,
    renewal: &Renewal,
    store: &mut Store<L>,
) -> Result<u64, NoMemory>
    requires declared { HasRelation base.now.model rel }
    requires fits { IsOf base.now case.old }
    requires owners { AreOwners base.now owners.now }
    requires exact { AreReaders base.now case.old (readers_in readers.old) }
    requires held { AreCurrent base.now case.old (kept_of store.old) }
    requires prepared { IsPrepared base.now case.old rel inst.now names (readers_in readers.old) (staged_of store.old) moves renewal.now }
    ensures case { OnOk result (relists base.now case.old rel inst.now names ≡ Ok case.new) }
    ensures fits { OnOk result (IsOf base.now case.new) }
    ensures current { OnOk result (AreCurrent base.now case.new (kept_of store.new)) }
    ensures exact { OnOk result (AreReaders base.now case.new (readers_in readers.new)) }
    ensures dirty { IfOk result (λ n. n ≡ length store.old.slots) }
    ensures unchanged { OnErr result (case.new ≡ case.old) }
    ensures held { OnErr result (AreCurrent base.now case.old (kept_of store.new)) }
    ensures still { OnErr result (AreReaders base.now case.old (readers_in readers.new)) }
    ensures empty { store.new.slots ≡ [] }
{
    same_are_current();
    same_are_readers();
    if readers.add(alloc, renewal).is_err() {
        store.abandon();
        return Err(NoMemory);
    }
    match case.write_list(&base.model, &base.ruled, rel, inst, names, moves) {
        Ok(went) => {
            readers.take_out(renewal);
            let dirty = keep_staged(base, owners, store, &went);
            Ok(dirty)
        }
        Err(_) => {
            readers.take_back(renewal);
            store.abandon();
            Err(NoMemory)
        }
    }
}

/// Keeps what is staged, and drops the lines of what goes. It takes no memory, and tells how many slots were staged.
fn keep_staged<L: Ledger>(
    base: &Rulebase,
    owners: &Owners,
    store: &mut Store<L>,
    went: &[(InstanceId, InstanceId)],
) -> u64
    requires { AreOwners base.now owners.now }
    ensures current { (s : Shift) (come : Population) (i : InstanceView) → s.rules ≡ base.now → IsShift s → Turns s.old.live s.new.live went.now come i → AreCurrent s.rules s.old (kept_of store.old) → AreSettled s (staged_of store.old) → AreCurrent s.rules s.new (kept_of store.new) }
    ensures dirty { result ≡ length store.old.slots }
    ensures empty { store.new.slots ≡ [] }
{
    dropped_are_current();
    let dirty = store.slots().len() as u64;
    store.commit();
    store.drop_slots(base, owners, went);
    dirty
}
