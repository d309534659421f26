// What is told of a change is made ready before it: all memory is taken first.
ghost use Rattle.std.specs.Prelude.{◌≡◌, ◌<◌, ◌^◌, length, map, IfOk};
ghost use Rattle.std.specs.List.{AllZip};
ghost use Rattle.opa_mean.specs.Reached.Settling.{AreCurrent, AreSettled, shift};
ghost use Rattle.opa_listen.specs.Hearing.{hearer};
ghost use Rattle.opa_listen.specs.Telling.{CanKeep, HasRoomOf, each_watched};
ghost use Rattle.opa_mean.specs.Rulebases.{IsOf};
ghost use Rattle.opa_session.specs.Store.Stores.{kept_of, staged_of};
ghost use Rattle.opa_session.specs.Infer.Ready.{IsReady};
ghost use Rattle.opa_session.specs.Infer.Sessions.{AreChanges};

use crate::infer::laid::{Kept, Laid};
use crate::store::{Next, Store};
use crate::telling::{changes_over, dirty_have_changes};
use opa_case::Case;
use opa_io::NoMemory;
use opa_listen::{Change, Listener, copies, ready_all};
use opa_mean::laid_are_current;
use opa_tree::Rulebase;
use std::alloc::Global;
use std::sync::ledger::Ledger;

/// For each listener what it is told, and how many values differ.
#[derive(Drop)]
pub(crate) struct Ready {
    pub(crate) lists: Vec<Vec<Change>>,
    pub(crate) count: u32,
}

/// Makes ready what is told of staged lines. Nothing else than the listeners' room differs then.
pub(crate) fn made_ready<N: Next, L: Ledger>(
    alloc: Global,
    base: &Rulebase,
    held: &Case,
    next: &N,
    store: &Store<L>,
    listeners: &mut Vec<Box<dyn Listener>>,
) -> Result<Ready, NoMemory>
    requires before { IsOf base.now held.now }
    requires after { IsOf base.now (N.next next.now) }
    requires current { AreCurrent base.now held.now (kept_of store.now) }
    requires settled { AreSettled (shift base.now held.now (N.next next.now)) (staged_of store.now) }
    requires fewer { length listeners.old.items < 2 ^ 64 }
    ensures ready { IfOk result (λ ready. IsReady base.now held.now (N.next next.now) (map (λ l. state l) listeners.old.items) (map (λ l. state l) listeners.new.items) (map (λ v. v.items) ready.lists.items) ready.count) }
    ensures quiet { map (λ l. hearer (state l)) listeners.new.items ≡ map (λ l. hearer (state l)) listeners.old.items }
{
    let changes = staged_changes(alloc, base, held, next, store)?;
    let count = count_of(changes.as_slice())?;
    let lists = readied(alloc, listeners, changes.as_slice())?;
    Ok(Ready { lists, count })
}

/// What differs between the kept lines and the staged ones.
fn staged_changes<N: Next, L: Ledger>(
    alloc: Global,
    base: &Rulebase,
    held: &Case,
    next: &N,
    store: &Store<L>,
) -> Result<Vec<Change>, NoMemory>
    requires before { IsOf base.now held.now }
    requires after { IsOf base.now (N.next next.now) }
    requires current { AreCurrent base.now held.now (kept_of store.now) }
    requires settled { AreSettled (shift base.now held.now (N.next next.now)) (staged_of store.now) }
    ensures { IfOk result (λ told. AreChanges base.now held.now (N.next next.now) told.items) }
{
    dirty_have_changes();
    laid_are_current();
    let old = Kept::new(base, held, store);
    let new = Laid::new(base, next, store);
    let slots = store.slots();
    let told = changes_over(alloc, &old, &new, slots)?;
    Ok(told)
}

/// How many changes there are.
fn count_of(changes: &[Change]) -> Result<u32, NoMemory>
    ensures { IfOk result (λ n. n ≡ length changes.now) }
{
    match u32::try_from(changes.len()) {
        Ok(count) => Ok(count),
        Err(_) => Err(NoMemory),
    }
}

/// For each listener those of the changes that it watches, for which it has room then. Nothing else than their room differs.
#[tactic(auto, using(opa_listen::proofs::Readiness::ready_can_tell))]
fn readied(
    alloc: Global,
    listeners: &mut Vec<Box<dyn Listener>>,
    changes: &[Change],
) -> Result<Vec<Vec<Change>>, NoMemory>
    requires fewer { length listeners.old.items < 2 ^ 64 }
    ensures can { IfOk result (λ lists. AllZip CanKeep (map (λ v. v.items) lists.items) (map (λ l. state l) listeners.new.items)) }
    ensures lists { IfOk result (λ lists. map (λ v. v.items) lists.items ≡ each_watched changes.now (map (λ l. state l) listeners.new.items)) }
    ensures room { AllZip HasRoomOf (map (λ l. state l) listeners.old.items) (map (λ l. state l) listeners.new.items) }
{
    ready_all(listeners, changes)?;
    let lists = copies(alloc, listeners, changes)?;
    Ok(lists)
}
