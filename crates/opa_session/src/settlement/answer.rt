// One answer is set or taken away: only what it reaches is derived.
ghost use Rattle.std.specs.Prelude.{◌≡◌, ◌+◌, ◌≤◌, false, [], length, is_some, OnOk};
ghost use Rattle.opa_mean.specs.Reached.Settling.{AreCurrent, AreReaders, AreSettled, HaveKinds, SameLines, laid, reached, shift};
ghost use Rattle.opa_mean.specs.Rulebases.{IsOf};
ghost use Rattle.opa_session.specs.Settlement.Tasks.{AreInOrder};
ghost use Rattle.opa_session.specs.Store.Nexts.{case_with};
ghost use Rattle.opa_session.specs.Store.Stores.{kept_of, staged_of};
ghost use Rattle.opa_tree.specs.Rules.{rule_of};

use crate::settlement::settling::settle;
use crate::settlement::starting::start_answer;
use crate::store::{Answered, Store};
use opa_io::{NoMemory, Steps};
use opa_mean::{Derive, Readers};
use opa_tree::Rulebase;
use std::alloc::Global;
use std::sync::ledger::Ledger;

/// Derives what an answer reaches, over the case with it. The readers are those of the case that is held.
pub fn settle_answer<D: Derive, R: Readers, L: Ledger>(
    alloc: Global,
    base: &Rulebase,
    code: &D,
    readers: &R,
    next: &Answered<'_>,
    store: &mut Store<L>,
    steps: &mut Steps<L>,
) -> Result<(), NoMemory>
    requires code { D.stands_for code.now ≡ base.now }
    requires kinds { HaveKinds base.now }
    requires before { IsOf base.now next.now.case.now }
    requires after { IsOf base.now (case_with next.now) }
    requires unruled { is_some (rule_of base.now.rules next.now.attr) ≡ false }
    requires readers { AreReaders base.now next.now.case.now (R.readers readers.now) }
    requires current { AreCurrent base.now next.now.case.now (kept_of store.old) }
    requires empty { store.old.slots ≡ [] }
    ensures settled { OnOk result (AreSettled (shift base.now next.now.case.now (case_with next.now))
        (staged_of store.new)) }
    ensures current { OnOk result (AreCurrent base.now (case_with next.now)
        (laid (kept_of store.new) (staged_of store.new))) }
    ensures readers { AreReaders base.now (case_with next.now) (R.readers readers.now) }
    ensures order { AreInOrder base.now store.new.slots }
    ensures kept { SameLines (kept_of store.old) (kept_of store.new) }
    ensures dirty { OnOk result (length store.new.slots ≡ reached
        (shift base.now next.now.case.now (case_with next.now))) }
    ensures counted { OnOk result (steps.new ≡ steps.old + reached
        (shift base.now next.now.case.now (case_with next.now))) }
    ensures bound { steps.new ≤ steps.old + reached (shift base.now next.now.case.now (case_with next.now)) }
{
    let tasks = start_answer(alloc, base, readers, next)?;
    settle(
        alloc, base, code, readers, next.case, next, store, tasks, steps,
    )?;
    Ok(())
}
