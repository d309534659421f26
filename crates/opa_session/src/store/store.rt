// Kept and staged lines.
ghost use Rattle.std.specs.Prelude.{◌≡◌, ◌+◌, true, false, is_some, [], ◌∷◌, ◌++◌, IfOk, OnOk, OnErr};
ghost use Rattle.std.specs.Option.{option_copied, option_or};
ghost use Rattle.opa_date.specs.declared.TheConstants.{DAYS};
ghost use Rattle.opa_line.specs.Lines.{StandsFor};
ghost use Rattle.opa_mean.specs.Derivations.{MayDerive, derived};
ghost use Rattle.opa_mean.specs.Given.{base_of};
ghost use Rattle.opa_model.specs.declared.ids.AttrId.{AttrId as Attr};
ghost use Rattle.opa_cells.specs.declared.instance.InstanceId.{InstanceId as Instance};
ghost use Rattle.opa_mean.specs.Reached.Settling.{NoLines, SameLines, Stages, laid, laid_look, is_line_changed};
ghost use Rattle.std.specs.Prelude.{List as Seq};
ghost use Rattle.opa_mean.specs.declared.reached.slot.Slot.{Slot as Each};
ghost use Rattle.opa_session.specs.Store.Stores.{AreListed, are_once, kept_of, staged_of};
ghost use Rattle.opa_case.specs.Cases.{Answer};

use crate::store::differ::lines_differ;
use crate::store::entry::{Entry, abandon_at, commit_at, stage_at};
use crate::store::next::Next;
use crate::store::places::Places;
use opa_case::InstanceId;
use opa_cells::Cells;
use opa_io::{List, NoMemory, Steps, Txt};
use opa_line::Line;
use opa_mean::{Derive, Look, Slot};
use opa_model::{AttrId, EntityId, RelId};
use opa_value::Value;
use std::alloc::Global;
use std::marker::{Model, PhantomData};
use std::sync::ledger::Ledger;

/// Kept and staged lines of slots. A line is staged only by a derivation, and derivations are counted on the ledger's counter.
#[derive(Drop)]
pub struct Store<L: Ledger> {
    pub(crate) entries: Cells<Entry>,
    slots: List<Slot>,
    places: Places,
    counted: PhantomData<L>,
}

impl<L: Ledger> Model for Store<L> {
    ghost use Rattle.std.specs.Prelude.{◌≡◌, true};
    ghost use Rattle.opa_session.specs.Store.Stores.{StoreView, AreListed, are_once, coded_store, staged_lines};
    ghost use Rattle.opa_session.specs.contracts.store.entry.Entry as entry;
    ghost use Rattle.opa_mean.specs.contracts.reached.slot.Slot as slot;

    ghost Value = { StoreView };

    ghost coded = { coded_store entry.the_row.coded slot.the_row.coded };

    ghost view = { λ s. record { entries = s.entries; slots = s.slots } };

    ghost invariant = { λ s. AreListed (staged_lines s.entries) s.slots × (are_once s.slots ≡ true) };
}

impl<L: Ledger> Store<L> {
    pub fn new(alloc: Global) -> Store<L>
        ensures kept { NoLines (kept_of result) }
        ensures staged { result.slots ≡ [] }
    {
        Store {
            entries: Cells::new(alloc),
            slots: List::new(alloc),
            places: Places::new(alloc),
            counted: PhantomData,
        }
    }

    /// The kept line.
    pub fn get(&self, attr: AttrId, inst: &InstanceId) -> Option<&Line<Value>>
        ensures { option_copied result ≡ kept_of self.now attr inst.now }
    {
        match self.entries.get(attr.0, inst) {
            Some(entry) => entry.kept.as_ref(),
            None => None,
        }
    }

    pub fn staged(&self, attr: AttrId, inst: &InstanceId) -> Option<&Line<Value>>
        ensures { option_copied result ≡ staged_of self.now attr inst.now }
    {
        match self.entries.get(attr.0, inst) {
            Some(entry) => entry.staged.as_ref(),
            None => None,
        }
    }

    /// The slots that have a staged line, each once, in the order in which their lines were staged.
    pub fn slots(&self) -> &[Slot]
        ensures slots { result.now ≡ self.now.slots }
        ensures listed { AreListed (staged_of self.now) result.now }
        ensures once { are_once result.now ≡ true }
    {
        self.slots.as_slice()
    }

    /// Where an instance may stand in the list of its container.
    pub(crate) fn place(&self, inst: &InstanceId) -> Option<usize> {
        self.places.of(inst)
    }

    /// Notes where names of an entity's instances stand, of which so many in front stand as before.
    pub(crate) fn note(
        &mut self,
        alloc: Global,
        entity: EntityId,
        names: &[Txt],
        same: usize,
    ) -> Result<(), NoMemory>
        ensures { self.new ≡ self.old }
    {
        self.places.note(alloc, entity, names, same)?;
        Ok(())
    }

    /// The staged line, or else the kept one.
    fn laid(&self, attr: AttrId, inst: &InstanceId) -> Option<&Line<Value>>
        ensures { option_copied result ≡ option_or (staged_of self.now attr inst.now) (kept_of self.now attr inst.now) }
    {
        match self.staged(attr, inst) {
            Some(line) => Some(line),
            None => self.get(attr, inst),
        }
    }

    /// Derives the line of a slot and stages it: the line differs from the kept one, or doesn't.
    pub fn derive<D: Derive, N: Next>(
        &mut self,
        alloc: Global,
        slot: Slot,
        code: &D,
        next: &N,
        steps: &mut Steps<L>,
    ) -> Result<bool, NoMemory>
        requires may { MayDerive (base_of (D.stands_for code.now))
            (laid_look (N.next next.now) (kept_of self.old) (staged_of self.old)) slot.attr slot.inst }
        requires once { is_some (staged_of self.old slot.attr slot.inst) ≡ false }
        ensures derived { IfOk result (λ differs. (line : Answer) ×
            StandsFor DAYS (derived (base_of (D.stands_for code.now))
            (laid_look (N.next next.now) (kept_of self.old) (staged_of self.old)) slot.attr slot.inst) line
            × Stages (staged_of self.old) (staged_of self.new) slot.attr slot.inst line × (differs ≡ is_line_changed (kept_of self.old) slot.attr slot.inst line)) }
        ensures kept { SameLines (kept_of self.old) (kept_of self.new) }
        ensures slots { OnOk result (self.new.slots ≡ self.old.slots ++ slot ∷ []) }
        ensures unchanged { OnErr result (self.new ≡ self.old) }
        ensures counted { OnOk result (steps.new ≡ steps.old + 1) }
        ensures uncounted { OnErr result (steps.new ≡ steps.old) }
    {
        let line = self.evaluated(alloc, &slot, code, next)?;
        let differs = lines_differ(alloc, self.get(slot.attr, &slot.inst), Some(&line))?;
        self.stage(alloc, slot, line)?;
        steps.tick();
        Ok(differs)
    }

    /// The line of a slot over what is looked up.
    fn evaluated<D: Derive, N: Next>(
        &self,
        alloc: Global,
        slot: &Slot,
        code: &D,
        next: &N,
    ) -> Result<Line<Value>, NoMemory>
        requires { MayDerive (base_of (D.stands_for code.now)) (laid_look (N.next next.now) (kept_of self.now) (staged_of self.now)) slot.now.attr slot.now.inst }
        ensures { IfOk result (StandsFor DAYS (derived (base_of (D.stands_for code.now)) (laid_look (N.next next.now) (kept_of self.now) (staged_of self.now)) slot.now.attr slot.now.inst)) }
    {
        let look = LaidLook { next, store: self };
        code.evaluate(alloc, slot.attr, &slot.inst, &look)
    }

    /// Stages the line that was derived of a slot.
    fn stage(&mut self, alloc: Global, slot: Slot, line: Line<Value>) -> Result<(), NoMemory>
        requires { is_some (staged_of self.old slot.attr slot.inst) ≡ false }
        ensures staged { OnOk result (Stages (staged_of self.old) (staged_of self.new) slot.attr slot.inst line) }
        ensures kept { SameLines (kept_of self.old) (kept_of self.new) }
        ensures slots { OnOk result (self.new.slots ≡ self.old.slots ++ slot ∷ []) }
        ensures unchanged { OnErr result (self.new ≡ self.old) }
    {
        let inst = slot.inst.copy(alloc)?;
        let number = slot.attr.0;
        self.slots.push(slot)?;
        match stage_at(&mut self.entries, number, inst, line) {
            Ok(()) => Ok(()),
            Err(_) => {
                drop_last(&mut self.slots);
                Err(NoMemory)
            }
        }
    }

    /// Keeps what is staged. It takes no memory.
    pub fn commit(&mut self)
        ensures kept { SameLines (laid (kept_of self.old) (staged_of self.old)) (kept_of self.new) }
        ensures staged { self.new.slots ≡ [] }
    {
        while let Some(slot) = self.slots.pop() {
            commit_at(&mut self.entries, slot.attr.0, &slot.inst);
        }
    }

    /// Drops what is staged. It takes no memory.
    pub fn abandon(&mut self)
        ensures kept { SameLines (kept_of self.old) (kept_of self.new) }
        ensures staged { self.new.slots ≡ [] }
    {
        while let Some(slot) = self.slots.pop() {
            abandon_at(&mut self.entries, slot.attr.0, &slot.inst);
        }
    }
}

/// Takes the last slot away.
fn drop_last(slots: &mut List<Slot>)
    ensures { (some : Seq Each) (last : Each) → slots.old ≡ some ++ last ∷ [] → slots.new ≡ some }
{
    slots.pop();
}

/// Staged lines, or else kept ones, over a case that comes.
#[derive(Clone, Copy)]
struct LaidLook<'a, N: Next, L: Ledger> {
    next: &'a N,
    store: &'a Store<L>,
}

impl<'a, N: Next, L: Ledger> Look for LaidLook<'a, N, L> {
    ghost use Rattle.opa_mean.specs.Reached.Settling.{laid_look};
    ghost use Rattle.opa_session.specs.Store.Stores.{kept_of, staged_of};

    ghost looks = { λ l. laid_look (N.next l.next.now) (kept_of l.store.now) (staged_of l.store.now) };

    fn line(&self, attr: AttrId, inst: &InstanceId) -> Option<&Line<Value>> {
        match self.store.laid(attr, inst) {
            Some(line) => Some(line),
            None => self.next.answer_of(attr, inst),
        }
    }

    fn members(&self, rel: RelId, inst: &InstanceId) -> Option<&List<Txt>> {
        self.next.list_of(rel, inst)
    }

    fn container(&self, inst: &InstanceId) -> Option<&InstanceId> {
        self.next.container_of(inst)
    }
}
