// Lines of the slots of what goes are dropped.
ghost use Rattle.std.specs.Prelude.{◌≡◌, ◌==◌, ◌&&◌, ℕ, [], None, cond};
ghost use Rattle.std.specs.List.{list_any};
ghost use Rattle.std.specs.FinMap as map;
ghost use Rattle.opa_cells.specs.declared.instance.InstanceId.{InstanceId as Instance};
ghost use Rattle.opa_session.specs.Store.Drops.{goes_at, has_slot, slot_at, AreDropped};
ghost use Rattle.opa_session.specs.Store.Owners.{AreOwners};
ghost use Rattle.opa_session.specs.Store.Stores.{kept_of};

use crate::store::entry::Entry;
use crate::store::owners::Owners;
use crate::store::store::Store;
use opa_cells::{Cells, InstanceId};
use opa_mean::owner_of;
use opa_model::AttrId;
use opa_tree::Rulebase;
use std::sync::ledger::Ledger;

impl<L: Ledger> Store<L> {
    /// Takes out the lines of what goes, slot by slot. It takes no memory.
    pub fn drop_slots(
        &mut self,
        base: &Rulebase,
        owners: &Owners,
        went: &[(InstanceId, InstanceId)],
    )
        requires staged { self.old.slots ≡ [] }
        requires owners { AreOwners base.now owners.now }
        ensures kept { AreDropped base.now went.now (kept_of self.old) (kept_of self.new) }
        ensures staged { self.new.slots ≡ [] }
    {
        drop_all(base, owners, &mut self.entries, went);
    }
}

/// Takes out the entries of what goes.
fn drop_all(
    base: &Rulebase,
    owners: &Owners,
    entries: &mut Cells<Entry>,
    went: &[(InstanceId, InstanceId)],
)
    ensures { (a : ℕ) (j : Instance) → map.get entries.new (a, j) ≡ cond (list_any (λ g. goes_at base.now owners.now g.0 a j) went.now) None (map.get entries.old (a, j)) }
{
    for (inst, _) in went {
        drop_of(base, owners, entries, inst);
    }
}

/// Takes out the entries of one instance.
fn drop_of(base: &Rulebase, owners: &Owners, entries: &mut Cells<Entry>, inst: &InstanceId)
    ensures { (a : ℕ) (j : Instance) → map.get entries.new (a, j) ≡ cond (goes_at base.now owners.now inst.now a j) None (map.get entries.old (a, j)) }
{
    let attrs = owners.attributes(inst.entity.0);
    for attr in attrs {
        drop_slot(base, entries, *attr, inst);
    }
}

fn drop_slot(base: &Rulebase, entries: &mut Cells<Entry>, attr: AttrId, inst: &InstanceId)
    ensures { (a : ℕ) (j : Instance) → map.get entries.new (a, j) ≡ cond (a == attr.0 && slot_at base.now inst.now a j) None (map.get entries.old (a, j)) }
{
    if has_slot(base, attr, inst) {
        entries.remove(attr.0, inst);
    }
}

/// Whether the attribute has a rule, and is of the instance's entity: where the instance is live, this is a slot.
pub fn has_slot(base: &Rulebase, attr: AttrId, inst: &InstanceId) -> bool
    ensures { result ≡ has_slot base.now attr inst.now }
{
    inst.entity.0 == owner_of(&base.model, attr) && base.rules.of(attr).is_some()
}
