// The slots that another case makes new.
ghost use Rattle.std.specs.Prelude.{◌≡◌, ◌∷◌, ◌++◌, [], true, IfOk, OnOk};
ghost use Rattle.opa_session.specs.Telling.Reaching.{AreSlots};
ghost use Rattle.opa_mean.specs.Reached.Slots.{pairs_of};
ghost use Rattle.opa_mean.specs.Changes.{slots as slots_of};
ghost use Rattle.opa_mean.specs.Given.{base_of, facts_of};
ghost use Rattle.opa_mean.specs.Rulebases.{IsOf};
ghost use Rattle.opa_mean.specs.Slots as place;
ghost use Rattle.opa_session.specs.Readers.Renewing.{fresh_among as those};

use crate::telling::{is_fresh, live_slots};
use opa_case::{Case, InstanceId};
use opa_io::{List, NoMemory};
use opa_mean::Slot;
use opa_model::AttrId;
use opa_tree::Rulebase;
use std::alloc::Global;

/// The slots of the coming case whose instance wasn't live in the same container before, or whose rule can look at something
/// else, in the order of slots.
pub fn fresh_slots(
    alloc: Global,
    base: &Rulebase,
    old: &Case,
    new: &Case,
) -> Result<List<Slot>, NoMemory>
    requires before { IsOf base.now old.now }
    requires after { IsOf base.now new.now }
    ensures { IfOk result (λ found. pairs_of found ≡ those base.now old.now new.now
        (slots_of (base_of base.now) (facts_of new.now))) }
{
    let all = live_slots(alloc, base, new)?;
    let slots = all.as_slice();
    let found = fresh_of(alloc, base, old, new, slots)?;
    Ok(found)
}

/// Of some slots those that are fresh.
fn fresh_of(
    alloc: Global,
    base: &Rulebase,
    old: &Case,
    new: &Case,
    slots: &[(AttrId, InstanceId)],
) -> Result<List<Slot>, NoMemory>
    requires before { IsOf base.now old.now }
    requires after { IsOf base.now new.now }
    requires slots { AreSlots base.now new.now slots.now }
    ensures { IfOk result (λ found. pairs_of found ≡ those base.now old.now new.now slots.now) }
{
    let mut found = List::new(alloc);
    for (attr, inst) in slots {
        add_fresh(alloc, base, old, new, *attr, inst, &mut found)?;
    }
    Ok(found)
}

/// Adds a slot, where it is fresh.
fn add_fresh(
    alloc: Global,
    base: &Rulebase,
    old: &Case,
    new: &Case,
    attr: AttrId,
    inst: &InstanceId,
    found: &mut List<Slot>,
) -> Result<(), NoMemory>
    requires before { IsOf base.now old.now }
    requires after { IsOf base.now new.now }
    requires slot { place.is_slot base.now new.now attr inst.now ≡ true }
    ensures { OnOk result (pairs_of found.new ≡ pairs_of found.old ++ those base.now old.now new.now ((attr, inst.now) ∷ [])) }
{
    let fresh = is_fresh(alloc, base, old, new, attr, inst)?;
    if fresh {
        let inst = inst.copy(alloc)?;
        found.push(Slot { attr, inst })?;
        Ok(())
    } else {
        Ok(())
    }
}
