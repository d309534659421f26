// What is told of slots that are handed in.
ghost use Rattle.std.specs.Prelude.{◌≡◌, IfOk};
ghost use Rattle.std.specs.List.{AllZip};
ghost use Rattle.opa_case.specs.Cases.{CaseView};
ghost use Rattle.opa_session.specs.Telling.Among.{AreChosen, AreTold, HaveChanges};
ghost use Rattle.opa_session.specs.Telling.Telling.{TellsOf};
ghost use Rattle.opa_session.specs.declared.telling.told_attrs.ToldAttrs.{ToldAttrs as ToldView};
ghost use Rattle.opa_mean.specs.Reached.Slots.{pairs_of};
ghost use Rattle.opa_mean.specs.Changes as meant;
ghost use Rattle.opa_mean.specs.Given.{base_of, facts_of};

use crate::telling::attrs::attributes_of;
use crate::telling::instances::instances_among;
use crate::telling::lined::{HeldLines, Lined};
use crate::telling::marks::{marked_among, marks_of};
use crate::telling::sought::sought_by;
use crate::telling::tell::lined_changes;
use crate::telling::told_attrs::ToldAttrs;
use crate::telling::walk::lined_slots;
use opa_case::InstanceId;
use opa_io::{List, NoMemory};
use opa_listen::Change;
use opa_mean::{Held, Slot};
use opa_model::AttrId;
use std::alloc::Global;

/// The same as `changes`, where the slots that may differ are known: they alone are looked at. Where several have one attribute,
/// the lists that contain them are gone through besides. Where they don't stand by rank and then in declared order, all slots
/// are.
pub fn changes_among<H: Held, K: Held>(
    alloc: Global,
    old: &H,
    new: &K,
    slots: &[Slot],
) -> Result<Vec<Change>, NoMemory>
    requires same { H.rules old.now ≡ K.rules new.now }
    requires slots { HaveChanges (K.rules new.now) (H.held old.now) (K.held new.now) (pairs_of slots.now) }
    ensures { IfOk result (λ told. AllZip (TellsOf (K.rules new.now).model)
        (meant.changes (base_of (K.rules new.now)) (facts_of (H.held old.now)) (facts_of (K.held new.now)))
        told.items) }
{
    let before = HeldLines { source: old };
    let after = HeldLines { source: new };
    let told = changes_over(alloc, &before, &after, slots)?;
    Ok(told)
}

/// The same by what tells lines.
pub fn changes_over<H: Lined, K: Lined>(
    alloc: Global,
    old: &H,
    new: &K,
    slots: &[Slot],
) -> Result<Vec<Change>, NoMemory>
    requires same { H.rules old.now ≡ K.rules new.now }
    requires slots { HaveChanges (K.rules new.now) (H.over old.now) (K.over new.now) (pairs_of slots.now) }
    ensures { IfOk result (λ told. AllZip (TellsOf (K.rules new.now).model)
        (meant.changes (base_of (K.rules new.now)) (facts_of (H.over old.now)) (facts_of (K.over new.now)))
        told.items) }
{
    let chosen = chosen_or_all(alloc, new, slots)?;
    let items = chosen.as_slice();
    let told = lined_changes(alloc, old, new, items)?;
    Ok(told)
}

/// The slots in their order: those that are handed in, or all where these stand in another one.
fn chosen_or_all<K: Lined>(
    alloc: Global,
    held: &K,
    slots: &[Slot],
) -> Result<List<(AttrId, InstanceId)>, NoMemory>
    ensures { (c : CaseView) → HaveChanges (K.rules held.now) c (K.over held.now) (pairs_of slots.now) → IfOk result (AreChosen (K.rules held.now) c (K.over held.now)) }
{
    let base = held.base();
    let found = attributes_of(alloc, base, slots)?;
    match found {
        None => {
            let all = lined_slots(alloc, held)?;
            Ok(all)
        }
        Some(attrs) => {
            let chosen = chosen_slots(alloc, held, slots, &attrs)?;
            Ok(chosen)
        }
    }
}

/// The slots in their order: those that are handed in, where no two have one attribute.
fn chosen_slots<K: Lined>(
    alloc: Global,
    held: &K,
    slots: &[Slot],
    told: &ToldAttrs,
) -> Result<List<(AttrId, InstanceId)>, NoMemory>
    requires { AreTold (base_of (K.rules held.now)) slots.now told.now }
    ensures { (c : CaseView) → HaveChanges (K.rules held.now) c (K.over held.now) (pairs_of slots.now) → IfOk result (AreChosen (K.rules held.now) c (K.over held.now)) }
{
    if told.single {
        let _base = held.base();
        let all = as_pairs(alloc, slots)?;
        Ok(all)
    } else {
        let attrs = told.attrs.as_slice();
        let all = marked_slots(alloc, held, slots, attrs)?;
        Ok(all)
    }
}

/// The slots in the order of their attributes, and then in instance order.
fn marked_slots<K: Lined>(
    alloc: Global,
    held: &K,
    slots: &[Slot],
    attrs: &[AttrId],
) -> Result<List<(AttrId, InstanceId)>, NoMemory>
    ensures { (c : CaseView) (told : ToldView) → told.attrs ≡ attrs.now → AreTold (base_of (K.rules held.now)) slots.now told → HaveChanges (K.rules held.now) c (K.over held.now) (pairs_of slots.now) → IfOk result (AreChosen (K.rules held.now) c (K.over held.now)) }
{
    let base = held.base();
    let sought = sought_by(alloc, held, slots)?;
    let live = instances_among(alloc, held, Some(&sought))?;
    let marks = marks_of(alloc, slots)?;
    let lists = live.as_slice();
    let all = marked_among(alloc, &base.model, lists, &marks, attrs)?;
    Ok(all)
}

fn as_pairs(alloc: Global, slots: &[Slot]) -> Result<List<(AttrId, InstanceId)>, NoMemory>
    ensures { IfOk result (λ all. all ≡ pairs_of slots.now) }
{
    let mut all = List::new(alloc);
    for slot in slots {
        let inst = slot.inst.copy(alloc)?;
        all.push((slot.attr, inst))?;
    }
    Ok(all)
}
