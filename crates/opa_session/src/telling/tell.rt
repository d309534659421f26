// What is told of a change.
ghost use Rattle.std.specs.Prelude.{◌≡◌, ◌<◌, ◌++◌, true, List as Seq, [], IfOk, OnOk};
ghost use Rattle.std.specs.List.{AllZip, cons_option};
ghost use Rattle.opa_session.specs.Telling.Reaching.{AreSlots};
ghost use Rattle.opa_session.specs.Telling.Telling.{TellsOf, TellsAny, changes_among, moved};
ghost use Rattle.opa_date.specs.declared.TheConstants.{DAYS};
ghost use Rattle.opa_listen.specs.Days.{IsInCalendar};
ghost use Rattle.opa_mean.specs.Changes as meant;
ghost use Rattle.opa_mean.specs.Given.{base_of, facts_of};
ghost use Rattle.opa_mean.specs.Holding.{held_value};
ghost use Rattle.opa_mean.specs.Slots as place;
ghost use Rattle.opa_model.specs.Models.{HasAttribute};

use crate::telling::lined::{HeldLines, Lined};
use crate::telling::lines::{first_day, held_on};
use crate::telling::walk::slots;
use opa_case::InstanceId;
use opa_io::NoMemory;
use opa_listen::Change;
use opa_mean::Held;
use opa_model::{AttrId, Model};
use opa_value::Value;
use std::alloc::Global;

/// The changes of live slots: each slot whose line differs, with the first day of difference and both values there. They stand
/// by rank, then in declared order, then in instance order. What wasn't live before was unknown on every day.
pub fn changes<H: Held, K: Held>(alloc: Global, old: &H, new: &K) -> Result<Vec<Change>, NoMemory>
    requires same { H.rules old.now ≡ K.rules new.now }
    ensures { IfOk result (λ told. AllZip (TellsOf (K.rules new.now).model)
        (meant.changes (base_of (K.rules new.now)) (facts_of (H.held old.now)) (facts_of (K.held new.now)))
        told.items) }
{
    let _case = new.case();
    let all = slots(alloc, new)?;
    let items = all.as_slice();
    let told = changes_of(alloc, old, new, items)?;
    Ok(told)
}

/// The changes of slots, in their order.
fn changes_of<H: Held, K: Held>(
    alloc: Global,
    old: &H,
    new: &K,
    slots: &[(AttrId, InstanceId)],
) -> Result<Vec<Change>, NoMemory>
    requires same { H.rules old.now ≡ K.rules new.now }
    requires slots { AreSlots (K.rules new.now) (K.held new.now) slots.now }
    ensures { IfOk result (λ told. AllZip (TellsOf (K.rules new.now).model) (changes_among (base_of (K.rules new.now)) (facts_of (H.held old.now)) (facts_of (K.held new.now)) slots.now) told.items) }
{
    let before = HeldLines { source: old };
    let after = HeldLines { source: new };
    let told = lined_changes(alloc, &before, &after, slots)?;
    Ok(told)
}

/// The same, by what tells lines.
pub(crate) fn lined_changes<H: Lined, K: Lined>(
    alloc: Global,
    old: &H,
    new: &K,
    slots: &[(AttrId, InstanceId)],
) -> Result<Vec<Change>, NoMemory>
    requires same { H.rules old.now ≡ K.rules new.now }
    requires slots { AreSlots (K.rules new.now) (K.over new.now) slots.now }
    ensures { IfOk result (λ told. AllZip (TellsOf (K.rules new.now).model) (changes_among (base_of (K.rules new.now)) (facts_of (H.over old.now)) (facts_of (K.over new.now)) slots.now) told.items) }
{
    let mut told = Vec::new(alloc);
    for (attr, inst) in slots {
        add_change(alloc, old, new, *attr, inst, &mut told)?;
    }
    Ok(told)
}

/// Adds the change of a slot, where its line differs.
fn add_change<H: Lined, K: Lined>(
    alloc: Global,
    old: &H,
    new: &K,
    attr: AttrId,
    inst: &InstanceId,
    told: &mut Vec<Change>,
) -> Result<(), NoMemory>
    requires same { H.rules old.now ≡ K.rules new.now }
    requires slot { place.is_slot (K.rules new.now) (K.over new.now) attr inst.now ≡ true }
    ensures { (xs : Seq meant.Changed) → AllZip (TellsOf (K.rules new.now).model) xs told.old.items → OnOk result (AllZip (TellsOf (K.rules new.now).model) (xs ++ cons_option (meant.change_of (base_of (K.rules new.now)) (facts_of (H.over old.now)) (facts_of (K.over new.now)) attr inst.now) []) told.new.items) }
{
    let change = change_at(alloc, old, new, attr, inst)?;
    match change {
        None => Ok(()),
        Some(change) => {
            told.push(change)?;
            Ok(())
        }
    }
}

/// The change of a slot, where its line differs.
fn change_at<H: Lined, K: Lined>(
    alloc: Global,
    old: &H,
    new: &K,
    attr: AttrId,
    inst: &InstanceId,
) -> Result<Option<Change>, NoMemory>
    requires same { H.rules old.now ≡ K.rules new.now }
    requires slot { place.is_slot (K.rules new.now) (K.over new.now) attr inst.now ≡ true }
    ensures { IfOk result (TellsAny (K.rules new.now).model (meant.change_of (base_of (K.rules new.now)) (facts_of (H.over old.now)) (facts_of (K.over new.now)) attr inst.now)) }
{
    let _base = new.base();
    let first = first_day(alloc, old, new, attr, inst)?;
    match first {
        None => Ok(None),
        Some(day) => {
            let change = change_on(alloc, old, new, attr, inst, day)?;
            Ok(Some(change))
        }
    }
}

/// What is told of an attribute for an instance at a day.
fn change_on<H: Lined, K: Lined>(
    alloc: Global,
    old: &H,
    new: &K,
    attr: AttrId,
    inst: &InstanceId,
    day: u32,
) -> Result<Change, NoMemory>
    requires day { day < DAYS }
    requires declared { HasAttribute (K.rules new.now).model attr }
    ensures { IfOk result (TellsOf (K.rules new.now).model (moved (held_value (H.rules old.now) (H.over old.now) attr inst.now) (held_value (K.rules new.now) (K.over new.now) attr inst.now) attr inst.now day)) }
{
    let base = new.base();
    let was = held_on(alloc, old, attr, inst, day)?;
    let now = held_on(alloc, new, attr, inst, day)?;
    let change = change_from(alloc, &base.model, attr, inst, day, was, now)?;
    Ok(change)
}

fn change_from(
    alloc: Global,
    model: &Model,
    attr: AttrId,
    inst: &InstanceId,
    day: u32,
    was: Value,
    now: Value,
) -> Result<Change, NoMemory>
    requires declared { HasAttribute model.now attr }
    requires day { day < DAYS }
    requires was { IsInCalendar was }
    requires is { IsInCalendar now }
    ensures { IfOk result (TellsOf model.now (record { attr = attr; inst = inst.now; day = day; old = was; new = now })) }
{
    let declared = model.attribute(attr);
    let phrase = declared.phrase.copy(alloc)?;
    let inst = inst.copy(alloc)?;
    Ok(Change {
        attr,
        kind: declared.kind,
        phrase,
        inst,
        day,
        was,
        now,
    })
}
