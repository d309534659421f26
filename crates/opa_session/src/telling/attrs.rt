// The attributes of slots that are handed in.
ghost use Rattle.std.specs.Prelude.{◌≡◌, ◌++◌, ◌∷◌, [], true, List as Seq, None, Some, IfOk, IfSome};
ghost use Rattle.opa_session.specs.Telling.Among.{AreTold, Behind};
ghost use Rattle.opa_mean.specs.declared.reached.slot.Slot.{Slot as SlotView};
ghost use Rattle.opa_mean.specs.Given.{base_of};

use crate::telling::order::rank_of;
use crate::telling::told_attrs::ToldAttrs;
use opa_io::{List, NoMemory};
use opa_mean::Slot;
use opa_model::AttrId;
use opa_tree::Rulebase;
use std::alloc::Global;

/// The attributes of slots; none where they don't stand in the order of slots.
pub(crate) fn attributes_of(
    alloc: Global,
    base: &Rulebase,
    slots: &[Slot],
) -> Result<Option<ToldAttrs>, NoMemory>
    ensures { IfOk result (λ o. IfSome o (AreTold (base_of base.now) slots.now)) }
{
    let mut told = no_attributes(alloc);
    for slot in slots {
        let fits = add_attribute(base, slot.attr, &mut told)?;
        if !fits {
            return Ok(None);
        }
    }
    Ok(Some(told))
}

fn no_attributes(alloc: Global) -> ToldAttrs
    ensures attrs { result.attrs ≡ [] }
    ensures single { result.single ≡ true }
    ensures last { result.last ≡ None }
{
    ToldAttrs {
        attrs: List::new(alloc),
        last: None,
        single: true,
    }
}

/// Adds the attribute of a further slot. False where it would come before the last one.
fn add_attribute(base: &Rulebase, attr: AttrId, told: &mut ToldAttrs) -> Result<bool, NoMemory>
    ensures { (slots : Seq SlotView) (s : SlotView) → s.attr ≡ attr → AreTold (base_of base.now) slots told.old → IfOk result (λ fits. fits ≡ true → AreTold (base_of base.now) (slots ++ s ∷ []) told.new) }
{
    if is_last(told.last, attr) {
        told.single = false;
        return Ok(true);
    }
    if !is_behind(base, told.last, attr) {
        return Ok(false);
    }
    told.attrs.push(attr)?;
    told.last = Some(attr);
    Ok(true)
}

fn is_last(last: Option<AttrId>, attr: AttrId) -> bool
    ensures { result ≡ true → last ≡ Some attr }
{
    match last {
        Some(last) => last.0 == attr.0,
        None => false,
    }
}

/// Whether an attribute comes behind the last one, if there is one.
fn is_behind(base: &Rulebase, last: Option<AttrId>, attr: AttrId) -> bool
    ensures { result ≡ true → Behind (base_of base.now) last attr }
{
    match last {
        Some(last) => comes_before(base, last, attr),
        None => true,
    }
}

fn comes_before(base: &Rulebase, first: AttrId, second: AttrId) -> bool
    ensures { result ≡ true → Behind (base_of base.now) (Some first) second }
{
    let before = rank_of(base, first);
    let after = rank_of(base, second);
    before < after || (before == after && first.0 < second.0)
}
