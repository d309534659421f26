// Which slots a change reaches.
ghost use Rattle.std.specs.Prelude.{◌≡◌, ◌<◌, ◌+◌, ◌^◌, true, false, cond, not, filter, is_some, length, IfOk, IfSome, IsTrue};
ghost use Rattle.std.specs.List.{list_any};
ghost use Rattle.opa_case.specs.Cases.{IsLive};
ghost use Rattle.opa_session.specs.Telling.Reaching.{reads_same, AreSlots, ArePlaced, HasPlaceIn};
ghost use Rattle.opa_mean.specs.Gathering.{AreThose};
ghost use Rattle.opa_mean.specs.Reached.Dirty as law;
ghost use Rattle.opa_mean.specs.Reached.Dirty.{slot_reads};
ghost use Rattle.opa_mean.specs.Changes as meant;
ghost use Rattle.opa_mean.specs.Given.{base_of, facts_of};
ghost use Rattle.opa_date.specs.declared.TheConstants.{DAYS};
ghost use Rattle.opa_mean.specs.Rulebases.{IsOf, value_at};
ghost use Rattle.opa_mean.specs.Slots as place;

use crate::readers::has_others;
use crate::telling::lines::held_day;
use crate::telling::lists::{has_stayed, list_differs, same_questions};
use crate::telling::nested::is_nested;
use crate::telling::walk::slots;
use opa_case::{Case, InstanceId, Question};
use opa_io::{List, NoMemory};
use opa_mean::{Held, fresh_or_reads, gathered_over, reads, reads_are_lower};
use opa_model::AttrId;
use opa_tree::Rulebase;
use std::alloc::Global;

/// How many slots a change reaches: those whose instance wasn't live in the same container, whose rule can look at something
/// else, or of what whose rule can look at a line or a list differs.
pub fn dirty_slots<H: Held, K: Held>(alloc: Global, old: &H, new: &K) -> Result<u64, NoMemory>
    requires same { H.rules old.now ≡ K.rules new.now }
    ensures { IfOk result (λ n. n ≡ meant.dirty (base_of (K.rules new.now)) (facts_of (H.held old.now))
        (facts_of (K.held new.now))) }
{
    let _case = new.case();
    let all = slots(alloc, new)?;
    let items = all.as_slice();
    let count = count_dirty(alloc, old, new, items)?;
    Ok(count)
}

fn count_dirty<H: Held, K: Held>(
    alloc: Global,
    old: &H,
    new: &K,
    slots: &[(AttrId, InstanceId)],
) -> Result<u64, NoMemory>
    requires same { H.rules old.now ≡ K.rules new.now }
    requires slots { AreSlots (K.rules new.now) (K.held new.now) slots.now }
    ensures { IfOk result (λ n. n ≡ length (filter (λ s. meant.is_dirty (base_of (K.rules new.now)) (facts_of (H.held old.now)) (facts_of (K.held new.now)) s.0 s.1) slots.now)) }
{
    let mut count = 0;
    for (attr, inst) in slots {
        let reached = is_dirty(alloc, old, new, *attr, inst)?;
        count = counted(count, reached);
    }
    Ok(count)
}

fn counted(count: u64, more: bool) -> u64
    requires { count < 2 ^ 63 }
    ensures { result ≡ count + cond more 1 0 }
{
    if more { count + 1 } else { count }
}

/// Whether a change reaches a slot.
fn is_dirty<H: Held, K: Held>(
    alloc: Global,
    old: &H,
    new: &K,
    attr: AttrId,
    inst: &InstanceId,
) -> Result<bool, NoMemory>
    requires same { H.rules old.now ≡ K.rules new.now }
    requires slot { place.is_slot (K.rules new.now) (K.held new.now) attr inst.now ≡ true }
    ensures { IfOk result (λ reached. reached ≡ meant.is_dirty (base_of (K.rules new.now)) (facts_of (H.held old.now)) (facts_of (K.held new.now)) attr inst.now) }
{
    fresh_or_reads();
    let base = new.base();
    let before = old.case();
    let after = new.case();
    let kept = kept_reads(alloc, base, before, after, attr, inst)?;
    match kept {
        None => Ok(true),
        Some(found) => {
            let questions = found.as_slice();
            let reached = any_differs(alloc, old, new, questions)?;
            Ok(reached)
        }
    }
}

/// Whether a slot's instance wasn't live in the same container before, or its rule can look at something else.
pub fn is_fresh(
    alloc: Global,
    base: &Rulebase,
    old: &Case,
    new: &Case,
    attr: AttrId,
    inst: &InstanceId,
) -> Result<bool, NoMemory>
    requires before { IsOf base.now old.now }
    requires after { IsOf base.now new.now }
    requires slot { place.is_slot base.now new.now attr inst.now ≡ true }
    ensures { IfOk result (λ fresh. fresh ≡ law.is_fresh base.now old.now new.now attr inst.now) }
{
    let kept = kept_reads(alloc, base, old, new, attr, inst)?;
    Ok(!kept.is_some())
}

/// What the rule of a slot can look at, where its instance stayed in its container and the rule can look at the same in both
/// cases.
fn kept_reads(
    alloc: Global,
    base: &Rulebase,
    old: &Case,
    new: &Case,
    attr: AttrId,
    inst: &InstanceId,
) -> Result<Option<List<Question>>, NoMemory>
    requires before { IsOf base.now old.now }
    requires after { IsOf base.now new.now }
    requires slot { place.is_slot base.now new.now attr inst.now ≡ true }
    ensures fresh { IfOk result (λ o. not (is_some o) ≡ law.is_fresh base.now old.now new.now attr inst.now) }
    ensures reads { IfOk result (λ o. IfSome o (λ found. found ≡ slot_reads base.now new.now attr inst.now)) }
    ensures placed { IfOk result (λ o. IfSome o (ArePlaced base.now old.now new.now)) }
{
    if has_stayed(old, new, inst) {
        let found = same_reads(alloc, base, old, new, attr, inst)?;
        Ok(found)
    } else {
        Ok(None)
    }
}

/// What the rule of a slot can look at, where it is the same in both cases.
fn same_reads(
    alloc: Global,
    base: &Rulebase,
    old: &Case,
    new: &Case,
    attr: AttrId,
    inst: &InstanceId,
) -> Result<Option<List<Question>>, NoMemory>
    requires before { IsOf base.now old.now }
    requires after { IsOf base.now new.now }
    requires live { IsLive old.now inst.now }
    requires slot { place.is_slot base.now new.now attr inst.now ≡ true }
    ensures alike { IfOk result (λ o. is_some o ≡ reads_same base.now old.now new.now attr inst.now) }
    ensures reads { IfOk result (λ o. IfSome o (λ found. found ≡ slot_reads base.now new.now attr inst.now)) }
    ensures placed { IfOk result (λ o. IfSome o (ArePlaced base.now old.now new.now)) }
{
    reads_are_lower();
    if looks_elsewhere(alloc, base, old, new, attr, inst)? {
        return Ok(None);
    }
    let before = reads(alloc, base, old, attr, inst)?;
    let after = reads(alloc, base, new, attr, inst)?;
    let first = before.as_slice();
    let second = after.as_slice();
    if same_questions(first, second) {
        Ok(Some(after))
    } else {
        Ok(None)
    }
}

/// Whether the rule of a slot with nested quantifiers looks at something in one case that it doesn't look at in the other. It
/// is told by what is gathered, which is less than what is compared otherwise.
fn looks_elsewhere(
    alloc: Global,
    base: &Rulebase,
    old: &Case,
    new: &Case,
    attr: AttrId,
    inst: &InstanceId,
) -> Result<bool, NoMemory>
    ensures { IfOk result (λ elsewhere. IsTrue elsewhere → reads_same base.now old.now new.now attr inst.now ≡ false) }
{
    if !is_nested(base, attr) {
        return Ok(false);
    }
    let before = gathered_over(alloc, base, old, attr, inst)?;
    let after = gathered_over(alloc, base, new, attr, inst)?;
    let first = before.as_slice();
    let second = after.as_slice();
    let apart = are_apart(alloc, first, second)?;
    Ok(apart)
}

/// Whether two lists haven't the same questions.
fn are_apart(alloc: Global, first: &[Question], second: &[Question]) -> Result<bool, NoMemory>
    ensures { IfOk result (λ apart. IsTrue apart → AreThose first.now second.now → ⊥) }
{
    if has_others(alloc, first, second)? {
        return Ok(true);
    }
    let others = has_others(alloc, second, first)?;
    Ok(others)
}

fn any_differs<H: Held, K: Held>(
    alloc: Global,
    old: &H,
    new: &K,
    questions: &[Question],
) -> Result<bool, NoMemory>
    requires same { H.rules old.now ≡ K.rules new.now }
    requires placed { ArePlaced (K.rules new.now) (H.held old.now) (K.held new.now) questions.now }
    ensures { IfOk result (λ any. any ≡ list_any (meant.differs (base_of (K.rules new.now)) (facts_of (H.held old.now)) (facts_of (K.held new.now))) questions.now) }
{
    for question in questions {
        if differs(alloc, old, new, question)? {
            return Ok(true);
        }
    }
    Ok(false)
}

/// Whether a line or a list differs.
fn differs<H: Held, K: Held>(
    alloc: Global,
    old: &H,
    new: &K,
    question: &Question,
) -> Result<bool, NoMemory>
    requires same { H.rules old.now ≡ K.rules new.now }
    requires before { HasPlaceIn (K.rules new.now) (H.held old.now) question.now }
    requires after { HasPlaceIn (K.rules new.now) (K.held new.now) question.now }
    ensures { IfOk result (λ any. any ≡ meant.differs (base_of (K.rules new.now)) (facts_of (H.held old.now)) (facts_of (K.held new.now)) question.now) }
{
    match question {
        Question::Attr(attr, inst) => line_differs(alloc, old, new, *attr, inst),
        Question::Members(rel, inst) => {
            let before = old.case();
            let after = new.case();
            Ok(list_differs(before, after, *rel, inst))
        }
    }
}

fn line_differs<H: Held, K: Held>(
    alloc: Global,
    old: &H,
    new: &K,
    attr: AttrId,
    inst: &InstanceId,
) -> Result<bool, NoMemory>
    requires same { H.rules old.now ≡ K.rules new.now }
    requires before { place.has_place (K.rules new.now) (H.held old.now) attr inst.now ≡ true }
    requires after { place.has_place (K.rules new.now) (K.held new.now) attr inst.now ≡ true }
    ensures { IfOk result (λ differs. differs ≡ is_some (meant.first_difference DAYS (value_at (K.rules new.now) (H.held old.now) attr inst.now) (value_at (K.rules new.now) (K.held new.now) attr inst.now))) }
{
    let _before = old.case();
    let _after = new.case();
    let day = held_day(alloc, old, new, attr, inst)?;
    Ok(day.is_some())
}
