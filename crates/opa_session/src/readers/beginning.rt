// What waits before anything is derived, by the index of the coming case.
ghost use Rattle.std.specs.Prelude.{◌≡◌, true, IfOk};
ghost use Rattle.opa_mean.specs.Reached.Settling.{AreReaders, IsBegun, IsByAnswers, shift};
ghost use Rattle.opa_mean.specs.Rulebases.{IsOf};
ghost use Rattle.opa_session.specs.Readers.Indexes.{readers_in};
ghost use Rattle.opa_session.specs.Settlement.Tasks.{AreRanked, slots_of};

use crate::readers::fresh::fresh_slots;
use crate::readers::given::{answers_told, given_changes};
use crate::readers::index::Index;
use crate::settlement::{Tasks, start_change};
use opa_case::Case;
use opa_io::NoMemory;
use opa_mean::nothing_is_fresh;
use opa_tree::Rulebase;
use std::alloc::Global;

/// What any change reaches at first: the fresh slots of the coming case, and by its index the readers of the lists and answers
/// that differ.
pub fn begin(
    alloc: Global,
    base: &Rulebase,
    held: &Case,
    next: &Case,
    index: &Index,
) -> Result<Tasks, NoMemory>
    requires before { IsOf base.now held.now }
    requires after { IsOf base.now next.now }
    requires readers { AreReaders base.now next.now (readers_in index.now) }
    ensures begun { IfOk result (λ tasks. IsBegun (shift base.now held.now next.now) (slots_of tasks)) }
    ensures ranked { IfOk result (AreRanked base.now) }
{
    let fresh = fresh_slots(alloc, base, held, next)?;
    let told = given_changes(alloc, base, held, next, index)?;
    let slots = fresh.as_slice();
    let questions = told.as_slice();
    let tasks = start_change(alloc, base, held, next, index, slots, questions)?;
    Ok(tasks)
}

/// The same where the cases differ in answers at most: nothing is fresh, and no list differs.
pub fn begin_answers(
    alloc: Global,
    base: &Rulebase,
    held: &Case,
    next: &Case,
    index: &Index,
) -> Result<Tasks, NoMemory>
    requires before { IsOf base.now held.now }
    requires after { IsOf base.now next.now }
    requires answers { IsByAnswers (shift base.now held.now next.now) }
    requires readers { AreReaders base.now next.now (readers_in index.now) }
    ensures begun { IfOk result (λ tasks. IsBegun (shift base.now held.now next.now) (slots_of tasks)) }
    ensures ranked { IfOk result (AreRanked base.now) }
{
    nothing_is_fresh();
    let told = answers_told(alloc, base, held, next)?;
    let questions = told.as_slice();
    let tasks = start_change(alloc, base, held, next, index, &[], questions)?;
    Ok(tasks)
}

/// Whether two cases differ in answers at most, told by their lists alone.
pub fn are_by_answers(
    alloc: Global,
    base: &Rulebase,
    held: &Case,
    next: &Case,
) -> Result<bool, NoMemory>
    requires before { IsOf base.now held.now }
    requires after { IsOf base.now next.now }
    ensures { IfOk result (λ same. same ≡ true → IsByAnswers (shift base.now held.now next.now)) }
{
    let same = next.has_lists_of(alloc, held)?;
    Ok(same)
}
