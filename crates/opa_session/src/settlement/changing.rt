// What waits at first after any change: what is fresh, and what reads a list or an answer that differs.
ghost use Rattle.std.specs.Prelude.{◌≡◌, ◌∷◌, [], IfOk, OnOk};
ghost use Rattle.std.specs.Option.{option_copied};
ghost use Rattle.opa_case.specs.declared.question.Question.{Question as QuestionView};
ghost use Rattle.opa_mean.specs.Reached.Settling.{AreReaders, IsBegun, Waiting, shift};
ghost use Rattle.opa_mean.specs.Reached.Slots.{pairs_of, slots_in};
ghost use Rattle.opa_mean.specs.Rulebases.{IsOf};
ghost use Rattle.opa_session.specs.Settlement.Starts.{AreTold, MarksReaders, fresh_slots};
ghost use Rattle.opa_session.specs.Settlement.Tasks.{AreRanked, slots_of};

use crate::settlement::starting::{mark, mark_set};
use crate::settlement::tasks::Tasks;
use opa_case::{Case, Question};
use opa_io::NoMemory;
use opa_mean::Slot;
use opa_tree::Rulebase;
use std::alloc::Global;
use std::collections::BTreeSet;

/// What tells the slots that read a question, a line or a list.
pub trait Reading {
    ghost reading: { Self → QuestionView → Waiting };

    /// There is no set where none does.
    fn of(&self, question: &Question) -> Option<&BTreeSet<Slot>>
        ensures { pairs_of (slots_in (option_copied result)) ≡ reading self.now question.now };
}

/// What any change reaches at first: the fresh slots, and the readers of the told questions. Both cases are there for the
/// contract alone: nothing is read of them.
pub fn start_change<R: Reading>(
    alloc: Global,
    base: &Rulebase,
    held: &Case,
    next: &Case,
    reading: &R,
    fresh: &[Slot],
    told: &[Question],
) -> Result<Tasks, NoMemory>
    requires after { IsOf base.now next.now }
    requires readers { AreReaders base.now next.now (R.reading reading.now) }
    requires fresh { pairs_of fresh.now ≡ fresh_slots base.now held.now next.now }
    requires told { AreTold base.now held.now next.now (R.reading reading.now) told.now }
    ensures begun { IfOk result (λ tasks. IsBegun (shift base.now held.now next.now) (slots_of tasks)) }
    ensures ranked { IfOk result (AreRanked base.now) }
{
    let mut tasks = Tasks::new(alloc);
    mark(alloc, base, fresh, &mut tasks)?;
    mark_readers(alloc, base, reading, told, &mut tasks)?;
    Ok(tasks)
}

/// The readers of some questions wait besides.
fn mark_readers<R: Reading>(
    alloc: Global,
    base: &Rulebase,
    reading: &R,
    told: &[Question],
    tasks: &mut Tasks,
) -> Result<(), NoMemory>
    ensures { OnOk result (MarksReaders base.now (R.reading reading.now) told.now tasks.old tasks.new) }
{
    for question in told {
        mark_question(alloc, base, reading, question, tasks)?;
    }
    Ok(())
}

fn mark_question<R: Reading>(
    alloc: Global,
    base: &Rulebase,
    reading: &R,
    question: &Question,
    tasks: &mut Tasks,
) -> Result<(), NoMemory>
    ensures { OnOk result (MarksReaders base.now (R.reading reading.now) (question.now ∷ []) tasks.old tasks.new) }
{
    mark_set(alloc, base, reading.of(question), tasks)?;
    Ok(())
}
