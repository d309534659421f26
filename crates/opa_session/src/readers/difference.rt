// What a slot reads in one case and not in another.
ghost use Rattle.std.specs.Prelude.{IfOk, IsTrue, OnOk};
ghost use Rattle.opa_mean.specs.Gathering.{AreThose};
ghost use Rattle.opa_session.specs.Readers.Touches.{AreWithout, Sifts};

use crate::readers::asked::Asked;
use crate::readers::asking::{ask, asked_of, has};
use opa_case::Question;
use opa_io::{List, NoMemory};
use std::alloc::Global;

/// Of some questions those that aren't among others, each once.
pub(crate) fn without(
    alloc: Global,
    questions: &[Question],
    others: &[Question],
) -> Result<List<Question>, NoMemory>
    ensures { IfOk result (AreWithout questions.now others.now) }
{
    if questions.is_empty() {
        return Ok(List::new(alloc));
    }
    let mut passed = asked_of(alloc, others)?;
    let mut left = List::new(alloc);
    for question in questions {
        sift(alloc, question, &mut passed, &mut left)?;
    }
    Ok(left)
}

/// Whether some of several questions aren't among others.
pub(crate) fn has_others(
    alloc: Global,
    questions: &[Question],
    others: &[Question],
) -> Result<bool, NoMemory>
    ensures { IfOk result (λ some. IsTrue some → AreThose questions.now others.now → ⊥) }
{
    let left = without(alloc, questions, others)?;
    let rest = left.as_slice();
    Ok(!rest.is_empty())
}

/// Takes a question, if it wasn't passed yet.
fn sift(
    alloc: Global,
    question: &Question,
    passed: &mut Asked,
    left: &mut List<Question>,
) -> Result<(), NoMemory>
    ensures { OnOk result (Sifts question.now passed.old passed.new left.old left.new) }
{
    if has(passed, question) {
        return Ok(());
    }
    ask(alloc, question, passed)?;
    let question = question.copy(alloc)?;
    left.push(question)?;
    Ok(())
}
