// Questions that are put into a set, and looked up there.
ghost use Rattle.std.specs.Prelude.{◌≡◌, false, IfOk, OnOk};
ghost use Rattle.opa_case.specs.declared.question.Question.{Question as QuestionView};
ghost use Rattle.opa_session.specs.Readers.Touches.{AddsAsked, AreAsked, is_asked};

use crate::readers::asked::Asked;
use opa_case::Question;
use opa_cells::Cells;
use opa_io::NoMemory;
use std::alloc::Global;

/// The set of these questions.
pub(crate) fn asked_of(alloc: Global, questions: &[Question]) -> Result<Asked, NoMemory>
    ensures { IfOk result (AreAsked questions.now) }
{
    let mut asked = none_asked(alloc);
    for question in questions {
        ask(alloc, question, &mut asked)?;
    }
    Ok(asked)
}

fn none_asked(alloc: Global) -> Asked
    ensures { (q : QuestionView) → is_asked result q ≡ false }
{
    Asked {
        lines: Cells::new(alloc),
        lists: Cells::new(alloc),
    }
}

/// One question more.
pub(crate) fn ask(alloc: Global, question: &Question, asked: &mut Asked) -> Result<(), NoMemory>
    ensures { OnOk result (AddsAsked question.now asked.old asked.new) }
{
    match question {
        Question::Attr(attr, inst) => {
            let key = inst.copy(alloc)?;
            asked.lines.insert(attr.0, key, ())?;
            Ok(())
        }
        Question::Members(rel, inst) => {
            let key = inst.copy(alloc)?;
            asked.lists.insert(rel.0, key, ())?;
            Ok(())
        }
    }
}

pub(crate) fn has(asked: &Asked, question: &Question) -> bool
    ensures { result ≡ is_asked asked.now question.now }
{
    match question {
        Question::Attr(attr, inst) => asked.lines.get(attr.0, inst).is_some(),
        Question::Members(rel, inst) => asked.lists.get(rel.0, inst).is_some(),
    }
}
