// The questions of a slot, added to an index.
ghost use Rattle.std.specs.Prelude.{◌≡◌, ◌∷◌, [], true, OnErr, OnOk};
ghost use Rattle.opa_case.specs.declared.question.Question.{Question as QuestionView};
ghost use Rattle.opa_mean.specs.Reached.Dirty.{slot_reads};
ghost use Rattle.opa_mean.specs.Rulebases.{IsOf};
ghost use Rattle.opa_mean.specs.Slots as place;
ghost use Rattle.opa_session.specs.Readers.Indexes.{readers_in, AddsReads, AddsSomeReads, SameIndex};

use crate::readers::add::add_at;
use crate::readers::index::Index;
use opa_case::{Case, InstanceId, Question};
use opa_cells::Cells;
use opa_io::NoMemory;
use opa_mean::gathered_over;
use opa_model::AttrId;
use opa_tree::Rulebase;
use std::alloc::Global;

/// The index of no slots.
pub(crate) fn no_readers(alloc: Global) -> Index
    ensures { (q : QuestionView) → readers_in result q ≡ [] }
{
    Index {
        lines: Cells::new(alloc),
        lists: Cells::new(alloc),
    }
}

/// Adds a slot of a case at all that its rule can look at.
pub(crate) fn add_reader(
    alloc: Global,
    base: &Rulebase,
    case: &Case,
    attr: AttrId,
    inst: &InstanceId,
    index: &mut Index,
) -> Result<(), NoMemory>
    requires fits { IsOf base.now case.now }
    requires slot { place.is_slot base.now case.now attr inst.now ≡ true }
    ensures { OnOk result (AddsReads (slot_reads base.now case.now attr inst.now) attr inst.now index.old index.new) }
{
    let found = gathered_over(alloc, base, case, attr, inst)?;
    let questions = found.as_slice();
    add_questions(alloc, questions, attr, inst, index)?;
    Ok(())
}

/// Adds a slot at some questions. Without memory it is added at some of them.
pub(crate) fn add_questions(
    alloc: Global,
    questions: &[Question],
    attr: AttrId,
    inst: &InstanceId,
    index: &mut Index,
) -> Result<(), NoMemory>
    ensures adds { OnOk result (AddsReads questions.now attr inst.now index.old index.new) }
    ensures err { OnErr result (AddsSomeReads questions.now attr inst.now index.old index.new) }
{
    for question in questions {
        add_question(alloc, question, attr, inst, index)?;
    }
    Ok(())
}

fn add_question(
    alloc: Global,
    question: &Question,
    attr: AttrId,
    inst: &InstanceId,
    index: &mut Index,
) -> Result<(), NoMemory>
    ensures adds { OnOk result (AddsReads (question.now ∷ []) attr inst.now index.old index.new) }
    ensures err { OnErr result (SameIndex index.old index.new) }
{
    match question {
        Question::Attr(read, at) => {
            add_at(alloc, &mut index.lines, read.0, at, attr, inst)?;
            Ok(())
        }
        Question::Members(rel, at) => {
            add_at(alloc, &mut index.lists, rel.0, at, attr, inst)?;
            Ok(())
        }
    }
}
