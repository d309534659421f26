// Why answers of a saved case are refused.
ghost use Rattle.std.specs.Prelude.{◌≡◌, ◌++◌, IfOk, OnOk};
ghost use Rattle.std.specs.List.{list_any};
ghost use Rattle.opa_model.specs.Lookups.{attribute_named};
ghost use Rattle.opa_model.specs.Models.{HasAttribute};
ghost use Rattle.opa_saved.specs.Loading as meant;

use crate::declared::{attribute_of, find_attribute};
use crate::entries::AnswerEntry;
use crate::list_refusals::add_refusal;
use crate::living::Living;
use opa_case::{Refusal, answer_fault};
use opa_cells::InstanceId;
use opa_io::limits::MOST_TEXT;
use opa_io::{NoMemory, Txt, front};
use opa_line::Line;
use opa_model::{AttrId, Model, Ruled};
use opa_value::Value;
use std::alloc::Global;

/// Adds why answers are refused.
pub(crate) fn add_answer_refusals(
    alloc: Global,
    model: &Model,
    ruled: &Ruled,
    living: &Living,
    answers: &[AnswerEntry],
    refusals: &mut Vec<Refusal>,
) -> Result<(), NoMemory>
    ensures { OnOk result (refusals.new.items ≡ refusals.old.items ++ meant.answer_refusals model.now ruled.now living.now answers.now) }
{
    let mut rest = answers;
    while let Some((entry, later)) = front(rest) {
        let refusal = answer_refusal(alloc, model, ruled, living, entry)?;
        add_refusal(refusal, refusals)?;
        rest = later;
    }
    Ok(())
}

/// Why an answer is refused.
fn answer_refusal(
    alloc: Global,
    model: &Model,
    ruled: &Ruled,
    living: &Living,
    entry: &AnswerEntry,
) -> Result<Option<Refusal>, NoMemory>
    ensures { IfOk result (λ r. r ≡ meant.answer_refusal model.now ruled.now living.now (attribute_named model.now entry.now.point.phrase) entry.now) }
{
    match find_attribute(model, &entry.point.phrase) {
        Some(attr) => {
            let inst = answer_instance(alloc, model, attr, &entry.point.name)?;
            let fault = answer_fault(living, model, ruled, attr, &inst, &entry.line);
            Ok(fault.or(text_refusal(&entry.line)))
        }
        None => Ok(Some(Refusal::Name)),
    }
}

/// The instance whose answer it is.
pub(crate) fn answer_instance(
    alloc: Global,
    model: &Model,
    attr: AttrId,
    name: &Txt,
) -> Result<InstanceId, NoMemory>
    requires { HasAttribute model.now attr }
    ensures { IfOk result (λ i. i ≡ meant.answer_instance model.now attr name.now) }
{
    let name = name.copy(alloc)?;
    Ok(InstanceId {
        entity: attribute_of(model, attr).entity,
        name,
    })
}

fn text_refusal(line: &Line<Value>) -> Option<Refusal>
    ensures { result ≡ meant.text_refusal line.now }
{
    if has_long_text(line) {
        Some(Refusal::Limit)
    } else {
        None
    }
}

fn has_long_text(line: &Line<Value>) -> bool
    ensures { result ≡ list_any (λ p. meant.is_long_text p.1) line.now }
{
    line.segments().iter().any(|pair| is_long_text(&pair.1))
}

fn is_long_text(value: &Value) -> bool
    ensures { result ≡ meant.is_long_text value.now }
{
    match value {
        Value::Words(text) => MOST_TEXT < text.as_str().len(),
        _ => false,
    }
}
