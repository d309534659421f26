// The answers of a saved case are set.
ghost use Rattle.std.specs.Prelude.{◌≡◌, ◌≢◌, ◌<◌, ◌≤◌, IfErr, OnOk, None};
ghost use Rattle.std.specs.FinMap.{len};
ghost use Rattle.opa_model.specs.Lookups.{attribute_named};
ghost use Rattle.opa_case.specs.Fits.{Fits};
ghost use Rattle.opa_case.specs.Shapes.{shape_of};
ghost use Rattle.opa_saved.specs.Building.{with_answers, AreAnswerable};
ghost use Rattle.opa_saved.specs.Loading as meant;
ghost use Rattle.opa_saved.specs.declared.fault.LoadFault.TheVariants as faults;

use crate::answer_refusals::answer_instance;
use crate::declared::find_attribute;
use crate::entries::AnswerEntry;
use crate::fault::LoadFault;
use opa_case::{Case, Refusal, is_unknown_answer};
use opa_model::{Model, Ruled};
use std::alloc::Global;

/// Sets answers, none of which is refused, unless they become too many.
pub(crate) fn put_answers(
    alloc: Global,
    model: &Model,
    ruled: &Ruled,
    answers: Vec<AnswerEntry>,
    case: &mut Case,
) -> Result<(), LoadFault>
    requires fits { Fits (shape_of model.now) ruled.now case.old }
    requires taken { AreAnswerable model.now ruled.now case.old.live answers.items }
    requires few { len case.old.answers ≤ 100000 }
    ensures is { OnOk result (case.new ≡ with_answers case.old (meant.put_answers model.now case.old.answers answers.items)) }
    ensures fits { OnOk result (Fits (shape_of model.now) ruled.now case.new) }
    ensures few { OnOk result (len case.new.answers ≤ 100000) }
    ensures over { IfErr result (λ e. e ≢ faults.NoMemory → (e ≡ faults.Limit) × (100000 < len (meant.put_answers model.now case.old.answers answers.items))) }
{
    for entry in answers {
        put_answer(alloc, model, ruled, entry, case)?;
    }
    Ok(())
}

/// Sets an answer that isn't refused, unless there become too many.
fn put_answer(
    alloc: Global,
    model: &Model,
    ruled: &Ruled,
    entry: AnswerEntry,
    case: &mut Case,
) -> Result<(), LoadFault>
    requires fits { Fits (shape_of model.now) ruled.now case.old }
    requires taken { meant.answer_refusal model.now ruled.now case.old.live (attribute_named model.now entry.point.phrase) entry ≡ None }
    requires few { len case.old.answers ≤ 100000 }
    ensures is { OnOk result (case.new ≡ with_answers case.old (meant.put_answer model.now case.old.answers (attribute_named model.now entry.point.phrase) entry)) }
    ensures fits { OnOk result (Fits (shape_of model.now) ruled.now case.new) }
    ensures few { OnOk result (len case.new.answers ≤ 100000) }
    ensures over { IfErr result (λ e. e ≢ faults.NoMemory → (e ≡ faults.Limit) × (100000 < len (meant.put_answer model.now case.old.answers (attribute_named model.now entry.point.phrase) entry))) }
{
    let AnswerEntry { point, line } = entry;
    let Some(attr) = find_attribute(model, &point.phrase) else {
        return Ok(());
    };
    if is_unknown_answer(&line) {
        return Ok(());
    }
    let inst = answer_instance(alloc, model, attr, &point.name)?;
    match case.answer(model, ruled, attr, &inst, line) {
        Ok(()) => Ok(()),
        Err(refusal) => Err(fault_of(refusal)),
    }
}

fn fault_of(refusal: Refusal) -> LoadFault
    ensures { result ≡ meant.fault_of refusal }
{
    match refusal {
        Refusal::Name => LoadFault::Name,
        Refusal::Kind => LoadFault::Kind,
        Refusal::Range => LoadFault::Range,
        Refusal::Limit => LoadFault::Limit,
        Refusal::NoMemory => LoadFault::NoMemory,
    }
}
