// The answers of a case, in declared order and then in instance order.
ghost use Rattle.std.specs.Prelude.{◌≡◌, ◌<◌, ◌++◌, length, map, flat_map, IfOk, OnOk};
ghost use Rattle.std.specs.FinMap.{get};
ghost use Rattle.std.specs.List.{AllByRecursion};
ghost use Rattle.serde_json.specs.View.{view};
ghost use Rattle.opa_model.specs.Models.{HasAttribute};
ghost use Rattle.opa_case.specs.Live.{members};
ghost use Rattle.opa_case.specs.Shapes.{attribute_or};
ghost use Rattle.opa_saved.specs.RoundTrip.{IsLineOfValues, HasLineAt, HaveLines};
ghost use Rattle.opa_saved.specs.Saved as meant;
ghost use Rattle.opa_saved.specs.Told.{AreOfCalendar, HasDays};

use crate::declared::attribute_of;
use crate::order::members_of;
use crate::values::line_json;
use opa_case::Case;
use opa_cells::InstanceId;
use opa_io::{NoMemory, Txt, front};
use opa_line::Line;
use opa_model::{AttrId, Model};
use opa_value::Value;
use serde_json::{Value as Json, json};
use std::alloc::Global;

fn answer_json(
    alloc: Global,
    phrase: &Txt,
    inst: &InstanceId,
    line: &Line<Value>,
) -> Result<Json, NoMemory>
    requires { AreOfCalendar line.now }
    ensures data { IfOk result (λ v. view v ≡ meant.answer_entry phrase.now inst.now line.now) }
    ensures line { IfOk result (λ v. IsLineOfValues line.now) }
{
    let line = line_json(alloc, line)?;
    Ok(json!(in alloc; {"attribute": phrase.as_str(), "line": line, "of": inst.name.as_str()})?)
}

/// Adds the answer of an attribute at an instance, if there is one.
fn add_answer(
    alloc: Global,
    case: &Case,
    attr: AttrId,
    phrase: &Txt,
    inst: &InstanceId,
    out: &mut Vec<Json>,
) -> Result<(), NoMemory>
    requires { HasDays case.now }
    ensures data { OnOk result (map view out.new.items ≡ map view out.old.items ++ meant.entry_of (meant.answer_entry phrase.now inst.now) (get case.now.answers (attr.0, inst.now))) }
    ensures line { OnOk result (HasLineAt case.now attr.0 inst.now) }
{
    if let Some(line) = case.answer_of(attr, inst) {
        out.push(answer_json(alloc, phrase, inst, line)?)?;
    }
    Ok(())
}

/// Adds the answers of an attribute at instances.
fn add_answers(
    alloc: Global,
    case: &Case,
    attr: AttrId,
    phrase: &Txt,
    insts: &[InstanceId],
    out: &mut Vec<Json>,
) -> Result<(), NoMemory>
    requires { HasDays case.now }
    ensures data { OnOk result (map view out.new.items ≡ map view out.old.items ++ flat_map (λ i. meant.entry_of (meant.answer_entry phrase.now i) (get case.now.answers (attr.0, i))) insts.now) }
    ensures lines { OnOk result (AllByRecursion (HasLineAt case.now attr.0) insts.now) }
{
    let mut rest = insts;
    while let Some((inst, later)) = front(rest) {
        add_answer(alloc, case, attr, phrase, inst, out)?;
        rest = later;
    }
    Ok(())
}

/// Adds the answers of an attribute.
fn add_attribute(
    alloc: Global,
    model: &Model,
    case: &Case,
    order: &[(InstanceId, InstanceId)],
    attr: AttrId,
    out: &mut Vec<Json>,
) -> Result<(), NoMemory>
    requires declared { HasAttribute model.now attr }
    requires order { order.now ≡ case.now.live }
    requires days { HasDays case.now }
    ensures data { OnOk result (map view out.new.items ≡ map view out.old.items ++ meant.answers_of model.now case.now attr.0) }
    ensures lines { OnOk result (AllByRecursion (HasLineAt case.now attr.0) (members (attribute_or model.now attr).entity.0 case.now.live)) }
{
    let attribute = attribute_of(model, attr);
    let insts = members_of(alloc, attribute.entity.0, order)?;
    add_answers(alloc, case, attr, &attribute.phrase, &insts, out)?;
    Ok(())
}

/// All answers.
pub(crate) fn answers(
    alloc: Global,
    model: &Model,
    case: &Case,
    order: &[(InstanceId, InstanceId)],
) -> Result<Vec<Json>, NoMemory>
    requires order { order.now ≡ case.now.live }
    requires days { HasDays case.now }
    ensures data { IfOk result (λ v. map view v.items ≡ meant.answers_upto model.now case.now (length model.now.attributes)) }
    ensures lines { IfOk result (λ v. HaveLines model.now case.now (length model.now.attributes)) }
{
    let mut out = Vec::new(alloc);
    for n in 0..model.attribute_count() {
        add_attribute(alloc, model, case, order, AttrId(n), &mut out)?;
    }
    Ok(out)
}
