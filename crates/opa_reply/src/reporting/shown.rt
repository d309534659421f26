// What is told of a point, and of a list.
ghost use Rattle.std.specs.Prelude.{◌≡◌, true, IfOk};
ghost use Rattle.opa_case.specs.Shapes.{attribute_or};
ghost use Rattle.opa_date.specs.declared.TheConstants.{DAYS};
ghost use Rattle.opa_line.specs.Lines.{StandsFor};
ghost use Rattle.opa_mean.specs.Rulebases.{value_at};
ghost use Rattle.opa_mean.specs.Slots.{has_place as has_place_at};
ghost use Rattle.opa_model.specs.Models.{HasAttribute, HasRelation};
ghost use Rattle.opa_text.specs.Texts.{HasDays};
ghost use Rattle.opa_reply.specs.Reporting.Shown as meant;

use opa_case::{Case, InstanceId};
use opa_io::{NoMemory, Txt};
use opa_line::Line;
use opa_mean::{Held, has_list_place, has_place, line_is_one, values_have_kinds};
use opa_model::{AttrId, Kind, RelId};
use opa_text::{line_text, names_text, point_text};
use opa_tree::Rulebase;
use opa_value::Value;
use std::alloc::Global;

/// `POINT: WHAT`
fn told(alloc: Global, phrase: &Txt, inst: &InstanceId, what: &Txt) -> Result<Vec<u8>, NoMemory>
    ensures { IfOk result (λ t. t.items ≡ meant.told phrase.now inst.now what.now) }
{
    let point = point_text(alloc, phrase, inst)?;
    let text = format!(in alloc; "{}: {}\n", point.as_str(), what.as_str())?;
    Ok(text.into_bytes())
}

pub(crate) fn refused_point(alloc: Global) -> Result<Vec<u8>, NoMemory>
    ensures { IfOk result (λ t. t.items ≡ meant.refused_point) }
{
    Ok(b"refused: point\n".to_vec(alloc)?)
}

/// The days that a line of an attribute has as values are of the calendar.
fn has_days<H: Held>(held: &H, attr: AttrId, inst: &InstanceId, line: &Line<Value>)
    requires { StandsFor DAYS (value_at (H.rules held.now) (H.held held.now) attr inst.now) line.now }
    ensures { HasDays line.now }
{
    values_have_kinds();
    // The case fits the rulebase.
    let _case = held.case();
}

pub(crate) fn phrase_of<H: Held>(held: &H, attr: AttrId) -> &Txt
    requires { HasAttribute (H.rules held.now).model attr }
    ensures { result.now ≡ (attribute_or (H.rules held.now).model attr).phrase }
{
    &held.base().model.attribute(attr).phrase
}

fn kind_of<H: Held>(held: &H, attr: AttrId) -> Kind
    requires { HasAttribute (H.rules held.now).model attr }
    ensures { result ≡ (attribute_or (H.rules held.now).model attr).kind }
{
    held.base().model.attribute(attr).kind
}

/// The text of a line that has the attribute's values.
fn text_of_line<H: Held>(
    alloc: Global,
    held: &H,
    attr: AttrId,
    inst: &InstanceId,
    line: &Line<Value>,
) -> Result<Txt, NoMemory>
    requires declared { HasAttribute (H.rules held.now).model attr }
    requires stands { StandsFor DAYS (value_at (H.rules held.now) (H.held held.now) attr inst.now) line.now }
    ensures { IfOk result (λ t. t ≡ meant.told_line (H.rules held.now) (H.held held.now) attr inst.now) }
{
    line_is_one();
    has_days(held, attr, inst, line);
    let _form = line.segments();
    let kind = kind_of(held, attr);
    let text = line_text(alloc, kind, line)?;
    Ok(text)
}

/// The text of the line of an attribute that the instance has. Where there is neither a rule nor an answer, it is unknown.
pub(crate) fn told_line<H: Held>(
    alloc: Global,
    held: &H,
    attr: AttrId,
    inst: &InstanceId,
) -> Result<Txt, NoMemory>
    requires declared { HasAttribute (H.rules held.now).model attr }
    requires place { has_place_at (H.rules held.now) (H.held held.now) attr inst.now ≡ true }
    ensures { IfOk result (λ t. t ≡ meant.told_line (H.rules held.now) (H.held held.now) attr inst.now) }
{
    // The case fits the rulebase.
    let _case = held.case();
    match held.line(attr, inst) {
        None => {
            let line = Line::constant(alloc, Value::Unknown)?;
            let text = text_of_line(alloc, held, attr, inst, &line)?;
            Ok(text)
        }
        Some(line) => {
            let text = text_of_line(alloc, held, attr, inst, line)?;
            Ok(text)
        }
    }
}

fn has_value<H: Held>(held: &H, attr: AttrId, inst: &InstanceId) -> bool
    ensures { result ≡ has_place_at (H.rules held.now) (H.held held.now) attr inst.now }
{
    has_place(held.base(), held.case(), attr, inst)
}

/// What is told of an attribute for an instance: `POINT: LINE`, or `refused: point` where the instance doesn't have it.
pub fn value_told<H: Held>(
    alloc: Global,
    held: &H,
    attr: AttrId,
    inst: &InstanceId,
) -> Result<Vec<u8>, NoMemory>
    requires { HasAttribute (H.rules held.now).model attr }
    ensures { IfOk result (λ t. t.items ≡ meant.value_told (H.rules held.now) (H.held held.now) attr inst.now) }
{
    if has_value(held, attr, inst) {
        let what = told_line(alloc, held, attr, inst)?;
        let text = told(alloc, phrase_of(held, attr), inst, &what)?;
        Ok(text)
    } else {
        let text = refused_point(alloc)?;
        Ok(text)
    }
}

/// The same of a case and a rulebase.
fn names_in(
    alloc: Global,
    base: &Rulebase,
    case: &Case,
    rel: RelId,
    inst: &InstanceId,
) -> Result<Vec<u8>, NoMemory>
    requires { HasRelation base.now.model rel }
    ensures { IfOk result (λ t. t.items ≡ meant.names_told base.now case.now rel inst.now) }
{
    if has_list_place(base, case, rel, inst) {
        let names = names_text(alloc, case.list_of(rel, inst))?;
        let text = told(alloc, &base.model.relation(rel).phrase, inst, &names)?;
        Ok(text)
    } else {
        let text = refused_point(alloc)?;
        Ok(text)
    }
}

/// What is told of a list: `POINT: NAMES`, or `refused: point` where the instance doesn't have it.
pub fn names_told<H: Held>(
    alloc: Global,
    held: &H,
    rel: RelId,
    inst: &InstanceId,
) -> Result<Vec<u8>, NoMemory>
    requires { HasRelation (H.rules held.now).model rel }
    ensures { IfOk result (λ t. t.items ≡ meant.names_told (H.rules held.now) (H.held held.now) rel inst.now) }
{
    let text = names_in(alloc, held.base(), held.case(), rel, inst)?;
    Ok(text)
}
