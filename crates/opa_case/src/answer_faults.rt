// Why an answer can't be set or withdrawn.
ghost use Rattle.std.specs.Prelude.{◌≡◌, ◌^◌, ◌-◌, ◌<◌, nat_lt, length, Option};
ghost use Rattle.std.specs.List.{list_all};
ghost use Rattle.std.specs.FinMap as map;
ghost use Rattle.opa_model.specs.Models.{IsModel, HasAttribute};
ghost use Rattle.opa_case.specs.Cases.{Answer};
ghost use Rattle.opa_case.specs.Shapes.{shape_of};
ghost use Rattle.opa_case.specs.Steps as step;

use crate::change::Refusal;
use crate::declared::{attribute_of, has_rule};
use crate::standing::Standing;
use opa_cells::InstanceId;
use opa_date::DAYS;
use opa_io::limits::{MOST_ANSWERS, MOST_POINTS};
use opa_line::Line;
use opa_model::{AttrId, Attribute, Kind, Model, Ruled};
use opa_value::Value;

/// Why the answer can't be set.
pub fn answer_fault<S: Standing>(
    case: &S,
    model: &Model,
    ruled: &Ruled,
    attr: AttrId,
    inst: &InstanceId,
    line: &Line<Value>,
) -> Option<Refusal>
    requires { HasAttribute model.now attr }
    ensures value { result ≡
        step.answer_fault (shape_of model.now) ruled.now (S.case case.now) attr inst.now line.now }
    ensures form { IsModel model.now }
{
    let attribute = attribute_of(model, attr);
    if is_unanswerable(case, model, ruled, attr, inst) {
        return Some(Refusal::Name);
    }
    if !have_kind(attribute, line) {
        return Some(Refusal::Kind);
    }
    if !are_in_bounds(attribute, line) {
        return Some(Refusal::Range);
    }
    if is_long(line) {
        return Some(Refusal::Limit);
    }
    if is_over(case, attr, inst, line) {
        return Some(Refusal::Limit);
    }
    None
}

/// Whether nothing can be answered of the attribute at the instance.
pub(crate) fn is_unanswerable<S: Standing>(
    case: &S,
    model: &Model,
    ruled: &Ruled,
    attr: AttrId,
    inst: &InstanceId,
) -> bool
    requires { HasAttribute model.now attr }
    ensures { result ≡ step.is_unanswerable (shape_of model.now) ruled.now (S.case case.now) attr inst.now }
{
    has_rule(ruled, attr)
        || !case.live(inst)
        || !(inst.entity.0 == attribute_of(model, attr).entity.0)
}

/// Whether the answer says nothing on any day.
pub fn is_unknown_answer(line: &Line<Value>) -> bool
    ensures { result ≡ step.is_unknown_answer line.now }
{
    line.segments().iter().all(|pair| is_unknown(&pair.1))
}

fn is_unknown(value: &Value) -> bool
    ensures { result ≡ step.is_unknown value.now }
{
    matches!(value, Value::Unknown)
}

fn is_long(line: &Line<Value>) -> bool
    ensures { result ≡ nat_lt 1000 (length line.now) }
{
    MOST_POINTS < line.segments().len()
}

fn have_kind(attribute: &Attribute, line: &Line<Value>) -> bool
    ensures { result ≡ list_all (λ p. step.has_kind attribute.now.kind p.1) line.now }
{
    line.segments()
        .iter()
        .all(|pair| has_kind(attribute.kind, &pair.1))
}

/// Whether the value, where it is plain, is of the kind.
pub fn has_kind(kind: Kind, value: &Value) -> bool
    ensures { result ≡ step.has_kind kind value.now }
{
    match value {
        Value::Unknown | Value::Uncertain => true,
        Value::Bool(_) => kind == Kind::Bool,
        Value::Num(_) => kind == Kind::Number || kind == Kind::Currency,
        Value::Words(_) => kind == Kind::Words,
        Value::Day(day) => kind == Kind::Date && *day < DAYS,
    }
}

fn are_in_bounds(attribute: &Attribute, line: &Line<Value>) -> bool
    ensures { result ≡ list_all (λ p. step.in_bounds attribute.now p.1) line.now }
{
    line.segments()
        .iter()
        .all(|pair| is_in_bounds(attribute, &pair.1))
}

/// Whether the value, where it is a number, is within the bounds and has few enough decimals.
fn is_in_bounds(attribute: &Attribute, value: &Value) -> bool
    ensures { result ≡ step.in_bounds attribute.now value.now }
{
    match value {
        Value::Num(number) => {
            let count = number.count();
            attribute.least <= count
                && count <= attribute.most
                && has_decimals(attribute.decimals, count)
        }
        _ => true,
    }
}

/// Whether a count of 1/10000 has at most so many decimals.
fn has_decimals(decimals: u8, count: i64) -> bool
    ensures { result ≡ step.has_decimals decimals count }
{
    count.unsigned_abs() % unit(decimals) == 0
}

/// The count of the last of so many decimals.
fn unit(decimals: u8) -> u64
    ensures value { result ≡ 10 ^ (4 - decimals) }
    ensures positive { 0 < result }
{
    match decimals {
        0 => 10_000,
        1 => 1_000,
        2 => 100,
        3 => 10,
        _ => 1,
    }
}

/// Whether there would be too many answers with this one.
fn is_over<S: Standing>(case: &S, attr: AttrId, inst: &InstanceId, line: &Line<Value>) -> bool
    ensures { result ≡ nat_lt 100000 (map.len (step.with_answer (S.case case.now) attr inst.now line.now).answers) }
{
    if is_unknown_answer(line) {
        is_over_without(case, attr, inst)
    } else {
        is_over_with(case, attr, inst)
    }
}

/// Whether there are too many answers but for this one.
fn is_over_without<S: Standing>(case: &S, attr: AttrId, inst: &InstanceId) -> bool
    ensures { result ≡ nat_lt 100000 (map.len (map.remove (S.case case.now).answers (attr.0, inst.now))) }
{
    if case.is_answered(attr, inst) {
        MOST_ANSWERS + 1 < case.answers()
    } else {
        MOST_ANSWERS < case.answers()
    }
}

/// Whether there would be too many answers if one stood here.
fn is_over_with<S: Standing>(case: &S, attr: AttrId, inst: &InstanceId) -> bool
    ensures { (line : Answer) → result ≡ nat_lt 100000 (map.len (map.insert (S.case case.now).answers (attr.0, inst.now) line)) }
{
    if case.is_answered(attr, inst) {
        MOST_ANSWERS < case.answers()
    } else {
        MOST_ANSWERS <= case.answers()
    }
}
