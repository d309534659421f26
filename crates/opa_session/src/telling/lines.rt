// What is held of an attribute for an instance, in two states.
ghost use Rattle.std.specs.Prelude.{◌≡◌, ◌<◌, is_some, None, Some, IfOk};
ghost use Rattle.std.specs.FinMap.{get};
ghost use Rattle.std.specs.Option.{option_copied};
ghost use Rattle.opa_date.specs.declared.TheConstants.{DAYS};
ghost use Rattle.opa_listen.specs.Days.{IsInCalendar};
ghost use Rattle.opa_mean.specs.Changes.{first_difference};
ghost use Rattle.opa_mean.specs.Given.{line_value};
ghost use Rattle.opa_mean.specs.Holding.{held_value};

use crate::telling::lined::{HeldLines, Lined};
use opa_case::{Case, InstanceId};
use opa_io::NoMemory;
use opa_line::Line;
use opa_mean::{Held, values_have_kinds};
use opa_model::AttrId;
use opa_value::Value;
use std::alloc::Global;

/// The first day at which what is held differs.
pub(crate) fn held_day<H: Held, K: Held>(
    alloc: Global,
    old: &H,
    new: &K,
    attr: AttrId,
    inst: &InstanceId,
) -> Result<Option<u32>, NoMemory>
    ensures { IfOk result (λ day. day ≡ first_difference DAYS (held_value (H.rules old.now) (H.held old.now) attr inst.now) (held_value (K.rules new.now) (K.held new.now) attr inst.now)) }
{
    let before = HeldLines { source: old };
    let after = HeldLines { source: new };
    let day = first_day(alloc, &before, &after, attr, inst)?;
    Ok(day)
}

/// The first day at which the lines that are told differ.
pub(crate) fn first_day<H: Lined, K: Lined>(
    alloc: Global,
    old: &H,
    new: &K,
    attr: AttrId,
    inst: &InstanceId,
) -> Result<Option<u32>, NoMemory>
    ensures { IfOk result (λ day. day ≡ first_difference DAYS (held_value (H.rules old.now) (H.over old.now) attr inst.now) (held_value (K.rules new.now) (K.over new.now) attr inst.now)) }
{
    let before = old.line(attr, inst);
    let after = new.line(attr, inst);
    let day = first_between(alloc, before, after)?;
    Ok(day)
}

/// Whether the answers of an attribute for an instance differ on some day, where a missing one is unknown on every day.
pub fn answer_differs(
    alloc: Global,
    old: &Case,
    new: &Case,
    attr: AttrId,
    inst: &InstanceId,
) -> Result<bool, NoMemory>
    ensures { IfOk result (λ differs. differs ≡ is_some
        (first_difference DAYS (line_value (get old.now.answers (attr.0, inst.now)))
        (line_value (get new.now.answers (attr.0, inst.now))))) }
{
    let before = old.answer_of(attr, inst);
    let after = new.answer_of(attr, inst);
    let day = first_between(alloc, before, after)?;
    Ok(day.is_some())
}

/// The first day at which two lines differ, where a missing one is unknown on every day.
fn first_between(
    alloc: Global,
    old: Option<&Line<Value>>,
    new: Option<&Line<Value>>,
) -> Result<Option<u32>, NoMemory>
    ensures { IfOk result (λ day. day ≡ first_difference DAYS (line_value (option_copied old.entry)) (line_value (option_copied new.entry))) }
{
    match old {
        Some(old) => first_from(alloc, old, new),
        None => first_from_unknown(alloc, new),
    }
}

fn first_from(
    alloc: Global,
    old: &Line<Value>,
    new: Option<&Line<Value>>,
) -> Result<Option<u32>, NoMemory>
    ensures { IfOk result (λ day. day ≡ first_difference DAYS (line_value (Some old.now)) (line_value (option_copied new.entry))) }
{
    match new {
        Some(new) => Ok(first_of_two(old, new)),
        None => first_to_unknown(alloc, old),
    }
}

fn first_from_unknown(alloc: Global, new: Option<&Line<Value>>) -> Result<Option<u32>, NoMemory>
    ensures { IfOk result (λ day. day ≡ first_difference DAYS (line_value None) (line_value (option_copied new.entry))) }
{
    match new {
        Some(new) => {
            let unknown = Line::constant(alloc, Value::Unknown)?;
            Ok(first_of_two(&unknown, new))
        }
        None => Ok(None),
    }
}

fn first_to_unknown(alloc: Global, old: &Line<Value>) -> Result<Option<u32>, NoMemory>
    ensures { IfOk result (λ day. day ≡ first_difference DAYS (line_value (Some old.now)) (line_value None)) }
{
    let unknown = Line::constant(alloc, Value::Unknown)?;
    Ok(first_of_two(old, &unknown))
}

fn first_of_two(old: &Line<Value>, new: &Line<Value>) -> Option<u32>
    ensures { result ≡ first_difference DAYS (line_value (Some old.now)) (line_value (Some new.now)) }
{
    let _old = old.segments();
    let _new = new.segments();
    old.first_difference(new)
}

/// What is held at a day: a value whose day, if it has one, is of the calendar.
pub(crate) fn held_on<H: Lined>(
    alloc: Global,
    held: &H,
    attr: AttrId,
    inst: &InstanceId,
    day: u32,
) -> Result<Value, NoMemory>
    requires { day < DAYS }
    ensures value { IfOk result (λ value. value ≡ held_value (H.rules held.now) (H.over held.now) attr inst.now day) }
    ensures calendar { IfOk result IsInCalendar }
{
    values_have_kinds();
    let _base = held.base();
    let line = held.line(attr, inst);
    let value = value_on(alloc, line, day)?;
    Ok(value)
}

/// The value of a line at a day, unknown where there is no line.
fn value_on(alloc: Global, line: Option<&Line<Value>>, day: u32) -> Result<Value, NoMemory>
    requires { day < DAYS }
    ensures { IfOk result (λ value. value ≡ line_value (option_copied line.entry) day) }
{
    match line {
        None => Ok(Value::Unknown),
        Some(line) => value_at(alloc, line, day),
    }
}

fn value_at(alloc: Global, line: &Line<Value>, day: u32) -> Result<Value, NoMemory>
    requires { day < DAYS }
    ensures { IfOk result (λ value. value ≡ line_value (Some line.now) day) }
{
    let value = line.at(day).copy(alloc)?;
    Ok(value)
}
