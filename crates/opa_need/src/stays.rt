// The value of a part from a day on, and how long it stays: known from its line, whatever the number of days.
ghost use Rattle.std.specs.Prelude.{◌≡◌, ◌<◌, ◌≤◌, true, IfOk, IfSome};
ghost use Rattle.std.specs.List.{AllByRecursion};
ghost use Rattle.opa_case.specs.Cases.{IsLive};
ghost use Rattle.opa_date.specs.declared.TheConstants.{DAYS};
ghost use Rattle.opa_line.specs.Lines.{StandsFor};
ghost use Rattle.opa_need.specs.Steps.{HasUntil, IsKnownOn, IsKnownUntil, IsStay, part_value};

use crate::goals::until;
use crate::looking::{attr_place, is_unknown};
use opa_case::InstanceId;
use opa_code::tree_line;
use opa_date::DAYS;
use opa_io::{List, NoMemory};
use opa_line::Line;
use opa_mean::Held;
use opa_tree::Expr;
use opa_value::Value;
use std::alloc::Global;

/// A value, and the day below which it stays.
#[derive(Drop)]
pub(crate) struct Stay {
    pub(crate) value: Value,
    pub(crate) until: u32,
}

/// The value of a part from a day on; below that day itself outside the calendar, and at instances that aren't live.
pub(crate) fn stay_of<H: Held>(
    alloc: Global,
    held: &H,
    part: &Expr,
    enclosing: &List<InstanceId>,
    day: u32,
) -> Result<Stay, NoMemory>
    ensures { IfOk result (λ stay. HasUntil (H.rules held.now) (H.held held.now) part.now enclosing.now day stay.until stay.value) }
{
    if day >= DAYS || !are_live(held, enclosing.as_slice()) {
        return Ok(Stay {
            value: Value::Unknown,
            until: day,
        });
    }
    match held_line(held, part, enclosing) {
        Some(line) => {
            let stay = stay_on(alloc, line, day)?;
            Ok(stay)
        }
        None => {
            let line = tree_line(alloc, held, part, enclosing)?;
            let stay = stay_on(alloc, &line, day)?;
            Ok(stay)
        }
    }
}

/// The day below which a part's value stays as it is on a day.
pub(crate) fn steady_until<H: Held>(
    alloc: Global,
    held: &H,
    part: &Expr,
    enclosing: &List<InstanceId>,
    day: u32,
) -> Result<u32, NoMemory>
    ensures { IfOk result (λ until. HasUntil (H.rules held.now) (H.held held.now) part.now enclosing.now day until (part_value (H.rules held.now) (H.held held.now) part.now enclosing.now day)) }
{
    let stay = stay_of(alloc, held, part, enclosing, day)?;
    Ok(stay.until)
}

fn are_live<H: Held>(held: &H, insts: &[InstanceId]) -> bool
    ensures { result ≡ true → AllByRecursion (IsLive (H.held held.now)) insts.now }
{
    let case = held.case();
    for inst in insts {
        if !case.live(inst) {
            return false;
        }
    }
    true
}

/// The line that is held of an attribute at its place.
fn held_line<'a, H: Held>(
    held: &'a H,
    part: &Expr,
    enclosing: &'a List<InstanceId>,
) -> Option<&'a Line<Value>>
    ensures { IfSome result (λ line. StandsFor DAYS (part_value (H.rules held.now) (H.held held.now) part.now enclosing.now) line.now) }
{
    match part {
        Expr::Attr(attr) => match attr_place(held, enclosing, *attr) {
            None => None,
            Some(inst) => match held.line(*attr, inst) {
                None => None,
                Some(line) => Some(line),
            },
        },
        _ => None,
    }
}

/// The value of a line from a day on.
fn stay_on(alloc: Global, line: &Line<Value>, day: u32) -> Result<Stay, NoMemory>
    requires { day < DAYS }
    ensures { IfOk result (λ stay. IsStay line.now day stay.until stay.value) }
{
    let _form = line.segments();
    let value = line.at(day).copy(alloc)?;
    Ok(Stay {
        value,
        until: until(line, day),
    })
}

/// The first day from a day on, on which a part isn't known, or the calendar's end; that day itself outside the calendar,
/// and at instances that aren't live.
pub(crate) fn open_from<H: Held>(
    alloc: Global,
    held: &H,
    part: &Expr,
    enclosing: &List<InstanceId>,
    day: u32,
) -> Result<u32, NoMemory>
    ensures from { IfOk result (λ from. day ≤ from) }
    ensures known { IfOk result (IsKnownUntil (H.rules held.now) (H.held held.now) part.now enclosing.now day) }
{
    if day >= DAYS || !are_live(held, enclosing.as_slice()) {
        return Ok(day);
    }
    match held_line(held, part, enclosing) {
        Some(line) => Ok(open_on(line, day)),
        None => {
            let line = tree_line(alloc, held, part, enclosing)?;
            Ok(open_on(&line, day))
        }
    }
}

/// The first day from a day on, on which a line isn't known, or the calendar's end.
fn open_on(line: &Line<Value>, day: u32) -> u32
    requires { day < DAYS }
    ensures from { day ≤ result }
    ensures end { result ≤ DAYS }
    ensures known { IsKnownOn line.now day result }
{
    let _form = line.segments();
    let mut from = day;
    while from < DAYS {
        if is_unknown(line.at(from)) {
            return from;
        }
        from = until(line, from);
    }
    from
}
