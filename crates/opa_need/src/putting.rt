// What a step gives way to is put before the other steps.
ghost use Rattle.std.specs.Prelude.{◌≡◌, ◌++◌, ◌<◌, reverse, IfOk, OnOk};
ghost use Rattle.std.specs.List.{AllByRecursion};
ghost use Rattle.opa_case.specs.Cases.{IsLive};
ghost use Rattle.opa_date.specs.declared.TheConstants.{DAYS};
ghost use Rattle.opa_need.specs.Members.{AreOfOperands};
ghost use Rattle.opa_need.specs.Steps.{AreListed, IsFirstMember, IsFirstPart, PutsOn, members_needs, part_needs, parts_needs, tree_needs};

use crate::inner::with_room;
use crate::looking::{again, is_unknown, value_at};
use crate::members::OperandValues;
use crate::noted::is_inner;
use crate::opening::open;
use crate::parting::member_steps;
use crate::steps::Step;
use opa_case::InstanceId;
use opa_io::{List, NoMemory, Txt, front};
use opa_mean::Held;
use opa_tree::{Expr, Quant};
use std::alloc::Global;

/// Puts steps before the others, the first of them first.
fn put_all<'a>(steps: &mut List<Step<'a>>, new: &mut List<Step<'a>>) -> Result<(), NoMemory>
    ensures { OnOk result (reverse steps.new ≡ new.old ++ reverse steps.old) }
{
    while let Some(step) = new.pop() {
        steps.push(step)?;
    }
    Ok(())
}

/// A tree: its parts take its place.
pub(crate) fn take_tree<'a, H: Held>(
    alloc: Global,
    held: &'a H,
    steps: &mut List<Step<'a>>,
    tree: &'a Expr,
    enclosing: &List<InstanceId>,
    day: u32,
) -> Result<(), NoMemory>
    requires day { day < DAYS }
    requires live { AllByRecursion (IsLive (H.held held.now)) enclosing.now }
    ensures { OnOk result (PutsOn (H.rules held.now) (H.held held.now) (tree_needs (H.rules held.now) (H.held held.now) tree.now enclosing.now day) steps.old steps.new) }
{
    let mut new = open(alloc, held, tree, enclosing, day)?;
    put_all(steps, &mut new)?;
    Ok(())
}

/// A tree that is unknown: a quantifier in the operand of another one comes as a step of its own, so that it can be passed
/// over; the parts of any other take its place.
fn take_open<'a, H: Held>(
    alloc: Global,
    held: &'a H,
    steps: &mut List<Step<'a>>,
    tree: &'a Expr,
    enclosing: &List<InstanceId>,
    day: u32,
) -> Result<(), NoMemory>
    requires day { day < DAYS }
    requires live { AllByRecursion (IsLive (H.held held.now)) enclosing.now }
    ensures { OnOk result (PutsOn (H.rules held.now) (H.held held.now) (tree_needs (H.rules held.now) (H.held held.now) tree.now enclosing.now day) steps.old steps.new) }
{
    if is_inner(tree, enclosing) {
        put_tree(alloc, held, steps, tree, enclosing, day)
    } else {
        take_tree(alloc, held, steps, tree, enclosing, day)
    }
}

fn put_tree<'a, H: Held>(
    alloc: Global,
    _held: &H,
    steps: &mut List<Step<'a>>,
    tree: &'a Expr,
    enclosing: &List<InstanceId>,
    day: u32,
) -> Result<(), NoMemory>
    requires day { day < DAYS }
    requires live { AllByRecursion (IsLive (H.held _held.now)) enclosing.now }
    ensures { OnOk result (PutsOn (H.rules _held.now) (H.held _held.now) (tree_needs (H.rules _held.now) (H.held _held.now) tree.now enclosing.now day) steps.old steps.new) }
{
    let enclosing = again(alloc, enclosing)?;
    steps.push(Step::Tree(tree, enclosing, day))
}

/// A part: it is looked at where it is unknown.
pub(crate) fn take_part<'a, H: Held>(
    alloc: Global,
    held: &'a H,
    steps: &mut List<Step<'a>>,
    part: &'a Expr,
    enclosing: &List<InstanceId>,
    day: u32,
) -> Result<(), NoMemory>
    requires day { day < DAYS }
    requires live { AllByRecursion (IsLive (H.held held.now)) enclosing.now }
    ensures { OnOk result (PutsOn (H.rules held.now) (H.held held.now) (part_needs (H.rules held.now) (H.held held.now) part.now enclosing.now day) steps.old steps.new) }
{
    let value = value_at(alloc, held, part, enclosing, day)?;
    if is_unknown(&value) {
        take_open(alloc, held, steps, part, enclosing, day)?;
    }
    Ok(())
}

/// Parts: the first that is unknown gives way to its tree, and those behind it come later.
pub(crate) fn take_parts<'a, H: Held>(
    alloc: Global,
    held: &'a H,
    steps: &mut List<Step<'a>>,
    parts: &'a [Expr],
    enclosing: &List<InstanceId>,
    day: u32,
) -> Result<(), NoMemory>
    requires day { day < DAYS }
    requires live { AllByRecursion (IsLive (H.held held.now)) enclosing.now }
    ensures { OnOk result (PutsOn (H.rules held.now) (H.held held.now) (parts_needs (H.rules held.now) (H.held held.now) parts.now enclosing.now day) steps.old steps.new) }
{
    match first_part(alloc, held, parts, enclosing, day)? {
        None => Ok(()),
        Some((part, later)) => {
            put_parts(alloc, held, steps, later, enclosing, day)?;
            take_open(alloc, held, steps, part, enclosing, day)
        }
    }
}

/// The first part that is unknown, and those behind it.
fn first_part<'a, H: Held>(
    alloc: Global,
    held: &H,
    parts: &'a [Expr],
    enclosing: &List<InstanceId>,
    day: u32,
) -> Result<Option<(&'a Expr, &'a [Expr])>, NoMemory>
    requires day { day < DAYS }
    requires live { AllByRecursion (IsLive (H.held held.now)) enclosing.now }
    ensures { IfOk result (IsFirstPart (H.rules held.now) (H.held held.now) parts.now enclosing.now day) }
{
    let mut rest = parts;
    while let Some((part, later)) = front(rest) {
        let value = value_at(alloc, held, part, enclosing, day)?;
        let open = is_unknown(&value);
        if open {
            return Ok(Some((part, later)));
        }
        rest = later;
    }
    Ok(None)
}

fn put_parts<'a, H: Held>(
    alloc: Global,
    _held: &H,
    steps: &mut List<Step<'a>>,
    parts: &'a [Expr],
    enclosing: &List<InstanceId>,
    day: u32,
) -> Result<(), NoMemory>
    requires day { day < DAYS }
    requires live { AllByRecursion (IsLive (H.held _held.now)) enclosing.now }
    ensures { OnOk result (PutsOn (H.rules _held.now) (H.held _held.now) (parts_needs (H.rules _held.now) (H.held _held.now) parts.now enclosing.now day) steps.old steps.new) }
{
    match front(parts) {
        None => Ok(()),
        Some(_) => steps.push(Step::Parts(parts, again(alloc, enclosing)?, day)),
    }
}

/// Members: the first that has something to ask gives way to its steps, and those behind it come later.
pub(crate) fn take_members<'a, H: Held>(
    alloc: Global,
    held: &'a H,
    steps: &mut List<Step<'a>>,
    quant: Quant,
    target: u32,
    names: &'a [Txt],
    parts: &'a [Expr],
    values: &mut OperandValues,
    enclosing: &List<InstanceId>,
    day: u32,
) -> Result<(), NoMemory>
    requires day { day < DAYS }
    requires live { AllByRecursion (IsLive (H.held held.now)) enclosing.now }
    requires listed { AreListed (H.rules held.now) (H.held held.now) target names.now }
    requires of { AreOfOperands (H.rules held.now) (H.held held.now) parts.now values.old }
    ensures { OnOk result (PutsOn (H.rules held.now) (H.held held.now) (members_needs (H.rules held.now) (H.held held.now) quant target names.now parts.now enclosing.now day) steps.old steps.new) }
{
    match first_member(
        alloc, held, quant, target, names, parts, values, enclosing, day,
    )? {
        None => Ok(()),
        Some((mut new, later)) => {
            put_members(
                alloc, held, steps, quant, target, later, parts, values, enclosing, day,
            )?;
            put_all(steps, &mut new)
        }
    }
}

/// The steps of the first member that has some, and the members behind it.
fn first_member<'a, H: Held>(
    alloc: Global,
    held: &H,
    quant: Quant,
    target: u32,
    names: &'a [Txt],
    parts: &'a [Expr],
    values: &mut OperandValues,
    enclosing: &List<InstanceId>,
    day: u32,
) -> Result<Option<(List<Step<'a>>, &'a [Txt])>, NoMemory>
    requires day { day < DAYS }
    requires live { AllByRecursion (IsLive (H.held held.now)) enclosing.now }
    requires listed { AreListed (H.rules held.now) (H.held held.now) target names.now }
    requires of { AreOfOperands (H.rules held.now) (H.held held.now) parts.now values.old }
    ensures member { IfOk result (IsFirstMember (H.rules held.now) (H.held held.now) quant target names.now parts.now enclosing.now day) }
    ensures stay { OnOk result (AreOfOperands (H.rules held.now) (H.held held.now) parts.now values.new) }
{
    let mut inner = with_room(alloc, enclosing)?;
    let mut rest = names;
    while let Some((name, later)) = front(rest) {
        let steps = member_steps(
            alloc, held, values, &mut inner, quant, target, name, parts, enclosing, day,
        )?;
        if steps.len() > 0 {
            return Ok(Some((steps, later)));
        }
        rest = later;
    }
    Ok(None)
}

fn put_members<'a, H: Held>(
    alloc: Global,
    _held: &H,
    steps: &mut List<Step<'a>>,
    quant: Quant,
    target: u32,
    names: &'a [Txt],
    parts: &'a [Expr],
    values: &mut OperandValues,
    enclosing: &List<InstanceId>,
    day: u32,
) -> Result<(), NoMemory>
    requires day { day < DAYS }
    requires live { AllByRecursion (IsLive (H.held _held.now)) enclosing.now }
    requires listed { AreListed (H.rules _held.now) (H.held _held.now) target names.now }
    requires of { AreOfOperands (H.rules _held.now) (H.held _held.now) parts.now values.old }
    ensures { OnOk result (PutsOn (H.rules _held.now) (H.held _held.now) (members_needs (H.rules _held.now) (H.held _held.now) quant target names.now parts.now enclosing.now day) steps.old steps.new) }
{
    let enclosing = again(alloc, enclosing)?;
    let values = values.moved();
    steps.push(Step::Members(quant, target, names, parts, values, enclosing, day))
}
