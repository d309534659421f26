// The values of the operands of a quantifier at one member of a list after another.
ghost use Rattle.std.specs.Prelude.{◌≡◌, ◌∷◌, ◌<◌, [], IfOk, None, OnOk};
ghost use Rattle.std.specs.List.{AllByRecursion};
ghost use Rattle.opa_case.specs.Cases.{IsLive};
ghost use Rattle.opa_code.specs.LinesOfMembers.{AreLinesOf};
ghost use Rattle.opa_date.specs.declared.TheConstants.{DAYS};
ghost use Rattle.opa_need.specs.Members.{AreOfOperands, AreValuesOf};
ghost use Rattle.opa_need.specs.Steps.{part_value};

use crate::looking::is_by_line;
use crate::operands::{Operands, taken};
use opa_case::InstanceId;
use opa_code::MemberLines;
use opa_io::{List, NoMemory};
use opa_mean::{Held, tree_value};
use opa_tree::Expr;
use opa_value::Value;
use std::alloc::Global;

/// What the values of one part have in common at the members of a list: its lines, where its value comes from a line.
#[derive(Drop)]
pub(crate) struct MemberValues {
    lines: Option<MemberLines>,
}

impl MemberValues {
    /// Of a part, for the instances of an entity.
    fn of<H: Held>(
        alloc: Global,
        held: &H,
        part: &Expr,
        entity: u32,
    ) -> Result<MemberValues, NoMemory>
        ensures { IfOk result (AreValuesOf (H.rules held.now) (H.held held.now) part.now) }
    {
        if is_by_line(part, false) {
            let lines = MemberLines::of(alloc, held, part, entity)?;
            Ok(MemberValues { lines: Some(lines) })
        } else {
            Ok(MemberValues { lines: None })
        }
    }

    /// The value of the part at live enclosing instances, of which a member is the innermost.
    pub(crate) fn at<H: Held>(
        &mut self,
        alloc: Global,
        held: &H,
        part: &Expr,
        enclosing: &List<InstanceId>,
        day: u32,
    ) -> Result<Value, NoMemory>
        requires day { day < DAYS }
        requires live { AllByRecursion (IsLive (H.held held.now)) enclosing.now }
        requires of { AreValuesOf (H.rules held.now) (H.held held.now) part.now self.old }
        ensures value { IfOk result (λ v. v ≡ part_value (H.rules held.now) (H.held held.now) part.now enclosing.now day) }
        ensures stay { OnOk result (AreValuesOf (H.rules held.now) (H.held held.now) part.now self.new) }
    {
        match &mut self.lines {
            None => tree_value(alloc, held, part, enclosing, day),
            Some(lines) => value_on_lines(alloc, held, lines, part, enclosing, day),
        }
    }
}

fn value_on_lines<H: Held>(
    alloc: Global,
    held: &H,
    lines: &mut MemberLines,
    part: &Expr,
    enclosing: &List<InstanceId>,
    day: u32,
) -> Result<Value, NoMemory>
    requires day { day < DAYS }
    requires live { AllByRecursion (IsLive (H.held held.now)) enclosing.now }
    requires of { AreLinesOf (H.rules held.now) (H.held held.now) part.now lines.old }
    ensures value { IfOk result (λ v. v ≡ part_value (H.rules held.now) (H.held held.now) part.now enclosing.now day) }
    ensures stay { OnOk result (AreLinesOf (H.rules held.now) (H.held held.now) part.now lines.new) }
{
    let line = lines.at(alloc, held, part, enclosing.as_slice())?;
    let value = line.at(day).copy(alloc)?;
    Ok(value)
}

/// The values of the first two operands of a quantifier.
#[derive(Drop)]
pub(crate) struct OperandValues {
    pub first: MemberValues,
    pub second: MemberValues,
}

impl OperandValues {
    /// Of the operands that are looked at, for the instances of an entity.
    pub(crate) fn of<H: Held>(
        alloc: Global,
        held: &H,
        parts: &[Expr],
        entity: u32,
    ) -> Result<OperandValues, NoMemory>
        ensures { IfOk result (AreOfOperands (H.rules held.now) (H.held held.now) parts.now) }
    {
        match taken(parts) {
            Operands::One(part) => of_one(alloc, held, part, entity),
            Operands::Two(number, test) => of_two(alloc, held, number, test, entity),
            Operands::Nothing | Operands::Three(_, _, _) | Operands::Many => Ok(of_none()),
        }
    }

    /// Moved out: nothing is left.
    pub(crate) fn moved(&mut self) -> OperandValues
        ensures { result ≡ self.old }
    {
        std::mem::replace(self, of_none())
    }
}

fn of_none() -> OperandValues
    ensures first { result.first.lines ≡ None }
    ensures second { result.second.lines ≡ None }
{
    OperandValues {
        first: MemberValues { lines: None },
        second: MemberValues { lines: None },
    }
}

fn of_one<H: Held>(
    alloc: Global,
    held: &H,
    part: &Expr,
    entity: u32,
) -> Result<OperandValues, NoMemory>
    ensures { IfOk result (AreOfOperands (H.rules held.now) (H.held held.now) (part.now ∷ [])) }
{
    let first = MemberValues::of(alloc, held, part, entity)?;
    Ok(OperandValues {
        first,
        second: MemberValues { lines: None },
    })
}

fn of_two<H: Held>(
    alloc: Global,
    held: &H,
    number: &Expr,
    test: &Expr,
    entity: u32,
) -> Result<OperandValues, NoMemory>
    ensures { IfOk result (AreOfOperands (H.rules held.now) (H.held held.now) (number.now ∷ test.now ∷ [])) }
{
    let first = MemberValues::of(alloc, held, number, entity)?;
    let second = MemberValues::of(alloc, held, test, entity)?;
    Ok(OperandValues { first, second })
}
