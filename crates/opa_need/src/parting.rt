// Steps for the parts of a tree.
ghost use Rattle.std.specs.Prelude.{◌≡◌, ◌∷◌, ◌++◌, ◌<◌, [], IfOk, OnOk, List as Seq};
ghost use Rattle.std.specs.List.{AllByRecursion};
ghost use Rattle.opa_case.specs.Cases.{IsLive};
ghost use Rattle.opa_cells.specs.Instances.{named};
ghost use Rattle.opa_date.specs.declared.TheConstants.{DAYS};
ghost use Rattle.opa_mean.specs.Uses.{Use};
ghost use Rattle.opa_tree.specs.declared.kinds.Quant.TheVariants as quants;
ghost use Rattle.opa_need.specs.Inner.{HasRoom};
ghost use Rattle.opa_need.specs.Members.{AreOfOperands, AreValuesOf};
ghost use Rattle.opa_need.specs.Steps.{StandFor, Adds, part_needs, part_value, tree_needs, member_needs};

use crate::inner::put_first;
use crate::looking::{again, is_true, is_unknown, value_at};
use crate::members::{MemberValues, OperandValues};
use crate::operands::{Operands, taken};
use crate::steps::Step;
use opa_case::InstanceId;
use opa_io::{List, NoMemory, Txt};
use opa_mean::Held;
use opa_tree::{Expr, Quant};
use opa_value::Value;
use std::alloc::Global;

/// Adds a tree.
#[tactic(auto, using(crate::proofs::OpeningLaws::adds_one))]
fn add_tree<'a, H: Held>(
    alloc: Global,
    _held: &H,
    steps: &mut List<Step<'a>>,
    tree: &'a Expr,
    enclosing: &List<InstanceId>,
    day: u32,
) -> Result<(), NoMemory>
    requires day { day < DAYS }
    requires live { AllByRecursion (IsLive (H.held _held.now)) enclosing.now }
    ensures { OnOk result (Adds (H.rules _held.now) (H.held _held.now) (tree_needs (H.rules _held.now) (H.held _held.now) tree.now enclosing.now day) steps.old steps.new) }
{
    steps.push(Step::Tree(tree, again(alloc, enclosing)?, day))
}

/// Adds a part that has this value: it is looked at where it is unknown.
pub(crate) fn add_valued<'a, H: Held>(
    alloc: Global,
    held: &H,
    steps: &mut List<Step<'a>>,
    part: &'a Expr,
    value: &Value,
    enclosing: &List<InstanceId>,
    day: u32,
) -> Result<(), NoMemory>
    requires day { day < DAYS }
    requires live { AllByRecursion (IsLive (H.held held.now)) enclosing.now }
    requires value { value.now ≡ part_value (H.rules held.now) (H.held held.now) part.now enclosing.now day }
    ensures { OnOk result (Adds (H.rules held.now) (H.held held.now) (part_needs (H.rules held.now) (H.held held.now) part.now enclosing.now day) steps.old steps.new) }
{
    let open = is_unknown(value);
    if open {
        add_tree(alloc, held, steps, part, enclosing, day)
    } else {
        Ok(())
    }
}

/// Adds a part.
pub(crate) fn add_part<'a, H: Held>(
    alloc: Global,
    held: &H,
    steps: &mut List<Step<'a>>,
    part: &'a Expr,
    enclosing: &List<InstanceId>,
    day: u32,
) -> Result<(), NoMemory>
    requires day { day < DAYS }
    requires live { AllByRecursion (IsLive (H.held held.now)) enclosing.now }
    ensures { OnOk result (Adds (H.rules held.now) (H.held held.now) (part_needs (H.rules held.now) (H.held held.now) part.now enclosing.now day) steps.old steps.new) }
{
    let value = value_at(alloc, held, part, enclosing, day)?;
    add_valued(alloc, held, steps, part, &value, enclosing, day)
}

/// Adds a part at a member.
fn add_at<'a, H: Held>(
    alloc: Global,
    held: &H,
    values: &mut MemberValues,
    steps: &mut List<Step<'a>>,
    part: &'a Expr,
    inner: &List<InstanceId>,
    day: u32,
) -> Result<(), NoMemory>
    requires day { day < DAYS }
    requires live { AllByRecursion (IsLive (H.held held.now)) inner.now }
    requires of { AreValuesOf (H.rules held.now) (H.held held.now) part.now values.old }
    ensures adds { OnOk result (Adds (H.rules held.now) (H.held held.now) (part_needs (H.rules held.now) (H.held held.now) part.now inner.now day) steps.old steps.new) }
    ensures stay { OnOk result (AreValuesOf (H.rules held.now) (H.held held.now) part.now values.new) }
{
    let value = values.at(alloc, held, part, inner, day)?;
    add_valued(alloc, held, steps, part, &value, inner, day)
}

/// Adds what is looked at of a member of a quantifier.
fn add_member<'a, H: Held>(
    alloc: Global,
    held: &H,
    values: &mut OperandValues,
    steps: &mut List<Step<'a>>,
    quant: Quant,
    parts: &'a [Expr],
    inner: &List<InstanceId>,
    day: u32,
) -> Result<(), NoMemory>
    requires day { day < DAYS }
    requires live { AllByRecursion (IsLive (H.held held.now)) inner.now }
    requires of { AreOfOperands (H.rules held.now) (H.held held.now) parts.now values.old }
    ensures adds { OnOk result (Adds (H.rules held.now) (H.held held.now) (member_needs (H.rules held.now) (H.held held.now) quant parts.now inner.now day) steps.old steps.new) }
    ensures stay { OnOk result (AreOfOperands (H.rules held.now) (H.held held.now) parts.now values.new) }
{
    match taken(parts) {
        Operands::One(part) => { add_at(alloc, held, &mut values.first, steps, part, inner, day) }
        Operands::Two(number, test) => {
            if quant == Quant::SumIf {
                add_tested(alloc, held, values, steps, number, test, inner, day)
            } else {
                Ok(())
            }
        }
        Operands::Nothing | Operands::Three(_, _, _) | Operands::Many => Ok(()),
    }
}

/// Adds a test, and the number where the test is true.
fn add_tested<'a, H: Held>(
    alloc: Global,
    held: &H,
    values: &mut OperandValues,
    steps: &mut List<Step<'a>>,
    number: &'a Expr,
    test: &'a Expr,
    inner: &List<InstanceId>,
    day: u32,
) -> Result<(), NoMemory>
    requires day { day < DAYS }
    requires live { AllByRecursion (IsLive (H.held held.now)) inner.now }
    requires of { AreOfOperands (H.rules held.now) (H.held held.now) (number.now ∷ test.now ∷ []) values.old }
    ensures adds { OnOk result (Adds (H.rules held.now) (H.held held.now) (member_needs (H.rules held.now) (H.held held.now) quants.SumIf (number.now ∷ test.now ∷ []) inner.now day) steps.old steps.new) }
    ensures stay { OnOk result (AreOfOperands (H.rules held.now) (H.held held.now) (number.now ∷ test.now ∷ []) values.new) }
{
    let value = values.second.at(alloc, held, test, inner, day)?;
    add_valued(alloc, held, steps, test, &value, inner, day)?;
    let met = is_true(&value);
    if met {
        add_at(alloc, held, &mut values.first, steps, number, inner, day)
    } else {
        Ok(())
    }
}

/// The steps of a member of a quantifier.
pub(crate) fn member_steps<'a, H: Held>(
    alloc: Global,
    held: &H,
    values: &mut OperandValues,
    inner: &mut List<InstanceId>,
    quant: Quant,
    target: u32,
    name: &Txt,
    parts: &'a [Expr],
    enclosing: &List<InstanceId>,
    day: u32,
) -> Result<List<Step<'a>>, NoMemory>
    requires day { day < DAYS }
    requires live { AllByRecursion (IsLive (H.held held.now)) enclosing.now }
    requires listed { IsLive (H.held held.now) (named target name.now) }
    requires of { AreOfOperands (H.rules held.now) (H.held held.now) parts.now values.old }
    requires room { HasRoom enclosing.now inner.old }
    ensures steps { IfOk result (StandFor (H.rules held.now) (H.held held.now) (member_needs (H.rules held.now) (H.held held.now) quant parts.now (named target name.now ∷ enclosing.now) day)) }
    ensures stay { OnOk result (AreOfOperands (H.rules held.now) (H.held held.now) parts.now values.new) }
    ensures room { OnOk result (HasRoom enclosing.now inner.new) }
{
    let mut steps = List::new(alloc);
    put_first(alloc, inner, enclosing, target, name)?;
    add_member(alloc, held, values, &mut steps, quant, parts, inner, day)?;
    Ok(steps)
}
