// Lines with the same value at every day.
ghost use Rattle.std.specs.Prelude.{◌≡◌, ◌∷◌, [], ℕ, IfOk, IfSome};
ghost use Rattle.opa_value.specs.declared.value.Value.TheVariants.{Bool as Truth};
ghost use Rattle.opa_window.specs.Days.{day_value};
ghost use Rattle.opa_mean.specs.Meaning as meant;
ghost use Rattle.opa_code.specs.OverLines.Lines.{values_at};
ghost use Rattle.opa_code.specs.OverLines.Tallies as tallies;

use crate::over_lines::gathering::Gathering;
use crate::over_lines::operand::Operand;
use crate::over_lines::tally::Tally;
use opa_io::NoMemory;
use opa_line::Line;
use opa_value::Value;
use std::alloc::Global;

/// The value of a line that doesn't change.
pub fn constant_of(line: &Line<Value>) -> Option<&Value>
    ensures { IfSome result (λ v. (d : ℕ) → day_value line.now d ≡ v.now) }
{
    line.only()
}

/// Whether a line is true at every day or false at every day, if it is one of these.
pub fn truth_of(line: &Line<Value>) -> Option<bool>
    ensures { IfSome result (λ holds. (d : ℕ) → day_value line.now d ≡ Truth holds) }
{
    let value = constant_of(line)?;
    match value {
        Value::Bool(holds) => Some(*holds),
        _ => None,
    }
}

/// The tally with one value more.
#[inline(always)]
pub fn counted(most: bool, tally: &Tally, value: &Value) -> Tally
    requires { tallies.AreSmall tally.now.sums }
    ensures { tallies.IsCounted most value.now tally.now result }
{
    let one = Tally::one(value);
    Tally::both(most, tally, &one)
}

/// What a tally tells, where the first item is as it is at the first day.
pub fn told_first(
    alloc: Global,
    gathering: Gathering,
    tally: &Tally,
    operands: &[Operand<'_>],
) -> Result<Value, NoMemory>
    ensures { IfOk result (λ v. v ≡ tallies.told gathering tally.now (meant.first_value (values_at operands.now 0))) }
{
    match operands {
        [] => tally.told(alloc, gathering, &Value::Uncertain),
        [operand, ..] => tally.told(alloc, gathering, operand.line().at(0)),
    }
}

/// The tally of operands of which each has the same value at every day.
pub fn constant_tally(most: bool, operands: &[Operand<'_>]) -> Option<Tally>
    ensures { IfSome result (tallies.AreConstant most operands.now) }
{
    let mut tally = Tally::none();
    for operand in operands {
        let Some(value) = constant_of(operand.line()) else {
            return None;
        };
        tally = counted(most, &tally, value);
    }
    Some(tally)
}
