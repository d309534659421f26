// Lines of shades from lines of values, and of what is missing.
ghost use Rattle.std.specs.Prelude.{◌≡◌, IfOk};
ghost use Rattle.opa_date.specs.declared.TheConstants.{DAYS};
ghost use Rattle.opa_line.specs.Lines.{StandsFor};
ghost use Rattle.opa_value.specs.Truth as truth;
ghost use Rattle.opa_value.specs.Truth.{strict};
ghost use Rattle.opa_window.specs.Days.{day_value};
ghost use Rattle.opa_mean.specs.Operations.{op_of};
ghost use Rattle.opa_verify.specs.Listed.Shades.{choice_shade, joined};
ghost use Rattle.opa_verify.specs.Listed.ShadeLines as meant;

use crate::listed::parts::{Part, part_line, part_lines};
use crate::listed::shade::Shade;
use opa_code::{Gathering, choice_line, gathered, op_line};
use opa_io::NoMemory;
use opa_line::Line;
use opa_tree::OpKind;
use opa_value::Value;
use std::alloc::Global;

/// The values, missing where the other line is true.
pub fn joined_line(
    alloc: Global,
    values: &Line<Value>,
    gaps: &Line<Value>,
) -> Result<Line<Shade>, NoMemory>
    ensures { IfOk result (StandsFor DAYS (λ d. meant.shade_from (day_value values.now d) (day_value gaps.now d))) }
{
    values.zip(alloc, gaps, |v: &Value, gap: &Value| joined(alloc, v, gap))
}

fn joined(alloc: Global, value: &Value, gap: &Value) -> Result<Shade, NoMemory>
    ensures { IfOk result (λ h. h ≡ meant.shade_from value.now gap.now) }
{
    let value = value.copy(alloc)?;
    Ok(Shade {
        value,
        missing: is_true(gap),
    })
}

fn is_true(value: &Value) -> bool
    ensures { result ≡ truth.is_true value.now }
{
    match value {
        Value::Bool(b) => *b,
        _ => false,
    }
}

/// All where what is missing counts as true, any where it counts as false.
pub fn decided_line(
    alloc: Global,
    neutral: bool,
    lines: &[Line<Shade>],
) -> Result<Line<Shade>, NoMemory>
    ensures { IfOk result (StandsFor DAYS (λ d. meant.decided_shade neutral (meant.shades_at lines.now d))) }
{
    let counted = part_lines(alloc, Part::Counted(neutral), lines)?;
    let gaps = part_lines(alloc, Part::Gap, lines)?;
    let values = gathered(alloc, table(neutral), &counted)?;
    let gap = gathered(alloc, Gathering::Any, &gaps)?;
    values.zip(alloc, &gap, move |v: &Value, gap: &Value| {
        decided(alloc, neutral, v, gap)
    })
}

fn table(neutral: bool) -> Gathering
    ensures { result ≡ meant.table_of neutral }
{
    if neutral {
        Gathering::All
    } else {
        Gathering::Any
    }
}

fn decided(alloc: Global, neutral: bool, value: &Value, gap: &Value) -> Result<Shade, NoMemory>
    ensures { IfOk result (λ h. h ≡ meant.unless_decided neutral value.now gap.now) }
{
    let missing = is_true(gap) && !decides(neutral, value);
    let value = value.copy(alloc)?;
    Ok(Shade { value, missing })
}

fn decides(neutral: bool, value: &Value) -> bool
    ensures { result ≡ meant.decides neutral value.now }
{
    match value {
        Value::Bool(b) => *b != neutral,
        _ => false,
    }
}

/// A strict operation, missing where an operand is.
pub fn strict_line(
    alloc: Global,
    kind: OpKind,
    lines: &[Line<Shade>],
) -> Result<Line<Shade>, NoMemory>
    ensures { IfOk result (StandsFor DAYS (λ d. joined (strict (op_of kind)) (meant.shades_at lines.now d))) }
{
    let values = part_lines(alloc, Part::Value, lines)?;
    let gaps = part_lines(alloc, Part::Gap, lines)?;
    let value = op_line(alloc, kind, &values)?;
    let gap = gathered(alloc, Gathering::Any, &gaps)?;
    joined_line(alloc, &value, &gap)
}

/// What a condition takes.
pub fn taken_line(
    alloc: Global,
    cond: &Line<Shade>,
    value: &Line<Shade>,
    rest: &Line<Shade>,
) -> Result<Line<Shade>, NoMemory>
    ensures { IfOk result (StandsFor DAYS (λ d. choice_shade (meant.shade_at cond.now d)
        (meant.shade_at value.now d) (meant.shade_at rest.now d))) }
{
    let conds = part_line(alloc, Part::Value, cond)?;
    let values = choice_line(
        alloc,
        &conds,
        &part_line(alloc, Part::Value, value)?,
        &part_line(alloc, Part::Value, rest)?,
    )?;
    let gaps = choice_line(
        alloc,
        &conds,
        &part_line(alloc, Part::Gap, value)?,
        &part_line(alloc, Part::Gap, rest)?,
    )?;
    let gap = either_line(alloc, &part_line(alloc, Part::Gap, cond)?, &gaps)?;
    joined_line(alloc, &values, &gap)
}

/// True where one of both is true.
pub(crate) fn either_line(
    alloc: Global,
    x: &Line<Value>,
    y: &Line<Value>,
) -> Result<Line<Value>, NoMemory>
    ensures { IfOk result (StandsFor DAYS (λ d. meant.either (day_value x.now d) (day_value y.now d))) }
{
    x.zip(alloc, y, |v: &Value, w: &Value| Ok(either(v, w)))
}

fn either(value: &Value, other: &Value) -> Value
    ensures { result ≡ meant.either value.now other.now }
{
    Value::Bool(is_true(value) || is_true(other))
}
