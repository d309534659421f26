// What is told of shades by lines of values.
ghost use Rattle.std.specs.Prelude.{ℕ, ◌≡◌, ◌<◌, ◌++◌, ◌∷◌, [], IfOk, OnOk, map};
ghost use Rattle.opa_date.specs.declared.TheConstants.{DAYS};
ghost use Rattle.opa_line.specs.Lines.{StandsFor};
ghost use Rattle.opa_code.specs.OverLines.Lines.{values_at};
ghost use Rattle.opa_verify.specs.Listed.ShadeLines.{part_of, shade_at, shades_at};

use crate::listed::shade::Shade;
use opa_io::NoMemory;
use opa_line::Line;
use opa_value::Value;
use std::alloc::Global;

/// The value, whether it is missing, or the value where what is missing counts as a truth value.
#[derive(Clone, Copy, Debug)]
pub enum Part {
    Value,
    Gap,
    Counted(bool),
}

pub fn part_line(alloc: Global, part: Part, x: &Line<Shade>) -> Result<Line<Value>, NoMemory>
    ensures { IfOk result (StandsFor DAYS (λ d. part_of part (shade_at x.now d))) }
{
    x.map(alloc, move |h: &Shade| told(alloc, part, h))
}

fn told(alloc: Global, part: Part, shade: &Shade) -> Result<Value, NoMemory>
    ensures { IfOk result (λ v. v ≡ part_of part shade.now) }
{
    match part {
        Part::Value => shade.value.copy(alloc),
        Part::Gap => Ok(Value::Bool(shade.missing)),
        Part::Counted(neutral) => shade.counted_as(alloc, neutral),
    }
}

pub fn part_lines(
    alloc: Global,
    part: Part,
    lines: &[Line<Shade>],
) -> Result<Vec<Line<Value>>, NoMemory>
    ensures { IfOk result (λ vs. (d : ℕ) → d < DAYS →
        values_at vs.items d ≡ map (part_of part) (shades_at lines.now d)) }
{
    let mut parts = Vec::new(alloc);
    for line in lines {
        let told = part_line(alloc, part, line)?;
        add(&mut parts, told)?;
    }
    Ok(parts)
}

fn add(lines: &mut Vec<Line<Value>>, line: Line<Value>) -> Result<(), NoMemory>
    ensures { OnOk result (lines.new.items ≡ lines.old.items ++ line ∷ []) }
{
    lines.push(line)?;
    Ok(())
}
