// What quantifiers make of lines of shades.
ghost use Rattle.std.specs.Prelude.{◌≡◌, ◌∷◌, [], IfOk};
ghost use Rattle.opa_date.specs.declared.TheConstants.{DAYS};
ghost use Rattle.opa_line.specs.Lines.{StandsFor};
ghost use Rattle.opa_mean.specs.Meaning.{quant_of};
ghost use Rattle.opa_tree.specs.declared.kinds.Quant.TheVariants as quants;
ghost use Rattle.opa_verify.specs.Listed.Shades.{item_shade, joined, quant_shade};
ghost use Rattle.opa_verify.specs.Listed.ShadeLines.{shade_at, shades_at};

use crate::listed::joins::{decided_line, joined_line, taken_line};
use crate::listed::parts::{Part, part_lines};
use crate::listed::shade::Shade;
use opa_code::{Gathering, amount, gathered, quantified};
use opa_io::NoMemory;
use opa_line::Line;
use opa_tree::Quant;
use opa_value::Value;
use std::alloc::Global;

/// What a quantifier makes of its members.
pub fn quantified_shades(
    alloc: Global,
    quant: Quant,
    lines: &[Line<Shade>],
) -> Result<Line<Shade>, NoMemory>
    ensures { IfOk result (StandsFor DAYS (λ d. quant_shade quant (shades_at lines.now d))) }
{
    match quant {
        Quant::ForAll => decided_line(alloc, true, lines),
        Quant::Exists => decided_line(alloc, false, lines),
        Quant::Count => Line::constant(alloc, Shade::there(amount(lines.len() as u64))),
        Quant::For => only_shades(alloc, lines),
        Quant::CountIf | Quant::Sum | Quant::SumIf | Quant::Maximum | Quant::Minimum => {
            made_shades(alloc, quant, lines)
        }
    }
}

/// The only member; two are missing.
fn only_shades(alloc: Global, lines: &[Line<Shade>]) -> Result<Line<Shade>, NoMemory>
    ensures { IfOk result (StandsFor DAYS (λ d. quant_shade quants.For (shades_at lines.now d))) }
{
    if lines.len() >= 2 {
        Line::constant(alloc, Shade::gone())
    } else {
        made_shades(alloc, Quant::For, lines)
    }
}

fn made_shades(alloc: Global, quant: Quant, lines: &[Line<Shade>]) -> Result<Line<Shade>, NoMemory>
    ensures { IfOk result (StandsFor DAYS (λ d. joined (quant_of quant) (shades_at lines.now d))) }
{
    let values = part_lines(alloc, Part::Value, lines)?;
    let gaps = part_lines(alloc, Part::Gap, lines)?;
    let value = quantified(alloc, quant, &values)?;
    let gap = gathered(alloc, Gathering::Any, &gaps)?;
    joined_line(alloc, &value, &gap)
}

/// What a quantifier makes of the operands at a member.
pub fn item_shades(
    alloc: Global,
    quant: Quant,
    lines: &[Line<Shade>],
) -> Result<Line<Shade>, NoMemory>
    ensures { IfOk result (StandsFor DAYS (λ d. item_shade quant (shades_at lines.now d))) }
{
    match lines {
        [line] => same_shades(alloc, line),
        [number, test] => tested_shades(alloc, quant, number, test),
        _ => Line::constant(alloc, Shade::there(Value::Uncertain)),
    }
}

/// What a quantifier makes of two operands at a member.
fn tested_shades(
    alloc: Global,
    quant: Quant,
    number: &Line<Shade>,
    test: &Line<Shade>,
) -> Result<Line<Shade>, NoMemory>
    ensures { IfOk result (StandsFor DAYS (λ d. item_shade quant (shade_at number.now d ∷ shade_at test.now d ∷ []))) }
{
    match quant {
        Quant::SumIf => {
            let zero = Line::constant(alloc, Shade::there(amount(0)))?;
            taken_line(alloc, test, number, &zero)
        }
        Quant::ForAll
        | Quant::Exists
        | Quant::For
        | Quant::Count
        | Quant::CountIf
        | Quant::Sum
        | Quant::Maximum
        | Quant::Minimum => Line::constant(alloc, Shade::there(Value::Uncertain)),
    }
}

/// An equal line.
pub(crate) fn same_shades(alloc: Global, x: &Line<Shade>) -> Result<Line<Shade>, NoMemory>
    ensures { IfOk result (StandsFor DAYS (shade_at x.now)) }
{
    x.map(alloc, |h: &Shade| h.copy(alloc))
}
