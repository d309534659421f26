// What a rule concludes over what is listed, as a line.
ghost use Rattle.std.specs.Prelude.{IfOk};
ghost use Rattle.opa_date.specs.declared.TheConstants.{DAYS};
ghost use Rattle.opa_line.specs.Lines.{StandsFor};
ghost use Rattle.opa_value.specs.Fit.{fit_of};
ghost use Rattle.opa_verify.specs.Listed.Shades.{mapped, shade};
ghost use Rattle.opa_verify.specs.Listed.ShadeLines.{shade_at};

use crate::listed::joins::joined_line;
use crate::listed::parts::{Part, part_line};
use crate::listed::shade::Shade;
use crate::listed::sheet::Sheet;
use crate::listed::walk::shade_line;
use opa_case::InstanceId;
use opa_code::fitted_line;
use opa_io::NoMemory;
use opa_line::Line;
use opa_tree::Expr;
use std::alloc::Global;

/// What a rule's tree concludes on each day, or that it is missing.
pub fn concluded_line<K: Sheet>(
    alloc: Global,
    sheet: &K,
    money: bool,
    tree: &Expr,
    enclosing: &[InstanceId],
) -> Result<Line<Shade>, NoMemory>
    ensures { IfOk result (StandsFor DAYS (λ d. mapped (fit_of money)
        (shade (K.shape sheet.now) (K.listing sheet.now) tree.now enclosing.now d))) }
{
    let seen = shade_line(alloc, sheet, tree, enclosing)?;
    let line = fitted_shades(alloc, money, &seen)?;
    Ok(line)
}

/// Concluded values: a currency is rounded.
fn fitted_shades(alloc: Global, money: bool, x: &Line<Shade>) -> Result<Line<Shade>, NoMemory>
    ensures { IfOk result (StandsFor DAYS (λ d. mapped (fit_of money) (shade_at x.now d))) }
{
    let values = fitted_line(alloc, money, &part_line(alloc, Part::Value, x)?)?;
    joined_line(alloc, &values, &part_line(alloc, Part::Gap, x)?)
}
