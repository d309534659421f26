// Lines of shades from one line of shades.
ghost use Rattle.std.specs.Prelude.{◌≡◌, IfOk};
ghost use Rattle.opa_date.specs.declared.TheConstants.{DAYS};
ghost use Rattle.opa_line.specs.Lines.{StandsFor};
ghost use Rattle.opa_value.specs.Truth.{not_of};
ghost use Rattle.opa_mean.specs.Meaning.{certain_of, known_of};
ghost use Rattle.opa_mean.specs.Spans as spans;
ghost use Rattle.opa_verify.specs.Listed.Shades.{mapped};
ghost use Rattle.opa_window.specs.Days.{day_value};
ghost use Rattle.opa_verify.specs.Listed.ShadeLines.{dated_shade, shade_at};

use crate::listed::joins::joined_line;
use crate::listed::parts::{Part, part_line};
use crate::listed::shade::Shade;
use opa_code::{certain_line, known_line, not_line};
use opa_io::NoMemory;
use opa_line::Line;
use opa_tree::WinKind;
use opa_value::Value;
use opa_window::{before, on_or_after, years_since};
use std::alloc::Global;

pub fn not_shades(alloc: Global, x: &Line<Shade>) -> Result<Line<Shade>, NoMemory>
    ensures { IfOk result (StandsFor DAYS (λ d. mapped not_of (shade_at x.now d))) }
{
    let values = not_line(alloc, &part_line(alloc, Part::Value, x)?)?;
    joined_line(alloc, &values, &part_line(alloc, Part::Gap, x)?)
}

pub fn certain_shades(alloc: Global, x: &Line<Shade>) -> Result<Line<Shade>, NoMemory>
    ensures { IfOk result (StandsFor DAYS (λ d. mapped certain_of (shade_at x.now d))) }
{
    let values = certain_line(alloc, &part_line(alloc, Part::Value, x)?)?;
    joined_line(alloc, &values, &part_line(alloc, Part::Gap, x)?)
}

pub fn known_shades(alloc: Global, x: &Line<Shade>) -> Result<Line<Shade>, NoMemory>
    ensures { IfOk result (StandsFor DAYS (λ d. mapped known_of (shade_at x.now d))) }
{
    let values = known_line(alloc, &part_line(alloc, Part::Value, x)?)?;
    joined_line(alloc, &values, &part_line(alloc, Part::Gap, x)?)
}

/// A function of one date.
pub fn dated_shades(alloc: Global, kind: WinKind, x: &Line<Shade>) -> Result<Line<Shade>, NoMemory>
    ensures { IfOk result (StandsFor DAYS (λ d. dated_shade kind (shade_at x.now d) d)) }
{
    match kind {
        WinKind::Before | WinKind::OnOrAfter | WinKind::YearsSince => {
            let values = dated_line(alloc, kind, &part_line(alloc, Part::Value, x)?)?;
            joined_line(alloc, &values, &part_line(alloc, Part::Gap, x)?)
        }
        WinKind::ValueAt
        | WinKind::Always
        | WinKind::Sometimes
        | WinKind::DailySum
        | WinKind::Maximum
        | WinKind::Minimum
        | WinKind::ConsecutiveDays => Line::constant(alloc, Shade::there(Value::Uncertain)),
    }
}

fn dated_line(alloc: Global, kind: WinKind, x: &Line<Value>) -> Result<Line<Value>, NoMemory>
    ensures { IfOk result (StandsFor DAYS (λ d. spans.dated kind (day_value x.now d) d)) }
{
    match kind {
        WinKind::Before => before(alloc, x),
        WinKind::OnOrAfter => on_or_after(alloc, x),
        WinKind::YearsSince => years_since(alloc, x),
        WinKind::ValueAt
        | WinKind::Always
        | WinKind::Sometimes
        | WinKind::DailySum
        | WinKind::Maximum
        | WinKind::Minimum
        | WinKind::ConsecutiveDays => Line::constant(alloc, Value::Uncertain),
    }
}
