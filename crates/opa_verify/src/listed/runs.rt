// What is listed of an attribute at an instance, as a line.
ghost use Rattle.std.specs.Prelude.{◌≡◌, ◌<◌, IfOk, All};
ghost use Rattle.opa_date.specs.declared.TheConstants.{DAYS};
ghost use Rattle.opa_line.specs.Lines.{StandsFor};
ghost use Rattle.opa_verify.specs.Listed.ShadeLines.{behind as behind_day, run_at, runs_at};

use crate::listed::shade::Shade;
use opa_date::DAYS;
use opa_io::NoMemory;
use opa_line::{Builder, Line};
use opa_value::Value;
use std::alloc::Global;

/// A value from a day to a day, the last one too.
#[derive(Debug, Drop)]
pub struct Run {
    pub start: u32,
    pub end: u32,
    pub value: Value,
}

/// What the runs list on each day: of several runs that have the day, the first counts. They are halved, so that each
/// change point is met once for each halving, in whatever order the runs stand.
#[cycle(halves)]
pub fn listed_line(alloc: Global, runs: &[Run]) -> Result<Line<Shade>, NoMemory>
    ensures { IfOk result (StandsFor DAYS (runs_at runs.now)) }
{
    match runs {
        [] => Line::constant(alloc, Shade::gone()),
        [run] => one_line(alloc, run),
        _ => {
            let (left, right) = runs.split_at(runs.len() / 2);
            let first = listed_line(alloc, left)?;
            let second = listed_line(alloc, right)?;
            first.zip(alloc, &second, |h: &Shade, other: &Shade| {
                h.or(alloc, other)
            })
        }
    }
}

fn one_line(alloc: Global, run: &Run) -> Result<Line<Shade>, NoMemory>
    ensures { IfOk result (StandsFor DAYS (run_at run.now)) }
{
    let start = run.start.min(DAYS);
    let behind = behind(run.end);
    let mut line = Builder::new(alloc);
    line.until(start, Shade::gone())?;
    line.until(behind, Shade::there(run.value.copy(alloc)?))?;
    line.until(DAYS, Shade::gone())?;
    Ok(line.finish())
}

/// The day behind a day, or the calendar's end.
fn behind(day: u32) -> u32
    ensures { result ≡ behind_day day }
{
    if day < DAYS { day + 1 } else { DAYS }
}
