// Points and lists that were found.
ghost use Rattle.std.specs.Prelude.{◌≡◌, ◌∷◌, [], ◌||◌, IfOk, OnOk};
ghost use Rattle.std.specs.FinMap.{get};
ghost use Rattle.opa_date.specs.declared.TheConstants.{DAYS};
ghost use Rattle.opa_line.specs.Lines.{StandsFor};
ghost use Rattle.opa_report.specs.DaySets.Sets.{on};
ghost use Rattle.opa_mean.specs.Uses.{Point, Listed};
ghost use Rattle.opa_report.specs.Adding.{Adds};
ghost use Rattle.opa_report.specs.Finding.{on_some};

use crate::day_sets::{either, has_some};
use opa_case::InstanceId;
use opa_cells::Cells;
use opa_io::NoMemory;
use opa_line::Line;
use opa_model::{AttrId, RelId};
use std::alloc::Global;

/// The days of each point that were found, and the lists.
#[derive(Drop)]
pub(crate) struct Found {
    pub(crate) points: Cells<Line<bool>>,
    pub(crate) lists: Cells<bool>,
}

/// Adds days of a point.
pub(crate) fn add_days(
    alloc: Global,
    found: &mut Found,
    attr: AttrId,
    inst: &InstanceId,
    days: &Line<bool>,
) -> Result<(), NoMemory>
    ensures { OnOk result (Adds (on days.now) (λ d. Point attr inst.now d ∷ []) found.old found.new) }
{
    let joined = joined(alloc, found, attr, inst, days)?;
    found.points.insert(attr.0, inst.copy(alloc)?, joined)
}

/// The days of a point with more days.
fn joined(
    alloc: Global,
    found: &Found,
    attr: AttrId,
    inst: &InstanceId,
    days: &Line<bool>,
) -> Result<Line<bool>, NoMemory>
    ensures { IfOk result (StandsFor DAYS (λ d. on_some (get found.now.points (attr.0, inst.now)) d || on days.now d)) }
{
    match found.points.get(attr.0, inst) {
        None => either(alloc, days, days),
        Some(before) => either(alloc, before, days),
    }
}

/// Adds a list, where there is a day on which it is used.
pub(crate) fn add_list(
    alloc: Global,
    found: &mut Found,
    rel: RelId,
    inst: &InstanceId,
    days: &Line<bool>,
) -> Result<(), NoMemory>
    ensures { OnOk result (Adds (on days.now) (λ _. Listed rel inst.now ∷ []) found.old found.new) }
{
    if has_some(days) {
        found.lists.insert(rel.0, inst.copy(alloc)?, true)
    } else {
        Ok(())
    }
}
