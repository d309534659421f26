// The point lines of a report.
ghost use Rattle.std.specs.Prelude.{◌≡◌, ◌++◌, flat_map, IfOk, OnOk};
ghost use Rattle.opa_mean.specs.Mean.{Base, Facts};
ghost use Rattle.opa_report.specs.Finding.{has};
ghost use Rattle.opa_report.specs.ReportLines.{slot_lines};
ghost use Rattle.opa_report.specs.Walking.{AreSlots, IsSlotOf, Sees};

use crate::found::Found;
use crate::runs::add_runs;
use crate::walk::days_of;
use crate::{ReportLine, Sight};
use opa_case::InstanceId;
use opa_io::{List, NoMemory};
use opa_model::AttrId;
use std::alloc::Global;

/// The lines of the points that were found, slot by slot, each with rising days.
pub(crate) fn point_lines<S: Sight>(
    alloc: Global,
    sight: &S,
    found: &Found,
    slots: &[(AttrId, InstanceId)],
) -> Result<List<ReportLine>, NoMemory>
    ensures { (b : Base) (c : Facts) → Sees (S.shape sight.now) (S.look sight.now) (S.live sight.now) b c → AreSlots b c slots.now → IfOk result (λ lines. lines ≡ flat_map (λ x. slot_lines b c (has found.now) x.0 x.1) slots.now) }
{
    let mut lines = List::new(alloc);
    for (attr, inst) in slots {
        add_point(alloc, sight, found, *attr, inst, &mut lines)?;
    }
    Ok(lines)
}

/// Adds the lines of a slot.
fn add_point<S: Sight>(
    alloc: Global,
    sight: &S,
    found: &Found,
    attr: AttrId,
    inst: &InstanceId,
    lines: &mut List<ReportLine>,
) -> Result<(), NoMemory>
    ensures { (b : Base) (c : Facts) → Sees (S.shape sight.now) (S.look sight.now) (S.live sight.now) b c → IsSlotOf b c attr inst.now → OnOk result (lines.new ≡ lines.old ++ slot_lines b c (has found.now) attr inst.now) }
{
    match days_of(alloc, found, attr, inst)? {
        None => Ok(()),
        Some(days) => {
            let values = sight.line(alloc, attr, inst)?;
            add_runs(alloc, attr, inst, &days, &values, lines)
        }
    }
}
