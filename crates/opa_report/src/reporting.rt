// The lines of a report.
ghost use Rattle.std.specs.Prelude.{◌≡◌, ◌∷◌, ◌++◌, [], ◌<◌, cond, flat_map, IfOk, OnOk};
ghost use Rattle.opa_date.specs.declared.TheConstants.{DAYS};
ghost use Rattle.opa_mean.specs.Given.{base_of};
ghost use Rattle.opa_mean.specs.Mean.{Base, Facts, IsLive};
ghost use Rattle.opa_mean.specs.Places.{owner_of};
ghost use Rattle.opa_mean.specs.Uses.{Point};
ghost use Rattle.opa_report.specs.Owning.{is_marked};
ghost use Rattle.opa_report.specs.ReportLines.{contained_lines};
ghost use Rattle.opa_report.specs.declared.lines.ReportLine.TheVariants as line;
ghost use Rattle.opa_report.specs.Reporting.{AreOf, IsPlaced, IsWhole};
ghost use Rattle.opa_report.specs.Walking.{Sees};

use crate::listed::list_lines;
use crate::owned::{mark_lists, mark_points};
use crate::points::point_lines;
use crate::walk::cone;
use crate::{ReportLine, Sight};
use opa_case::InstanceId;
use opa_cells::Cells;
use opa_io::{List, NoMemory};
use opa_model::{AttrId, RelId};
use opa_tree::Rulebase;
use std::alloc::Global;

/// The lines of the report of a point.
pub(crate) fn report_lines<S: Sight>(
    alloc: Global,
    base: &Rulebase,
    sight: &S,
    slots: &[(AttrId, InstanceId)],
    keys: &[(RelId, InstanceId)],
    instances: &[InstanceId],
    attr: AttrId,
    inst: &InstanceId,
    day: u32,
) -> Result<List<ReportLine>, NoMemory>
    requires { day < DAYS }
    ensures { (c : Facts) → Sees (S.shape sight.now) (S.look sight.now) (S.live sight.now) (base_of base.now) c → AreOf (base_of base.now) c slots.now keys.now instances.now → IsLive c inst.now → inst.now.entity.0 ≡ owner_of (base_of base.now).shape attr → IsPlaced (base_of base.now) c (Point attr inst.now day) → IfOk result (IsWhole (base_of base.now) c (Point attr inst.now day)) }
{
    let found = cone(alloc, base, sight, slots, attr, inst, day)?;
    let mut owned = Cells::new(alloc);
    mark_points(alloc, sight, &found, slots, &mut owned)?;
    mark_lists(alloc, sight, &found, keys, &mut owned)?;
    let mut lines = point_lines(alloc, sight, &found, slots)?;
    let listed = list_lines(alloc, sight, &found, keys)?;
    append(&mut lines, listed)?;
    add_members(alloc, sight, &owned, instances, &mut lines)?;
    Ok(lines)
}

fn append(lines: &mut List<ReportLine>, more: List<ReportLine>) -> Result<(), NoMemory>
    ensures { OnOk result (lines.new ≡ lines.old ++ more) }
{
    for line in more.into_vec() {
        lines.push(line)?;
    }
    Ok(())
}

/// Adds the lines of instances that are owned, each with its container.
fn add_members<S: Sight>(
    alloc: Global,
    sight: &S,
    owned: &Cells<bool>,
    instances: &[InstanceId],
    lines: &mut List<ReportLine>,
) -> Result<(), NoMemory>
    ensures { (b : Base) (c : Facts) → Sees (S.shape sight.now) (S.look sight.now) (S.live sight.now) b c → OnOk result (lines.new ≡ lines.old ++ flat_map (λ i. cond (is_marked owned.now i) (contained_lines b c i (c.container i)) []) instances.now) }
{
    for inst in instances {
        add_member(alloc, sight, owned, inst, lines)?;
    }
    Ok(())
}

fn add_member<S: Sight>(
    alloc: Global,
    sight: &S,
    owned: &Cells<bool>,
    inst: &InstanceId,
    lines: &mut List<ReportLine>,
) -> Result<(), NoMemory>
    ensures { (b : Base) (c : Facts) → Sees (S.shape sight.now) (S.look sight.now) (S.live sight.now) b c → OnOk result (lines.new ≡ lines.old ++ cond (is_marked owned.now inst.now) (contained_lines b c inst.now (c.container inst.now)) []) }
{
    if is_owned(owned, inst) {
        add_contained(alloc, sight, inst, lines)
    } else {
        Ok(())
    }
}

fn is_owned(owned: &Cells<bool>, inst: &InstanceId) -> bool
    ensures { result ≡ is_marked owned.now inst.now }
{
    owned.get(0, inst).is_some()
}

fn add_contained<S: Sight>(
    alloc: Global,
    sight: &S,
    inst: &InstanceId,
    lines: &mut List<ReportLine>,
) -> Result<(), NoMemory>
    ensures { (b : Base) (c : Facts) → Sees (S.shape sight.now) (S.look sight.now) (S.live sight.now) b c → OnOk result (lines.new ≡ lines.old ++ contained_lines b c inst.now (c.container inst.now)) }
{
    match sight.container(inst) {
        None => Ok(()),
        Some(above) => add_line(
            lines,
            sight.contained(inst.entity.0),
            above.copy(alloc)?,
            inst.copy(alloc)?,
        ),
    }
}

fn add_line(
    lines: &mut List<ReportLine>,
    rel: RelId,
    container: InstanceId,
    inst: InstanceId,
) -> Result<(), NoMemory>
    ensures { OnOk result (lines.new ≡ lines.old ++ line.Member rel container inst ∷ []) }
{
    lines.push(ReportLine::Member {
        rel,
        container,
        inst,
    })
}
