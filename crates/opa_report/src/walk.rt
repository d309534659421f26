// The cone of a point, slot by slot by falling rank.
ghost use Rattle.std.specs.Prelude.{◌≡◌, ◌∷◌, [], ◌<◌, IfOk, OnOk};
ghost use Rattle.std.specs.FinMap.{get};
ghost use Rattle.opa_date.specs.declared.TheConstants.{DAYS};
ghost use Rattle.opa_line.specs.Lines.{StandsFor};
ghost use Rattle.opa_report.specs.DaySets.Sets.{on};
ghost use Rattle.opa_mean.specs.Bases.{RanksFall};
ghost use Rattle.opa_mean.specs.Completion.{AreFacts};
ghost use Rattle.opa_mean.specs.Given.{base_of};
ghost use Rattle.opa_mean.specs.Mean.{Facts, IsLive};
ghost use Rattle.opa_mean.specs.Places.{owner_of};
ghost use Rattle.opa_mean.specs.Uses.{Point};
ghost use Rattle.opa_report.specs.Finding.{AreDaysOf, HasOnly};
ghost use Rattle.opa_report.specs.Walking.{AreSlots, Expands, IsCone, Sees};

use crate::Sight;
use crate::day_sets::{Span, both, covered};
use crate::found::{Found, add_days};
use crate::spread::spread;
use opa_case::InstanceId;
use opa_cells::Cells;
use opa_io::{List, NoMemory};
use opa_line::Line;
use opa_model::AttrId;
use opa_tree::Rulebase;
use std::alloc::Global;

/// The points and lists of a point's cone. The slots come by falling rank, so that each has all of its days when its turn
/// comes.
pub(crate) fn cone<S: Sight>(
    alloc: Global,
    base: &Rulebase,
    sight: &S,
    slots: &[(AttrId, InstanceId)],
    attr: AttrId,
    inst: &InstanceId,
    day: u32,
) -> Result<Found, NoMemory>
    requires { day < DAYS }
    ensures { (c : Facts) → Sees (S.shape sight.now) (S.look sight.now) (S.live sight.now) (base_of base.now) c → RanksFall (base_of base.now) → AreFacts (base_of base.now).shape c → AreSlots (base_of base.now) c slots.now → IsLive c inst.now → inst.now.entity.0 ≡ owner_of (base_of base.now).shape attr → IfOk result (IsCone (base_of base.now) c (Point attr inst.now day)) }
{
    let mut found = only_point(alloc, attr, inst, day)?;
    for (attr, inst) in slots {
        expand(alloc, base, sight, *attr, inst, &mut found)?;
    }
    Ok(found)
}

/// One point alone.
fn only_point(alloc: Global, attr: AttrId, inst: &InstanceId, day: u32) -> Result<Found, NoMemory>
    requires { day < DAYS }
    ensures { IfOk result (HasOnly (Point attr inst.now day)) }
{
    let mut found = Found {
        points: Cells::new(alloc),
        lists: Cells::new(alloc),
    };
    let span = Line::constant(
        alloc,
        Span {
            first: day,
            end: day + 1,
        },
    )?;
    let days = covered(alloc, &span)?;
    add_days(alloc, &mut found, attr, inst, &days)?;
    Ok(found)
}

/// Adds what the rule of a slot uses on the days that were found.
fn expand<S: Sight>(
    alloc: Global,
    base: &Rulebase,
    sight: &S,
    attr: AttrId,
    inst: &InstanceId,
    found: &mut Found,
) -> Result<(), NoMemory>
    ensures { (c : Facts) → Sees (S.shape sight.now) (S.look sight.now) (S.live sight.now) (base_of base.now) c → IsLive c inst.now → OnOk result (Expands (base_of base.now) c attr inst.now found.old found.new) }
{
    match base.rules.of(attr) {
        None => Ok(()),
        Some(rule) => match days_of(alloc, found, attr, inst)? {
            None => Ok(()),
            Some(days) => {
                let enclosing = alone(alloc, inst)?;
                spread(alloc, sight, &rule.expr, enclosing.as_slice(), &days, found)
            }
        },
    }
}

/// The days of a point that were found.
pub(crate) fn days_of(
    alloc: Global,
    found: &Found,
    attr: AttrId,
    inst: &InstanceId,
) -> Result<Option<Line<bool>>, NoMemory>
    ensures { IfOk result (AreDaysOf (get found.now.points (attr.0, inst.now))) }
{
    match found.points.get(attr.0, inst) {
        None => Ok(None),
        Some(days) => Ok(Some(both(alloc, days, days)?)),
    }
}

/// An instance as the only enclosing one.
fn alone(alloc: Global, inst: &InstanceId) -> Result<List<InstanceId>, NoMemory>
    ensures { IfOk result (λ all. all ≡ inst.now ∷ []) }
{
    let mut all = List::new(alloc);
    all.push(inst.copy(alloc)?)?;
    Ok(all)
}
