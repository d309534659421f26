// The report of a point over a held case.
ghost use Rattle.std.specs.Prelude.{◌≡◌, ◌<◌, true, ◌++◌, flat_map, is_some, IfOk, IfSome, OnOk};
ghost use Rattle.opa_date.specs.declared.TheConstants.{DAYS};
ghost use Rattle.opa_mean.specs.Given.{base_of, facts_of};
ghost use Rattle.opa_mean.specs.Rulebases.{IsOf};
ghost use Rattle.opa_mean.specs.Uses.{Point};
ghost use Rattle.opa_report.specs.Promises as promise;
ghost use Rattle.opa_report.specs.Reporting.{IsWhole};
ghost use Rattle.opa_report.specs.Walking.{Sees};

use crate::held::HeldSight;
use crate::order::{keys, slots};
use crate::reporting::report_lines;
use crate::{Report, ReportLine, Sight};
use opa_case::{Case, InstanceId, live_instances};
use opa_date::DAYS;
use opa_io::{List, NoMemory};
use opa_mean::{Held, has_place};
use opa_model::AttrId;
use opa_tree::Rulebase;
use std::alloc::Global;

/// The report of an attribute for an instance at a day. None exactly where the attribute isn't declared, or the instance
/// isn't live or not of the attribute's entity.
pub fn report<H: Held>(
    alloc: Global,
    held: &H,
    attr: AttrId,
    inst: &InstanceId,
    day: u32,
) -> Result<Option<Report>, NoMemory>
    requires { day < DAYS }
    ensures none { IfOk result (λ o. is_some o ≡ promise.is_point (H.rules held.now) (H.held held.now) attr inst.now) }
    ensures point { IfOk result (λ o. IfSome o (promise.IsAbout attr inst.now day)) }
    ensures exact { IfOk result (λ o. IfSome o (promise.IsExact (H.rules held.now) (H.held held.now))) }
    ensures supports { IfOk result (λ o. IfSome o (promise.SupportsValue (H.rules held.now) (H.held held.now))) }
    ensures entries { IfOk result (λ o. IfSome o (promise.ListsEntries (H.rules held.now) (H.held held.now))) }
    ensures days { IfOk result (λ o. IfSome o promise.HasDays) }
    ensures declared { IfOk result (λ o. IfSome o (promise.IsDeclaredBy (H.rules held.now))) }
{
    let o = about(alloc, held, attr, inst, day)?;
    Ok(o)
}

/// All that is promised of a report.
fn about<H: Held>(
    alloc: Global,
    held: &H,
    attr: AttrId,
    inst: &InstanceId,
    day: u32,
) -> Result<Option<Report>, NoMemory>
    requires { day < DAYS }
    ensures none { IfOk result (λ o. is_some o ≡ promise.is_point (H.rules held.now) (H.held held.now) attr inst.now) }
    ensures kept { IfOk result (λ o. IfSome o (promise.Keeps (H.rules held.now) (H.held held.now) attr inst.now day)) }
{
    let base = held.base();
    let case = held.case();
    if is_point(base, case, attr, inst) {
        let lines = held_lines(alloc, held, attr, inst, day)?;
        let inst = inst.copy(alloc)?;
        Ok(Some(Report {
            attr,
            inst,
            day,
            lines,
        }))
    } else {
        Ok(None)
    }
}

fn is_point(base: &Rulebase, case: &Case, attr: AttrId, inst: &InstanceId) -> bool
    ensures { result ≡ promise.is_point base.now case.now attr inst.now }
{
    attr.0 < base.model.attribute_count() && has_place(base, case, attr, inst)
}

/// The lines of a report over a held case.
fn held_lines<H: Held>(
    alloc: Global,
    held: &H,
    attr: AttrId,
    inst: &InstanceId,
    day: u32,
) -> Result<List<ReportLine>, NoMemory>
    requires { day < DAYS }
    ensures { promise.is_point (H.rules held.now) (H.held held.now) attr inst.now ≡ true → IfOk result (IsWhole (base_of (H.rules held.now)) (facts_of (H.held held.now)) (Point attr inst.now day)) }
{
    let base = held.base();
    let case = held.case();
    lines_over(alloc, base, case, &HeldSight { held }, attr, inst, day)
}

/// The lines of a report over what is seen of a case.
fn lines_over<S: Sight>(
    alloc: Global,
    base: &Rulebase,
    case: &Case,
    sight: &S,
    attr: AttrId,
    inst: &InstanceId,
    day: u32,
) -> Result<List<ReportLine>, NoMemory>
    requires day { day < DAYS }
    requires fits { IsOf base.now case.now }
    ensures { Sees (S.shape sight.now) (S.look sight.now) (S.live sight.now) (base_of base.now) (facts_of case.now) → promise.is_point base.now case.now attr inst.now ≡ true → IfOk result (IsWhole (base_of base.now) (facts_of case.now) (Point attr inst.now day)) }
{
    let live = live_instances(alloc, &base.model, &base.ruled, case)?;
    let lists = live.as_slice();
    let all_slots = slots(alloc, base, lists)?;
    let all_keys = keys(alloc, base, lists)?;
    let instances = joined(alloc, lists)?;
    let slot_items = all_slots.as_slice();
    let key_items = all_keys.as_slice();
    let inst_items = instances.as_slice();
    report_lines(
        alloc, base, sight, slot_items, key_items, inst_items, attr, inst, day,
    )
}

/// The instances of lists, one list after another.
fn joined(alloc: Global, lists: &[List<InstanceId>]) -> Result<List<InstanceId>, NoMemory>
    ensures { IfOk result (λ all. all ≡ flat_map (λ xs. xs) lists.now) }
{
    let mut all = List::new(alloc);
    for list in lists {
        append(alloc, list.as_slice(), &mut all)?;
    }
    Ok(all)
}

fn append(alloc: Global, insts: &[InstanceId], all: &mut List<InstanceId>) -> Result<(), NoMemory>
    ensures { OnOk result (all.new ≡ all.old ++ insts.now) }
{
    for inst in insts {
        all.push(inst.copy(alloc)?)?;
    }
    Ok(())
}
