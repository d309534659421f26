// The members lines of a report.
ghost use Rattle.std.specs.Prelude.{◌≡◌, ◌++◌, flat_map, is_some, IfOk, OnOk};
ghost use Rattle.std.specs.FinMap.{get};
ghost use Rattle.opa_mean.specs.Mean.{Base, Facts};
ghost use Rattle.opa_report.specs.Finding.{has};
ghost use Rattle.opa_report.specs.ReportLines.{key_lines};
ghost use Rattle.opa_report.specs.Walking.{Sees};

use crate::found::Found;
use crate::{ReportLine, Sight};
use opa_case::InstanceId;
use opa_io::{List, NoMemory, Txt};
use opa_model::RelId;
use std::alloc::Global;

/// The lines of the lists that were found, key by key.
pub(crate) fn list_lines<S: Sight>(
    alloc: Global,
    sight: &S,
    found: &Found,
    keys: &[(RelId, InstanceId)],
) -> Result<List<ReportLine>, NoMemory>
    ensures { (b : Base) (c : Facts) → Sees (S.shape sight.now) (S.look sight.now) (S.live sight.now) b c → IfOk result (λ lines. lines ≡ flat_map (λ x. key_lines b c (has found.now) x.0 x.1) keys.now) }
{
    let mut lines = List::new(alloc);
    for (rel, inst) in keys {
        add_list_line(alloc, sight, found, *rel, inst, &mut lines)?;
    }
    Ok(lines)
}

fn add_list_line<S: Sight>(
    alloc: Global,
    sight: &S,
    found: &Found,
    rel: RelId,
    inst: &InstanceId,
    lines: &mut List<ReportLine>,
) -> Result<(), NoMemory>
    ensures { (b : Base) (c : Facts) → Sees (S.shape sight.now) (S.look sight.now) (S.live sight.now) b c → OnOk result (lines.new ≡ lines.old ++ key_lines b c (has found.now) rel inst.now) }
{
    if is_found(found, rel, inst) {
        let names = names_of(alloc, sight, rel, inst)?;
        lines.push(ReportLine::Members {
            rel,
            inst: inst.copy(alloc)?,
            names,
        })
    } else {
        Ok(())
    }
}

pub(crate) fn is_found(found: &Found, rel: RelId, inst: &InstanceId) -> bool
    ensures { result ≡ is_some (get found.now.lists (rel.0, inst.now)) }
{
    found.lists.get(rel.0, inst).is_some()
}

/// A list, where it is known.
fn names_of<S: Sight>(
    alloc: Global,
    sight: &S,
    rel: RelId,
    inst: &InstanceId,
) -> Result<Option<List<Txt>>, NoMemory>
    ensures { IfOk result (λ names. names ≡ (S.look sight.now).members rel inst.now) }
{
    match sight.members(rel, inst) {
        None => Ok(None),
        Some(names) => Ok(Some(copied(alloc, names.as_slice())?)),
    }
}

fn copied(alloc: Global, names: &[Txt]) -> Result<List<Txt>, NoMemory>
    ensures { IfOk result (λ list. list ≡ names.now) }
{
    let mut list = List::new(alloc);
    for name in names {
        list.push(name.copy(alloc)?)?;
    }
    Ok(list)
}
