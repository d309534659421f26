// The lists that differ where one list is set or forgotten.
ghost use Rattle.std.specs.Prelude.{◌≡◌, ◌++◌, flat_map, IfOk, OnOk};
ghost use Rattle.opa_case.specs.Overlays.{relisted_case};
ghost use Rattle.opa_mean.specs.Reached.ByLists.{AreListsTold};
ghost use Rattle.opa_mean.specs.Reached.Settling.{shift};
ghost use Rattle.opa_session.specs.Readers.Renewing.{list_told};

use crate::telling::same_names;
use opa_case::{Case, InstanceId, Question, Relisted};
use opa_io::{List, NoMemory};
use opa_model::RelId;
use opa_tree::Rulebase;
use std::alloc::Global;

/// The lists that differ at instances that stay, where one list is set or forgotten and not written yet. It looks at those alone
/// that may be others. The rulebase is there for the contract alone.
pub fn lists_told(
    alloc: Global,
    base: &Rulebase,
    held: &Case,
    next: &Relisted<'_>,
) -> Result<List<Question>, NoMemory>
    requires { held.now ≡ next.now.case.now }
    ensures { IfOk result (AreListsTold (shift base.now next.now.case.now (relisted_case next.now))) }
{
    let touched = next.touched(alloc)?;
    let keys = touched.as_slice();
    let told = differing(alloc, held, next, keys)?;
    Ok(told)
}

/// Of some lists those that differ.
fn differing(
    alloc: Global,
    held: &Case,
    next: &Relisted<'_>,
    keys: &[(RelId, InstanceId)],
) -> Result<List<Question>, NoMemory>
    ensures { IfOk result (λ told. told ≡ flat_map (λ x. list_told held.now (relisted_case next.now) (x.0.0, x.1)) keys.now) }
{
    let mut told = List::new(alloc);
    for (rel, inst) in keys {
        add_differing(alloc, held, next, *rel, inst, &mut told)?;
    }
    Ok(told)
}

/// Adds a list, where it differs.
fn add_differing(
    alloc: Global,
    held: &Case,
    next: &Relisted<'_>,
    rel: RelId,
    inst: &InstanceId,
    told: &mut List<Question>,
) -> Result<(), NoMemory>
    ensures { OnOk result (told.new ≡ told.old ++ list_told held.now (relisted_case next.now) (rel.0, inst.now)) }
{
    let same = same_names(held.list_of(rel, inst), next.list_of(rel, inst));
    if same {
        Ok(())
    } else {
        let inst = inst.copy(alloc)?;
        told.push(Question::Members(rel, inst))?;
        Ok(())
    }
}
