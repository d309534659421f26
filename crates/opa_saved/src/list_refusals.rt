// Why lists of a saved case are refused.
ghost use Rattle.std.specs.Prelude.{◌≡◌, ◌++◌, option_to_list, IfOk, OnOk};
ghost use Rattle.opa_model.specs.Lookups.{relation_named};
ghost use Rattle.opa_model.specs.Models.{HasRelation};
ghost use Rattle.opa_saved.specs.Loading as meant;

use crate::declared::{find_relation, relation_of};
use crate::entries::ListEntry;
use crate::living::Living;
use opa_case::{Refusal, list_fault};
use opa_cells::InstanceId;
use opa_io::{NoMemory, Txt, front};
use opa_model::{Model, RelId};
use std::alloc::Global;

/// Adds why lists are refused.
pub(crate) fn add_list_refusals(
    alloc: Global,
    model: &Model,
    living: &Living,
    lists: &[ListEntry],
    refusals: &mut Vec<Refusal>,
) -> Result<(), NoMemory>
    ensures { OnOk result (refusals.new.items ≡ refusals.old.items ++ meant.list_refusals model.now living.now lists.now) }
{
    let mut rest = lists;
    while let Some((entry, later)) = front(rest) {
        let refusal = list_refusal(alloc, model, living, entry)?;
        add_refusal(refusal, refusals)?;
        rest = later;
    }
    Ok(())
}

pub(crate) fn add_refusal(
    refusal: Option<Refusal>,
    refusals: &mut Vec<Refusal>,
) -> Result<(), NoMemory>
    ensures { OnOk result (refusals.new.items ≡ refusals.old.items ++ option_to_list refusal) }
{
    if let Some(refusal) = refusal {
        refusals.push(refusal)?;
    }
    Ok(())
}

/// Why a list is refused.
fn list_refusal(
    alloc: Global,
    model: &Model,
    living: &Living,
    entry: &ListEntry,
) -> Result<Option<Refusal>, NoMemory>
    ensures { IfOk result (λ r. r ≡ meant.list_refusal model.now living.now (relation_named model.now entry.now.point.phrase) entry.now) }
{
    match find_relation(model, &entry.point.phrase) {
        Some(rel) => {
            let inst = list_instance(alloc, model, rel, &entry.point.name)?;
            list_fault(alloc, living, model, rel, &inst, entry.names.as_slice())
        }
        None => Ok(Some(Refusal::Name)),
    }
}

/// The instance whose list it is.
pub(crate) fn list_instance(
    alloc: Global,
    model: &Model,
    rel: RelId,
    name: &Txt,
) -> Result<InstanceId, NoMemory>
    requires { HasRelation model.now rel }
    ensures { IfOk result (λ i. i ≡ meant.list_instance model.now rel name.now) }
{
    let name = name.copy(alloc)?;
    Ok(InstanceId {
        entity: relation_of(model, rel).source,
        name,
    })
}
