// The live instances, entity by entity.
ghost use Rattle.std.specs.Prelude.{◌≡◌, ◌<◌, ◌+◌, ◌++◌, [], map, length, slice_index_or, IfOk, OnOk};
ghost use Rattle.opa_cells.specs.Instances.{named};
ghost use Rattle.opa_case.specs.Cases.{list_of};
ghost use Rattle.opa_case.specs.Fits.{Fits};
ghost use Rattle.opa_case.specs.Instances.{AreInstances, listed_by};
ghost use Rattle.opa_case.specs.Live.{members};
ghost use Rattle.opa_case.specs.Shapes.{shape_of};
ghost use Rattle.opa_model.specs.Models.{IsModel};

use crate::case::Case;
use crate::declared::nest_of;
use opa_cells::InstanceId;
use opa_io::{List, NoMemory, Txt};
use opa_model::{EntityId, Model, RelId, Ruled};
use std::alloc::Global;

/// A list for each entity: its live instances in instance order.
pub fn live_instances(
    alloc: Global,
    model: &Model,
    ruled: &Ruled,
    case: &Case,
) -> Result<List<List<InstanceId>>, NoMemory>
    requires { Fits (shape_of model.now) ruled.now case.now }
    ensures { IfOk result (λ lists. AreInstances (length model.now.entities) case.now lists) }
{
    let count = model.entity_count();
    let mut lists = List::new(alloc);
    lists.push(only_global(alloc)?)?;
    let mut entity = 1;
    while entity < count {
        add_entity(alloc, model, ruled, case, entity, &mut lists)?;
        entity += 1;
    }
    Ok(lists)
}

fn only_global(alloc: Global) -> Result<List<InstanceId>, NoMemory>
    ensures { IfOk result (λ list. list ≡ members 0 []) }
{
    let mut list = List::new(alloc);
    list.push(InstanceId::global(alloc)?)?;
    Ok(list)
}

/// Adds the instances of the next entity.
fn add_entity(
    alloc: Global,
    model: &Model,
    ruled: &Ruled,
    case: &Case,
    entity: u32,
    lists: &mut List<List<InstanceId>>,
) -> Result<(), NoMemory>
    requires form { IsModel model.now }
    requires fits { Fits (shape_of model.now) ruled.now case.now }
    requires contained { 0 < entity }
    requires declared { entity < length model.now.entities }
    requires before { AreInstances entity case.now lists.old }
    ensures { OnOk result (AreInstances (entity + 1) case.now lists.new) }
{
    let nest = nest_of(model, entity);
    let containers = instances_of(lists.as_slice(), nest.parent);
    let found = listed_in(alloc, case, nest.contained, entity, containers)?;
    lists.push(found)
}

/// The instances of an entity; none past the entities that have a list.
pub fn instances_of(lists: &[List<InstanceId>], entity: u32) -> &[InstanceId]
    ensures { result.now ≡ slice_index_or lists.now entity [] }
{
    match lists.get(entity as usize) {
        Some(list) => list.as_slice(),
        None => &[],
    }
}

/// What containers list, one container after another.
fn listed_in(
    alloc: Global,
    case: &Case,
    rel: RelId,
    entity: u32,
    containers: &[InstanceId],
) -> Result<List<InstanceId>, NoMemory>
    ensures { IfOk result (λ found. found ≡ listed_by (list_of case.now) rel entity containers.now) }
{
    let mut found = List::new(alloc);
    for container in containers {
        if let Some(names) = case.list_of(rel, container) {
            add_names(alloc, entity, names.as_slice(), &mut found)?;
        }
    }
    Ok(found)
}

fn add_names(
    alloc: Global,
    entity: u32,
    names: &[Txt],
    found: &mut List<InstanceId>,
) -> Result<(), NoMemory>
    ensures { OnOk result (found.new ≡ found.old ++ map (named entity) names.now) }
{
    for name in names {
        let inst = InstanceId {
            entity: EntityId(entity),
            name: name.copy(alloc)?,
        };
        found.push(inst)?;
    }
    Ok(())
}
