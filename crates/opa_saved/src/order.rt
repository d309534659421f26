// The instances that are live, in their order.
ghost use Rattle.std.specs.Prelude.{◌≡◌, ◌<◌, ◌++◌, map, flat_map, length, IfOk, OnOk};
ghost use Rattle.std.specs.Option.{option_copied};
ghost use Rattle.opa_case.specs.Shapes.{shape_of, nest_of};
ghost use Rattle.opa_case.specs.Cases.{list_of, stored};
ghost use Rattle.opa_case.specs.Live.{Lists as Known, members, live_of, held, held_names, in_container};

use opa_case::Case;
use opa_cells::{Cells, InstanceId};
use opa_io::{List, NoMemory, Txt};
use opa_model::{EntityId, Model, RelId};
use std::alloc::Global;

/// Where lists are looked up.
pub(crate) trait Lists {
    ghost lists: { Self → Known };

    fn list(&self, rel: RelId, inst: &InstanceId) -> Option<&List<Txt>>
        ensures { option_copied result ≡ lists self.now rel inst.now };
}

impl Lists for Case {
    ghost lists = { λ c. list_of c };

    fn list(&self, rel: RelId, inst: &InstanceId) -> Option<&List<Txt>> {
        self.list_of(rel, inst)
    }
}

impl Lists for Cells<List<Txt>> {
    ghost lists = { λ c. stored c };

    fn list(&self, rel: RelId, inst: &InstanceId) -> Option<&List<Txt>> {
        self.get(rel.0, inst)
    }
}

/// The instances that the lists make live, each with its container, in instance order.
pub(crate) fn live_order<L: Lists>(
    alloc: Global,
    model: &Model,
    lists: &L,
) -> Result<Vec<(InstanceId, InstanceId)>, NoMemory>
    ensures { IfOk result (λ order. order.items ≡ live_of (shape_of model.now) (L.lists lists.now)) }
{
    let count = model.entity_count();
    let mut order = Vec::new(alloc);
    let mut entity = 0;
    while entity + 1 < count {
        entity += 1;
        add_entity(alloc, model, lists, entity, &mut order)?;
    }
    Ok(order)
}

/// Adds the instances of an entity.
fn add_entity<L: Lists>(
    alloc: Global,
    model: &Model,
    lists: &L,
    entity: u32,
    order: &mut Vec<(InstanceId, InstanceId)>,
) -> Result<(), NoMemory>
    requires { entity < length model.now.entities }
    ensures { OnOk result (order.new.items ≡ order.old.items ++ flat_map (held (shape_of model.now) (L.lists lists.now) entity) (members ((shape_of model.now).parent entity) order.old.items)) }
{
    let (parent, contained) = place_of(model, entity);
    add_contained(alloc, lists, parent, contained, entity, order)
}

/// The parent of an entity, and the relation that contains its instances.
pub(crate) fn place_of(model: &Model, entity: u32) -> (u32, RelId)
    requires { entity < length model.now.entities }
    ensures parent { result.0 ≡ (nest_of model.now entity).parent }
    ensures contained { result.1 ≡ (nest_of model.now entity).contained }
{
    let declared = model.entity(EntityId(entity));
    (declared.parent.0, declared.contained)
}

/// Adds what the instances of the parent contain.
fn add_contained<L: Lists>(
    alloc: Global,
    lists: &L,
    parent: u32,
    rel: RelId,
    entity: u32,
    order: &mut Vec<(InstanceId, InstanceId)>,
) -> Result<(), NoMemory>
    ensures { OnOk result (order.new.items ≡ order.old.items ++ flat_map (λ c. held_names entity c (L.lists lists.now rel c)) (members parent order.old.items)) }
{
    let containers = members_of(alloc, parent, order)?;
    for container in &containers {
        if let Some(names) = lists.list(rel, container) {
            add_names(alloc, entity, container, names.as_slice(), order)?;
        }
    }
    Ok(())
}

/// Adds what a container has.
fn add_names(
    alloc: Global,
    entity: u32,
    container: &InstanceId,
    names: &[Txt],
    order: &mut Vec<(InstanceId, InstanceId)>,
) -> Result<(), NoMemory>
    ensures { OnOk result (order.new.items ≡ order.old.items ++ in_container entity container.now names.now) }
{
    for name in names {
        let inst = InstanceId {
            entity: EntityId(entity),
            name: name.copy(alloc)?,
        };
        order.push((inst, container.copy(alloc)?))?;
    }
    Ok(())
}

/// The instances of an entity.
pub(crate) fn members_of(
    alloc: Global,
    entity: u32,
    order: &[(InstanceId, InstanceId)],
) -> Result<Vec<InstanceId>, NoMemory>
    ensures { IfOk result (λ found. found.items ≡ members entity order.now) }
{
    let mut found = Vec::new(alloc);
    if entity == 0 {
        found.push(InstanceId::global(alloc)?)?;
        return Ok(found);
    }
    for (inst, _) in order {
        if inst.entity.0 == entity {
            found.push(inst.copy(alloc)?)?;
        }
    }
    Ok(found)
}
