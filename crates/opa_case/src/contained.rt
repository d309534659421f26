// What containers have, by the lists.
ghost use Rattle.std.specs.Prelude.{◌≡◌, true, ◌<◌, ◌++◌, ◌^◌, map, flat_map, length, unwrap_or, [], List, IfOk, OnOk, Option};
ghost use Rattle.std.specs.Option.{option_copied};
ghost use Rattle.opa_cells.specs.declared.instance.InstanceId.{InstanceId as InstanceView};
ghost use Rattle.opa_cells.specs.Instances.{named};
ghost use Rattle.opa_case.specs.Fewer.{AreFewer};
ghost use Rattle.opa_case.specs.Shapes.{shape_of};
ghost use Rattle.opa_case.specs.Live.{Lists as Known, members, live_of, held, held_names, in_container};

use crate::declared::nest_of;
use opa_cells::InstanceId;
use opa_io::{List, NoMemory, Txt};
use opa_model::{EntityId, Model, RelId};
use std::alloc::Global;

/// Where lists are looked up.
pub(crate) trait Lists {
    ghost lists: { Self → Known };

    fn list(&self, rel: RelId, inst: &InstanceId) -> Option<&List<Txt>>
        ensures { option_copied result ≡ lists self.now rel inst.now };

    /// Whether fewer instances than this have a list of the relation.
    fn are_fewer(&self, rel: RelId, count: u64) -> bool
        ensures { result ≡ true → AreFewer (lists self.now) rel count };
}

/// Adds what the instances of the parent contain.
pub(crate) fn add_contained<L: Lists>(
    alloc: Global,
    lists: &L,
    parent: u32,
    rel: RelId,
    entity: u32,
    order: &mut Vec<(InstanceId, InstanceId)>,
) -> Result<(), NoMemory>
    ensures { OnOk result (order.new.items ≡ order.old.items ++ flat_map (λ c. held_names entity c (L.lists lists.now rel c)) (members parent order.old.items)) }
{
    let containers = members_of(alloc, parent, order)?;
    for container in &containers {
        if let Some(names) = lists.list(rel, container) {
            add_names(alloc, entity, container, names.as_slice(), order)?;
        }
    }
    Ok(())
}

/// Adds what a container has.
pub(crate) fn add_names(
    alloc: Global,
    entity: u32,
    container: &InstanceId,
    names: &[Txt],
    order: &mut Vec<(InstanceId, InstanceId)>,
) -> Result<(), NoMemory>
    ensures { OnOk result (order.new.items ≡ order.old.items ++ in_container entity container.now names.now) }
{
    for name in names {
        let inst = InstanceId {
            entity: EntityId(entity),
            name: name.copy(alloc)?,
        };
        order.push((inst, container.copy(alloc)?))?;
    }
    Ok(())
}

/// The instances of an entity.
fn members_of(
    alloc: Global,
    entity: u32,
    order: &[(InstanceId, InstanceId)],
) -> Result<Vec<InstanceId>, NoMemory>
    ensures { IfOk result (λ found. found.items ≡ members entity order.now) }
{
    let mut found = Vec::new(alloc);
    if entity == 0 {
        found.push(InstanceId::global(alloc)?)?;
        return Ok(found);
    }
    for (inst, _) in order {
        if inst.entity.0 == entity {
            found.push(inst.copy(alloc)?)?;
        }
    }
    Ok(found)
}
