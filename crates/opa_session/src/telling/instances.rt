// The wanted live instances, entity by entity.
ghost use Rattle.std.specs.Prelude.{◌≡◌, ◌<◌, ◌+◌, ◌++◌, ◌∷◌, [], map, filter, length, IfOk, IfSome, OnOk};
ghost use Rattle.std.specs.Option.{option_copied};
ghost use Rattle.opa_case.specs.Cases.{list_of};
ghost use Rattle.opa_cells.specs.Instances.{global, named};
ghost use Rattle.opa_session.specs.Telling.Placed.{HaveNames};
ghost use Rattle.opa_session.specs.Telling.Sought.{is_wanted};
ghost use Rattle.opa_session.specs.Telling.Wanted.{AreAmong, IsClosed, wanted_listed};

use crate::telling::lined::Lined;
use crate::telling::one_list::listed_by_one;
use crate::telling::sought::Sought;
use opa_case::{InstanceId, instances_of};
use opa_io::{List, NoMemory, Txt};
use opa_model::{EntityId, RelId};
use std::alloc::Global;

/// A list for each entity: its live instances in instance order; where some are wanted, these alone. Only the lists of wanted
/// containers are gone through, and what isn't wanted isn't copied.
pub(crate) fn instances_among<K: Lined>(
    alloc: Global,
    held: &K,
    wanted: Option<&Sought>,
) -> Result<List<List<InstanceId>>, NoMemory>
    requires { IsClosed (K.over held.now).live (is_wanted (option_copied wanted)) }
    ensures { IfOk result (λ lists. AreAmong (length (K.rules held.now).model.entities) (K.over held.now).live (is_wanted (option_copied wanted.entry)) lists) }
{
    let base = held.base();
    let count = base.model.entity_count();
    let mut lists = List::new(alloc);
    lists.push(only_global(alloc, wanted)?)?;
    let mut entity = 1;
    while entity < count {
        add_entity(alloc, held, entity, wanted, &mut lists)?;
        entity += 1;
    }
    Ok(lists)
}

fn only_global(alloc: Global, wanted: Option<&Sought>) -> Result<List<InstanceId>, NoMemory>
    ensures { IfOk result (λ list. list ≡ filter (is_wanted (option_copied wanted.entry)) (global ∷ [])) }
{
    let mut list = List::new(alloc);
    let name = Txt::from_str(alloc, "")?;
    add_name(alloc, 0, &name, wanted, &mut list)?;
    Ok(list)
}

/// Adds the instances of the next entity.
fn add_entity<K: Lined>(
    alloc: Global,
    held: &K,
    entity: u32,
    wanted: Option<&Sought>,
    lists: &mut List<List<InstanceId>>,
) -> Result<(), NoMemory>
    requires contained { 0 < entity }
    requires declared { entity < length (K.rules held.now).model.entities }
    requires closed { IsClosed (K.over held.now).live (is_wanted (option_copied wanted)) }
    requires before { AreAmong entity (K.over held.now).live (is_wanted (option_copied wanted)) lists.old }
    ensures { OnOk result (AreAmong (entity + 1) (K.over held.now).live (is_wanted (option_copied wanted.entry)) lists.new) }
{
    let base = held.base();
    let nest = base.model.entity(EntityId(entity));
    let containers = instances_of(lists.as_slice(), nest.parent.0);
    let found = listed(alloc, held, nest.contained, entity, containers, wanted)?;
    lists.push(found)?;
    Ok(())
}

/// What containers list.
fn listed<K: Lined>(
    alloc: Global,
    held: &K,
    rel: RelId,
    entity: u32,
    containers: &[InstanceId],
    wanted: Option<&Sought>,
) -> Result<List<InstanceId>, NoMemory>
    requires { HaveNames (K.over held.now) rel }
    ensures { IfOk result (λ found. found ≡ wanted_listed (is_wanted (option_copied wanted.entry)) (list_of (K.over held.now)) rel entity containers.now) }
{
    let quick = quickly(alloc, held, rel, entity, containers, wanted)?;
    match quick {
        Some(found) => Ok(found),
        None => {
            let found = listed_in(alloc, held, rel, entity, containers, wanted)?;
            Ok(found)
        }
    }
}

fn quickly<K: Lined>(
    alloc: Global,
    held: &K,
    rel: RelId,
    entity: u32,
    containers: &[InstanceId],
    wanted: Option<&Sought>,
) -> Result<Option<List<InstanceId>>, NoMemory>
    requires { HaveNames (K.over held.now) rel }
    ensures { IfOk result (λ o. IfSome o (λ found. found ≡ wanted_listed (is_wanted (option_copied wanted.entry)) (list_of (K.over held.now)) rel entity containers.now)) }
{
    match wanted {
        None => Ok(None),
        Some(sought) => {
            let found = listed_by_one(alloc, held, rel, entity, containers, sought)?;
            Ok(found)
        }
    }
}

/// What containers list, one container after another.
fn listed_in<K: Lined>(
    alloc: Global,
    held: &K,
    rel: RelId,
    entity: u32,
    containers: &[InstanceId],
    wanted: Option<&Sought>,
) -> Result<List<InstanceId>, NoMemory>
    ensures { IfOk result (λ found. found ≡ wanted_listed (is_wanted (option_copied wanted.entry)) (list_of (K.over held.now)) rel entity containers.now) }
{
    let mut found = List::new(alloc);
    for container in containers {
        if let Some(names) = held.list_of(rel, container) {
            add_names(alloc, entity, names.as_slice(), wanted, &mut found)?;
        }
    }
    Ok(found)
}

fn add_names(
    alloc: Global,
    entity: u32,
    names: &[Txt],
    wanted: Option<&Sought>,
    found: &mut List<InstanceId>,
) -> Result<(), NoMemory>
    ensures { OnOk result (found.new ≡ found.old ++ filter (is_wanted (option_copied wanted.entry)) (map (named entity) names.now)) }
{
    for name in names {
        add_name(alloc, entity, name, wanted, found)?;
    }
    Ok(())
}

/// Adds the instance of a name, where it is wanted.
#[inline(always)]
fn add_name(
    alloc: Global,
    entity: u32,
    name: &Txt,
    wanted: Option<&Sought>,
    found: &mut List<InstanceId>,
) -> Result<(), NoMemory>
    ensures { OnOk result (found.new ≡ found.old ++ filter (is_wanted (option_copied wanted.entry)) (named entity name.now ∷ [])) }
{
    if is_wanted(wanted, entity, name) {
        let inst = InstanceId {
            entity: EntityId(entity),
            name: name.copy(alloc)?,
        };
        found.push(inst)?;
        Ok(())
    } else {
        Ok(())
    }
}

#[inline(always)]
fn is_wanted(wanted: Option<&Sought>, entity: u32, name: &Txt) -> bool
    ensures { result ≡ is_wanted (option_copied wanted.entry) (named entity name.now) }
{
    match wanted {
        Some(wanted) => wanted.has(entity, name),
        None => true,
    }
}
