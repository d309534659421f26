// What is asked for in place of an unknown list.
ghost use Rattle.std.specs.Prelude.{◌≡◌, IfOk};
ghost use Rattle.opa_case.specs.Cases.{list_of};
ghost use Rattle.opa_case.specs.Live as live;
ghost use Rattle.opa_case.specs.Shapes.{shape_of};
ghost use Rattle.opa_mean.specs.Needs as need;
ghost use Rattle.opa_mean.specs.Uses.{Listed};

use opa_case::InstanceId;
use opa_io::{List, NoMemory};
use opa_mean::{Held, is_every, target_of};
use opa_model::{EntityId, RelId};
use std::alloc::Global;

/// The list that is asked for in place of an unknown one: a list of all instances is never asked, but what keeps these from
/// being known.
pub(crate) fn asked_list<H: Held>(
    alloc: Global,
    held: &H,
    rel: RelId,
    inst: &InstanceId,
) -> Result<(RelId, InstanceId), NoMemory>
    ensures { IfOk result (λ q. Listed q.0 q.1 ≡ need.asked (shape_of (H.rules held.now).model) (list_of (H.held held.now)) rel inst.now) }
{
    let model = &held.base().model;
    if is_every(model, rel) {
        gap(alloc, held, target_of(model, rel))
    } else {
        Ok((rel, inst.copy(alloc)?))
    }
}

/// What keeps the instances of an entity from being known, from its parents on down: the list that contains it, of the first
/// instance of its parent that has none; where the parent's instances aren't known either, what keeps these.
fn gap<H: Held>(alloc: Global, held: &H, entity: u32) -> Result<(RelId, InstanceId), NoMemory>
    ensures { IfOk result (λ q. Listed q.0 q.1 ≡ need.gap (shape_of (H.rules held.now).model) (list_of (H.held held.now)) entity) }
{
    let mut steps = held.base().model.entity_count();
    let mut entity = entity;
    while steps > 0 {
        steps -= 1;
        let (contained, parent) = nest_of(held, entity);
        match walk(alloc, held, steps, parent)? {
            None => entity = parent,
            Some(parents) => {
                let inst = first_unlisted(alloc, held, contained, parents.as_slice())?;
                return Ok((contained, inst));
            }
        }
    }
    let (contained, _) = nest_of(held, entity);
    let inst = InstanceId::global(alloc)?;
    Ok((contained, inst))
}

/// The relation that contains the instances of an entity, and its parent.
fn nest_of<H: Held>(held: &H, entity: u32) -> (RelId, u32)
    ensures contained { result.0 ≡ (shape_of (H.rules held.now).model).contained entity }
    ensures parent { result.1 ≡ (shape_of (H.rules held.now).model).parent entity }
{
    let model = &held.base().model;
    if entity < model.entity_count() {
        let declared = model.entity(EntityId(entity));
        (declared.contained, declared.parent.0)
    } else {
        (RelId(0), 0)
    }
}

/// All instances of an entity, where all lists that lead to them within so many steps are known.
fn walk<H: Held>(
    alloc: Global,
    held: &H,
    steps: u32,
    entity: u32,
) -> Result<Option<List<InstanceId>>, NoMemory>
    ensures { IfOk result (λ found. found ≡ live.walk (shape_of (H.rules held.now).model) (list_of (H.held held.now)) steps entity) }
{
    held.case().walk(alloc, &held.base().model, steps, entity)
}

/// The first of the instances whose list isn't known, and the global one where all are.
fn first_unlisted<H: Held>(
    alloc: Global,
    held: &H,
    rel: RelId,
    instances: &[InstanceId],
) -> Result<InstanceId, NoMemory>
    ensures { IfOk result (λ i. i ≡ need.first_unlisted (list_of (H.held held.now) rel) instances.now) }
{
    let case = held.case();
    for inst in instances {
        if case.list_of(rel, inst).is_none() {
            return Ok(inst.copy(alloc)?);
        }
    }
    Ok(InstanceId::global(alloc)?)
}
