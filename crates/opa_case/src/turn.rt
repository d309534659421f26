// What a change of a containment list takes out and puts in.
ghost use Rattle.std.specs.Prelude.{◌≡◌, ◌++◌, [], ◌-◌, IfOk, OnOk, unwrap_or};
ghost use Rattle.opa_case.specs.Shapes.{shape_of};
ghost use Rattle.opa_case.specs.Homes.{AreCountsThen};
ghost use Rattle.opa_case.specs.Live.{in_container};
ghost use Rattle.opa_case.specs.Turns.{leaving, coming, names_without, gone_at, gone_upto};

use crate::contained::{Lists, add_contained, add_names};
use crate::counts::Counts;
use crate::declared::{bond_of, nest_of};
use crate::names::names_without;
use opa_cells::InstanceId;
use opa_io::{List, NoMemory, Txt};
use opa_model::{Model, RelId};
use std::alloc::Global;

/// What goes and what comes, each with its container, and how many there are then.
#[derive(Drop)]
pub(crate) struct Turn {
    pub(crate) gone: Vec<(InstanceId, InstanceId)>,
    pub(crate) come: Vec<(InstanceId, InstanceId)>,
    pub(crate) counts: Counts,
}

/// What goes and what comes where a containment list becomes these names.
pub(crate) fn turn_of<L: Lists>(
    alloc: Global,
    model: &Model,
    lists: &L,
    counts: &Counts,
    rel: RelId,
    inst: &InstanceId,
    names: &[Txt],
) -> Result<Turn, NoMemory>
    ensures gone { IfOk result (λ t. t.gone.items ≡ leaving (shape_of model.now) (L.lists lists.now) rel inst.now names.now) }
    ensures come { IfOk result (λ t. t.come.items ≡ coming (shape_of model.now) (L.lists lists.now) rel inst.now names.now) }
    ensures counts { IfOk result (λ t. AreCountsThen counts.now t.counts t.come.items t.gone.items) }
{
    let gone = leaving(alloc, model, lists, rel, inst, names)?;
    let come = coming(alloc, model, lists, rel, inst, names)?;
    let then = counts.then(&come, &gone)?;
    Ok(Turn {
        gone,
        come,
        counts: then,
    })
}

fn leaving<L: Lists>(
    alloc: Global,
    model: &Model,
    lists: &L,
    rel: RelId,
    inst: &InstanceId,
    names: &[Txt],
) -> Result<Vec<(InstanceId, InstanceId)>, NoMemory>
    ensures { IfOk result (λ gone. gone.items ≡ leaving (shape_of model.now) (L.lists lists.now) rel inst.now names.now) }
{
    let target = bond_of(model, rel.0).target;
    let seeds = lost(alloc, lists, rel, target, inst, names)?;
    gone_with(alloc, model, lists, target, &seeds)
}

fn coming<L: Lists>(
    alloc: Global,
    model: &Model,
    lists: &L,
    rel: RelId,
    inst: &InstanceId,
    names: &[Txt],
) -> Result<Vec<(InstanceId, InstanceId)>, NoMemory>
    ensures { IfOk result (λ come. come.items ≡ coming (shape_of model.now) (L.lists lists.now) rel inst.now names.now) }
{
    let target = bond_of(model, rel.0).target;
    let fresh = fresh(alloc, lists, rel, inst, names)?;
    let mut come = Vec::new(alloc);
    add_names(alloc, target, inst, fresh.as_slice(), &mut come)?;
    Ok(come)
}

/// What the list itself loses.
fn lost<L: Lists>(
    alloc: Global,
    lists: &L,
    rel: RelId,
    target: u32,
    inst: &InstanceId,
    names: &[Txt],
) -> Result<Vec<(InstanceId, InstanceId)>, NoMemory>
    ensures { IfOk result (λ seeds. seeds.items ≡ in_container target inst.now (names_without (unwrap_or (L.lists lists.now rel inst.now) []) names.now)) }
{
    let mut seeds = Vec::new(alloc);
    if let Some(old) = lists.list(rel, inst) {
        let lost = names_without(alloc, old.as_slice(), names)?;
        add_names(alloc, target, inst, lost.as_slice(), &mut seeds)?;
    }
    Ok(seeds)
}

/// The names that the list doesn't have yet.
fn fresh<L: Lists>(
    alloc: Global,
    lists: &L,
    rel: RelId,
    inst: &InstanceId,
    names: &[Txt],
) -> Result<List<Txt>, NoMemory>
    ensures { IfOk result (λ fresh. fresh ≡ names_without names.now (unwrap_or (L.lists lists.now rel inst.now) [])) }
{
    match lists.list(rel, inst) {
        Some(old) => names_without(alloc, names, old.as_slice()),
        None => names_without(alloc, names, &[]),
    }
}

/// What goes where these instances of an entity go, in instance order.
fn gone_with<L: Lists>(
    alloc: Global,
    model: &Model,
    lists: &L,
    target: u32,
    seeds: &[(InstanceId, InstanceId)],
) -> Result<Vec<(InstanceId, InstanceId)>, NoMemory>
    ensures { IfOk result (λ gone. gone.items ≡ gone_upto (shape_of model.now) (L.lists lists.now) target seeds.now ((shape_of model.now).count - 1)) }
{
    if seeds.is_empty() {
        return Ok(Vec::new(alloc));
    }
    let count = model.entity_count();
    let mut gone = Vec::new(alloc);
    let mut entity = 0;
    while entity + 1 < count {
        entity += 1;
        add_gone(alloc, model, lists, target, seeds, entity, &mut gone)?;
    }
    Ok(gone)
}

/// Adds what goes of an entity.
fn add_gone<L: Lists>(
    alloc: Global,
    model: &Model,
    lists: &L,
    target: u32,
    seeds: &[(InstanceId, InstanceId)],
    entity: u32,
    gone: &mut Vec<(InstanceId, InstanceId)>,
) -> Result<(), NoMemory>
    ensures { OnOk result (gone.new.items ≡ gone.old.items ++ gone_at (shape_of model.now) (L.lists lists.now) target seeds.now entity gone.old.items) }
{
    if entity == target {
        return add_copies(alloc, seeds, gone);
    }
    let nest = nest_of(model, entity);
    if nest.parent == 0 {
        return Ok(());
    }
    add_contained(alloc, lists, nest.parent, nest.contained, entity, gone)
}

fn add_copies(
    alloc: Global,
    seeds: &[(InstanceId, InstanceId)],
    gone: &mut Vec<(InstanceId, InstanceId)>,
) -> Result<(), NoMemory>
    ensures { OnOk result (gone.new.items ≡ gone.old.items ++ seeds.now) }
{
    for (inst, container) in seeds {
        let copy = inst.copy(alloc)?;
        gone.push((copy, container.copy(alloc)?))?;
    }
    Ok(())
}
