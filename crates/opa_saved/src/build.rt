// A case with the lists of a saved case, none of which is refused.
ghost use Rattle.std.specs.Prelude.{◌≡◌, ◌<◌, ◌+◌, length, IfOk, OnOk, Ok};
ghost use Rattle.std.specs.FinMap.{empty};
ghost use Rattle.opa_model.specs.Models.{HasRelation};
ghost use Rattle.opa_case.specs.Cases.{CaseView};
ghost use Rattle.opa_case.specs.Fits.{Fits};
ghost use Rattle.opa_case.specs.Shapes.{shape_of};
ghost use Rattle.opa_case.specs.Steps as step;
ghost use Rattle.opa_saved.specs.Building.{AreTaken, HoldsSome, Agrees, OnlyContains, HasBefore, Keeps, TakesList};
ghost use Rattle.opa_saved.specs.Loading.{case_with};

use crate::declared::relation_of;
use crate::maps::copy_names;
use crate::order::place_of;
use opa_case::Case;
use opa_cells::{Cells, InstanceId};
use opa_io::{List, NoMemory, Txt};
use opa_model::{Model, RelId, Ruled};
use std::alloc::Global;

/// The case that knows these lists, and nothing else.
pub(crate) fn case_of_lists(
    alloc: Global,
    model: &Model,
    ruled: &Ruled,
    lists: &Cells<List<Txt>>,
) -> Result<Case, NoMemory>
    requires { AreTaken (shape_of model.now) ruled.now lists.now }
    ensures is { IfOk result (λ c. c ≡ case_with (shape_of model.now) lists.now empty) }
    ensures fits { IfOk result (Fits (shape_of model.now) ruled.now) }
{
    let count = model.entity_count();
    let mut case = Case::new(alloc);
    let mut entity = 0;
    while entity + 1 < count {
        entity += 1;
        put_contained(alloc, model, ruled, lists, entity, &mut case)?;
    }
    put_references(alloc, model, ruled, lists, &mut case)?;
    Ok(case)
}

/// Sets the lists that contain instances of an entity, after those of the entities before it.
fn put_contained(
    alloc: Global,
    model: &Model,
    ruled: &Ruled,
    lists: &Cells<List<Txt>>,
    entity: u32,
    case: &mut Case,
) -> Result<(), NoMemory>
    requires taken { AreTaken (shape_of model.now) ruled.now lists.now }
    requires positive { 0 < entity }
    requires declared { entity < length model.now.entities }
    requires some { HoldsSome (shape_of model.now) ruled.now lists.now case.old }
    requires only { OnlyContains (shape_of model.now) case.old }
    requires before { HasBefore (shape_of model.now) lists.now case.old entity }
    ensures some { OnOk result (HoldsSome (shape_of model.now) ruled.now lists.now case.new) }
    ensures only { OnOk result (OnlyContains (shape_of model.now) case.new) }
    ensures before { OnOk result (HasBefore (shape_of model.now) lists.now case.new (entity + 1)) }
{
    // The count shows the model's form.
    let _count = model.entity_count();
    let cells = lists.each(alloc)?;
    for (number, inst, _) in &cells {
        put_one_contained(alloc, model, ruled, lists, entity, *number, inst, case)?;
    }
    Ok(())
}

/// Sets a list, if it contains instances of the entity.
fn put_one_contained(
    alloc: Global,
    model: &Model,
    ruled: &Ruled,
    lists: &Cells<List<Txt>>,
    entity: u32,
    number: u32,
    inst: &InstanceId,
    case: &mut Case,
) -> Result<(), NoMemory>
    requires taken { AreTaken (shape_of model.now) ruled.now lists.now }
    requires positive { 0 < entity }
    requires declared { entity < length model.now.entities }
    requires some { HoldsSome (shape_of model.now) ruled.now lists.now case.old }
    requires only { OnlyContains (shape_of model.now) case.old }
    requires before { HasBefore (shape_of model.now) lists.now case.old entity }
    ensures some { OnOk result (HoldsSome (shape_of model.now) ruled.now lists.now case.new) }
    ensures only { OnOk result (OnlyContains (shape_of model.now) case.new) }
    ensures keeps { OnOk result (Keeps lists.now case.old case.new) }
    ensures here { OnOk result (number ≡ ((shape_of model.now).contained entity).0 → Agrees lists.now case.new number inst.now) }
{
    // The count shows the model's form.
    let _count = model.entity_count();
    let (_, contained) = place_of(model, entity);
    if number != contained.0 {
        return Ok(());
    }
    let Some(names) = lists.get(contained.0, inst) else {
        return Ok(());
    };
    let names = copy_names(alloc, names.as_slice())?;
    set_one(model, ruled, contained, inst, names, case)?;
    Ok(())
}

/// Sets the lists that refer, after those that contain.
fn put_references(
    alloc: Global,
    model: &Model,
    ruled: &Ruled,
    lists: &Cells<List<Txt>>,
    case: &mut Case,
) -> Result<(), NoMemory>
    requires taken { AreTaken (shape_of model.now) ruled.now lists.now }
    requires some { HoldsSome (shape_of model.now) ruled.now lists.now case.old }
    requires before { HasBefore (shape_of model.now) lists.now case.old (length model.now.entities) }
    ensures is { OnOk result (case.new ≡ case_with (shape_of model.now) lists.now empty) }
    ensures fits { OnOk result (Fits (shape_of model.now) ruled.now case.new) }
{
    // The count shows the model's form.
    let _count = model.entity_count();
    let cells = lists.each(alloc)?;
    for (number, inst, _) in &cells {
        put_one_reference(alloc, model, ruled, lists, *number, inst, case)?;
    }
    Ok(())
}

/// Sets a list, if it refers.
fn put_one_reference(
    alloc: Global,
    model: &Model,
    ruled: &Ruled,
    lists: &Cells<List<Txt>>,
    number: u32,
    inst: &InstanceId,
    case: &mut Case,
) -> Result<(), NoMemory>
    requires taken { AreTaken (shape_of model.now) ruled.now lists.now }
    requires some { HoldsSome (shape_of model.now) ruled.now lists.now case.old }
    requires before { HasBefore (shape_of model.now) lists.now case.old (length model.now.entities) }
    ensures some { OnOk result (HoldsSome (shape_of model.now) ruled.now lists.now case.new) }
    ensures keeps { OnOk result (Keeps lists.now case.old case.new) }
    ensures here { OnOk result (Agrees lists.now case.new number inst.now) }
{
    // The count shows the model's form.
    let _count = model.entity_count();
    let Some(names) = lists.get(number, inst) else {
        return Ok(());
    };
    if relation_of(model, RelId(number)).contains {
        return Ok(());
    }
    let names = copy_names(alloc, names.as_slice())?;
    set_one(model, ruled, RelId(number), inst, names, case)?;
    Ok(())
}

/// Sets a list that isn't refused.
fn set_one(
    model: &Model,
    ruled: &Ruled,
    rel: RelId,
    inst: &InstanceId,
    names: List<Txt>,
    case: &mut Case,
) -> Result<(), NoMemory>
    requires declared { HasRelation model.now rel }
    requires fits { Fits (shape_of model.now) ruled.now case.old }
    requires takes { TakesList (shape_of model.now) ruled.now case.old rel inst.now names }
    ensures set { OnOk result (step.set_list (shape_of model.now) ruled.now case.old rel inst.now names ≡ Ok case.new) }
    ensures fits { OnOk result (Fits (shape_of model.now) ruled.now case.new) }
{
    // What is refused wants memory.
    match case.set_list(model, ruled, rel, inst, names) {
        Ok(()) => Ok(()),
        Err(_) => Err(NoMemory),
    }
}
