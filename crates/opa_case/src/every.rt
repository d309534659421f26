// The lists of the relations that are declared with `every`.
ghost use Rattle.std.specs.Prelude.{◌≡◌, ◌<◌, ◌≤◌, ◌++◌, ◌∷◌, ℕ, [], true, map, Option, None, IfOk, OnOk, IfSome, IsNone};
ghost use Rattle.std.specs.Option.{option_map};
ghost use Rattle.opa_cells.specs.Instances.{named, global};
ghost use Rattle.opa_case.specs.Shapes.{shape_of};
ghost use Rattle.opa_case.specs.Live as live;
ghost use Rattle.opa_case.specs.Steps.{every_of, with_every};
ghost use Rattle.opa_case.specs.Below.{is_under, hangs_on, StaysUnknown};
ghost use Rattle.opa_case.specs.Fewer.{AreCounted};
ghost use Rattle.opa_model.specs.Models.{IsModel};

use crate::contained::Lists;
use crate::counts::Counts;
use crate::declared::{bond_of, nest_of};
use opa_cells::{Cells, InstanceId};
use opa_io::{List, NoMemory, Txt};
use opa_model::{EntityId, Model, RelId};
use std::alloc::Global;

/// The lists of the relations that are declared with `every`, where a list that contains an entity changes; none where they stay.
pub(crate) fn every_then<L: Lists>(
    alloc: Global,
    model: &Model,
    lists: &L,
    counts: &Counts,
    entity: u32,
    before: &Cells<List<Txt>>,
) -> Result<Option<Cells<List<Txt>>>, NoMemory>
    requires form { IsModel model.now }
    requires counted { AreCounted (shape_of model.now) (L.lists lists.now) counts.now }
    ensures some { IfOk result (λ every. IfSome every (λ all. all ≡ every_of (shape_of model.now) (L.lists lists.now))) }
    ensures none { IfOk result (λ every. IsNone every → (n : ℕ) → n < (shape_of model.now).relations → StaysUnknown (shape_of model.now) (L.lists lists.now) before.now entity n) }
{
    if all_stay(alloc, model, lists, counts, entity, before)? {
        return Ok(None);
    }
    let every = every_lists(alloc, model, lists, counts)?;
    Ok(Some(every))
}

/// Whether all lists that hang on an entity weren't known, and aren't then. It may say no where they stay.
fn all_stay<L: Lists>(
    alloc: Global,
    model: &Model,
    lists: &L,
    counts: &Counts,
    entity: u32,
    before: &Cells<List<Txt>>,
) -> Result<bool, NoMemory>
    requires form { IsModel model.now }
    requires counted { AreCounted (shape_of model.now) (L.lists lists.now) counts.now }
    ensures { IfOk result (λ stay. stay ≡ true → (n : ℕ) → n < (shape_of model.now).relations → StaysUnknown (shape_of model.now) (L.lists lists.now) before.now entity n) }
{
    let root = InstanceId::global(alloc)?;
    let count = model.relation_count();
    let mut number = 0;
    while number < count {
        if !stays(model, lists, counts, entity, before, number, &root) {
            return Ok(false);
        }
        number += 1;
    }
    Ok(true)
}

fn stays<L: Lists>(
    model: &Model,
    lists: &L,
    counts: &Counts,
    entity: u32,
    before: &Cells<List<Txt>>,
    number: u32,
    root: &InstanceId,
) -> bool
    requires form { IsModel model.now }
    requires counted { AreCounted (shape_of model.now) (L.lists lists.now) counts.now }
    requires root { root.now ≡ global }
    ensures { result ≡ true → StaysUnknown (shape_of model.now) (L.lists lists.now) before.now entity number }
{
    if !hangs_on(model, entity, number) {
        return true;
    }
    if before.get(number, root).is_some() {
        return false;
    }
    is_short(
        model,
        lists,
        counts,
        model.entity_count(),
        bond_of(model, number).target,
    )
}

/// Whether one comes, in so many steps to parents, to containers of which fewer have a list than live. Then the Walk isn't known.
fn is_short<L: Lists>(model: &Model, lists: &L, counts: &Counts, steps: u32, entity: u32) -> bool
    ensures { IsModel model.now → AreCounted (shape_of model.now) (L.lists lists.now) counts.now → entity ≤ steps → entity < (shape_of model.now).count → result ≡ true → live.walk (shape_of model.now) (L.lists lists.now) steps entity ≡ None }
{
    if steps == 0 {
        return false;
    }
    if entity == 0 {
        return false;
    }
    let nest = nest_of(model, entity);
    if lists.are_fewer(nest.contained, counts.of(nest.parent)) {
        return true;
    }
    is_short(model, lists, counts, steps - 1, nest.parent)
}

/// Whether a relation is declared with `every` and lists the entity, or one below.
fn hangs_on(model: &Model, entity: u32, number: u32) -> bool
    ensures { result ≡ hangs_on (shape_of model.now) entity number }
{
    let bond = bond_of(model, number);
    bond.every && is_under(model, entity, model.entity_count(), bond.target)
}

/// Whether one comes from an entity to another, within so many steps to parents.
fn is_under(model: &Model, entity: u32, steps: u32, from: u32) -> bool
    ensures { result ≡ is_under (shape_of model.now) entity steps from }
{
    if steps == 0 {
        return false;
    }
    if from == 0 {
        return false;
    }
    if from == entity {
        return true;
    }
    is_under(model, entity, steps - 1, nest_of(model, from).parent)
}

/// The lists of the relations that are declared with `every`.
fn every_lists<L: Lists>(
    alloc: Global,
    model: &Model,
    lists: &L,
    counts: &Counts,
) -> Result<Cells<List<Txt>>, NoMemory>
    requires form { IsModel model.now }
    requires counted { AreCounted (shape_of model.now) (L.lists lists.now) counts.now }
    ensures { IfOk result (λ every. every ≡ every_of (shape_of model.now) (L.lists lists.now)) }
{
    let count = model.relation_count();
    let mut every = Cells::new(alloc);
    let mut number = 0;
    while number < count {
        add_every(alloc, model, lists, counts, number, &mut every)?;
        number += 1;
    }
    Ok(every)
}

/// Adds the list of a relation, if it is declared with `every` and its Walk is known.
fn add_every<L: Lists>(
    alloc: Global,
    model: &Model,
    lists: &L,
    counts: &Counts,
    number: u32,
    every: &mut Cells<List<Txt>>,
) -> Result<(), NoMemory>
    requires form { IsModel model.now }
    requires counted { AreCounted (shape_of model.now) (L.lists lists.now) counts.now }
    ensures { OnOk result (every.new ≡ with_every (shape_of model.now) (L.lists lists.now) number every.old) }
{
    let bond = bond_of(model, number);
    if !bond.every {
        return Ok(());
    }
    if is_short(model, lists, counts, model.entity_count(), bond.target) {
        return Ok(());
    }
    let room = counts.of(bond.target) as usize;
    match names_of(alloc, room, model, lists, model.entity_count(), bond.target)? {
        None => Ok(()),
        Some(names) => {
            let key = InstanceId::global(alloc)?;
            every.insert(number, key, names)
        }
    }
}

/// The names of all instances of an entity, where all lists that lead to them are known, with room for so many from the start.
fn names_of<L: Lists>(
    alloc: Global,
    room: usize,
    model: &Model,
    lists: &L,
    steps: u32,
    entity: u32,
) -> Result<Option<List<Txt>>, NoMemory>
    ensures { IfOk result (λ names. names ≡ option_map (map (λ i. i.name)) (live.walk (shape_of model.now) (L.lists lists.now) steps entity)) }
{
    if steps == 0 {
        return Ok(Some(root_name(alloc)?));
    }
    if entity == 0 {
        return Ok(Some(root_name(alloc)?));
    }
    let nest = nest_of(model, entity);
    match walk(alloc, model, lists, steps - 1, nest.parent)? {
        None => Ok(None),
        Some(containers) => gather_names(alloc, room, lists, nest.contained, &containers),
    }
}

fn root_name(alloc: Global) -> Result<List<Txt>, NoMemory>
    ensures { IfOk result (λ names. names ≡ [] ∷ []) }
{
    let mut names = List::new(alloc);
    names.push(Txt::from_str(alloc, "")?)?;
    Ok(names)
}

/// The lists of the containers, one after the other, where all are known.
fn gather_names<L: Lists>(
    alloc: Global,
    room: usize,
    lists: &L,
    rel: RelId,
    containers: &[InstanceId],
) -> Result<Option<List<Txt>>, NoMemory>
    ensures { IfOk result (λ names. names ≡ live.gathered (map (L.lists lists.now rel) containers.now)) }
{
    let mut found = List::from_vec(Vec::with_capacity(alloc, room)?);
    for container in containers {
        match lists.list(rel, container) {
            None => return Ok(None),
            Some(names) => add_names(alloc, names.as_slice(), &mut found)?,
        }
    }
    Ok(Some(found))
}

fn add_names(alloc: Global, names: &[Txt], found: &mut List<Txt>) -> Result<(), NoMemory>
    ensures { OnOk result (found.new ≡ found.old ++ names.now) }
{
    for name in names {
        found.push(name.copy(alloc)?)?;
    }
    Ok(())
}

/// All instances of an entity, where all lists that lead to them are known.
pub(crate) fn walk<L: Lists>(
    alloc: Global,
    model: &Model,
    lists: &L,
    steps: u32,
    entity: u32,
) -> Result<Option<Vec<InstanceId>>, NoMemory>
    ensures { IfOk result (λ found. option_map (λ instances. instances.items) found ≡ live.walk (shape_of model.now) (L.lists lists.now) steps entity) }
{
    if steps == 0 {
        return Ok(Some(root(alloc)?));
    }
    if entity == 0 {
        return Ok(Some(root(alloc)?));
    }
    let nest = nest_of(model, entity);
    match walk(alloc, model, lists, steps - 1, nest.parent)? {
        None => Ok(None),
        Some(containers) => gather(alloc, lists, nest.contained, entity, &containers),
    }
}

fn root(alloc: Global) -> Result<Vec<InstanceId>, NoMemory>
    ensures { IfOk result (λ found. found.items ≡ global ∷ []) }
{
    let mut found = Vec::new(alloc);
    found.push(InstanceId::global(alloc)?)?;
    Ok(found)
}

/// What the containers have of an entity, where all their lists are known.
fn gather<L: Lists>(
    alloc: Global,
    lists: &L,
    rel: RelId,
    entity: u32,
    containers: &[InstanceId],
) -> Result<Option<Vec<InstanceId>>, NoMemory>
    ensures { IfOk result (λ found. option_map (λ instances. instances.items) found ≡ option_map (map (named entity)) (live.gathered (map (L.lists lists.now rel) containers.now))) }
{
    let mut found = Vec::new(alloc);
    for container in containers {
        match lists.list(rel, container) {
            None => return Ok(None),
            Some(names) => add_instances(alloc, entity, names.as_slice(), &mut found)?,
        }
    }
    Ok(Some(found))
}

fn add_instances(
    alloc: Global,
    entity: u32,
    names: &[Txt],
    found: &mut Vec<InstanceId>,
) -> Result<(), NoMemory>
    ensures { OnOk result (found.new.items ≡ found.old.items ++ map (named entity) names.now) }
{
    for name in names {
        found.push(InstanceId {
            entity: EntityId(entity),
            name: name.copy(alloc)?,
        })?;
    }
    Ok(())
}
