// What the cells of a column are about, read once from its head.
ghost use Rattle.std.specs.Prelude.{◌≡◌, IfOk, IfSome};
ghost use Rattle.opa_model.specs.Models.{HasAttribute, HasRelation};
ghost use Rattle.opa_words.specs.Pieces.{seen, AreOfKind};
ghost use Rattle.opa_script.specs.Commands.{HasEntityOf, HasSourceOf};
ghost use Rattle.opa_script.specs.Commands as meant;
ghost use Rattle.opa_batch.specs.declared.head.Sort.TheVariants as sorts;
ghost use Rattle.opa_batch.specs.Aims.{AreAimed, IsAimed, NamesAim, SpellsAim};

use crate::columns::{cut, text_of};
use crate::head::{Head, HeadFault, Sort};
use opa_cells::InstanceId;
use opa_io::limits::MOST_TEXT;
use opa_io::{NoMemory, Txt};
use opa_model::{AttrId, EntityId, Model, RelId};
use opa_text::{Point, point_of};
use opa_words::Pieces;
use std::alloc::Global;

/// The attribute or the relation that the cells of a column are about, and the instance.
#[derive(Drop)]
pub(crate) enum Aim {
    Answer(AttrId, InstanceId),
    Names(RelId, InstanceId),
}

fn instance_of(alloc: Global, entity: EntityId, name: Option<Txt>) -> Result<InstanceId, NoMemory>
    ensures { IfOk result (λ i. i ≡ meant.instance_of entity name) }
{
    match name {
        None => InstanceId::global(alloc),
        Some(name) => Ok(InstanceId { entity, name }),
    }
}

fn entity_of(model: &Model, attr: AttrId) -> EntityId
    requires { HasAttribute model.now attr }
    ensures { HasEntityOf model.now attr result }
{
    model.attribute(attr).entity
}

fn source_of(model: &Model, rel: RelId) -> EntityId
    requires { HasRelation model.now rel }
    ensures { HasSourceOf model.now rel result }
{
    model.relation(rel).source
}

fn answers_of(alloc: Global, model: &Model, point: Point) -> Result<Option<Aim>, NoMemory>
    ensures { IfOk result (λ r. IfSome r (NamesAim model.now sorts.Answer point)) }
{
    match model.find_attribute(point.phrase.as_str()) {
        None => Ok(None),
        Some(attr) => {
            let entity = entity_of(model, attr);
            let inst = instance_of(alloc, entity, point.name)?;
            Ok(Some(Aim::Answer(attr, inst)))
        }
    }
}

fn names_of(alloc: Global, model: &Model, point: Point) -> Result<Option<Aim>, NoMemory>
    ensures { IfOk result (λ r. IfSome r (NamesAim model.now sorts.Names point)) }
{
    match model.find_relation(point.phrase.as_str()) {
        None => Ok(None),
        Some(rel) => {
            let entity = source_of(model, rel);
            let inst = instance_of(alloc, entity, point.name)?;
            Ok(Some(Aim::Names(rel, inst)))
        }
    }
}

/// What a point under a sort of column names.
fn point_aim(
    alloc: Global,
    model: &Model,
    sort: Sort,
    point: Point,
) -> Result<Option<Aim>, NoMemory>
    ensures { IfOk result (λ r. IfSome r (NamesAim model.now sort point)) }
{
    match sort {
        Sort::Answer => answers_of(alloc, model, point),
        Sort::Names => names_of(alloc, model, point),
    }
}

fn pieces_aim(
    alloc: Global,
    model: &Model,
    sort: Sort,
    pieces: Pieces<'_>,
) -> Result<Option<Aim>, NoMemory>
    requires { AreOfKind pieces }
    ensures { IfOk result (λ r. IfSome r (SpellsAim model.now sort (seen pieces.entry))) }
{
    match point_of(alloc, pieces)? {
        None => Ok(None),
        Some(point) => match point_aim(alloc, model, sort, point)? {
            None => Ok(None),
            Some(aim) => Ok(Some(aim)),
        },
    }
}

/// What the cells below a head are about. None says nothing.
fn aim_of(alloc: Global, model: &Model, head: &Head) -> Result<Option<Aim>, NoMemory>
    ensures { IfOk result (λ r. IfSome r (IsAimed model.now head.now)) }
{
    let bytes = head.text.as_slice();
    if bytes.len() > MOST_TEXT {
        return Ok(None);
    }
    match text_of(bytes) {
        None => Ok(None),
        Some(text) => match cut(alloc, text) {
            Err(HeadFault::NoMemory) => Err(NoMemory),
            Err(HeadFault::Shape) | Err(HeadFault::Name) => Ok(None),
            Ok(found) => pieces_aim(alloc, model, head.sort, Pieces::new(text, &found)),
        },
    }
}

/// What the cells below each head are about.
pub(crate) fn aims_of(
    alloc: Global,
    model: &Model,
    heads: &[Head],
) -> Result<Vec<Option<Aim>>, NoMemory>
    ensures { IfOk result (λ v. AreAimed model.now heads.now v.items) }
{
    let mut aims = Vec::new(alloc);
    for place in 0..heads.len() {
        let aim = aim_of(alloc, model, &heads[place])?;
        aims.push(aim)?;
    }
    Ok(aims)
}
