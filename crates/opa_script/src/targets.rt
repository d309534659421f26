// The attribute or the relation that a point names, and the instance.
ghost use Rattle.std.specs.Prelude.{◌≡◌, None, Some, IfOk, MatchOption, ℕ, List};
ghost use Rattle.opa_model.specs.Lookups.{attribute_at, relation_at, attribute_named, relation_named};
ghost use Rattle.opa_model.specs.Models.{HasAttribute, HasRelation};
ghost use Rattle.opa_script.specs.Commands.{NamesAttribute, NamesRelation, HasEntityOf, HasSourceOf};
ghost use Rattle.opa_script.specs.Commands as meant;

use opa_cells::InstanceId;
use opa_io::{NoMemory, Txt};
use opa_model::{AttrId, EntityId, Model, RelId};
use opa_text::Point;
use std::alloc::Global;

fn instance_of(alloc: Global, entity: EntityId, name: Option<Txt>) -> Result<InstanceId, NoMemory>
    ensures { IfOk result (λ i. i ≡ meant.instance_of entity name) }
{
    match name {
        None => InstanceId::global(alloc),
        Some(name) => Ok(InstanceId { entity, name }),
    }
}

/// The attribute that a point names.
pub(crate) fn attribute_of(
    alloc: Global,
    model: &Model,
    point: Point,
) -> Result<Option<(AttrId, InstanceId)>, NoMemory>
    ensures { IfOk result (λ r. MatchOption r (attribute_named model.now point.phrase ≡ None) (λ x. NamesAttribute model.now point x.0 x.1)) }
{
    match model.find_attribute(point.phrase.as_str()) {
        None => Ok(None),
        Some(attr) => {
            let entity = entity_of_attribute(model, attr);
            let inst = instance_of(alloc, entity, point.name)?;
            Ok(Some((attr, inst)))
        }
    }
}

/// The relation that a point names.
pub(crate) fn relation_of(
    alloc: Global,
    model: &Model,
    point: Point,
) -> Result<Option<(RelId, InstanceId)>, NoMemory>
    ensures { IfOk result (λ r. MatchOption r (relation_named model.now point.phrase ≡ None) (λ x. NamesRelation model.now point x.0 x.1)) }
{
    match model.find_relation(point.phrase.as_str()) {
        None => Ok(None),
        Some(rel) => {
            let entity = source_of_relation(model, rel);
            let inst = instance_of(alloc, entity, point.name)?;
            Ok(Some((rel, inst)))
        }
    }
}

fn entity_of_attribute(model: &Model, attr: AttrId) -> EntityId
    requires { HasAttribute model.now attr }
    ensures { HasEntityOf model.now attr result }
{
    model.attribute(attr).entity
}

fn source_of_relation(model: &Model, rel: RelId) -> EntityId
    requires { HasRelation model.now rel }
    ensures { HasSourceOf model.now rel result }
{
    model.relation(rel).source
}
