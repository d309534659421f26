// What is declared at a place, if anything is.
ghost use Rattle.std.specs.Prelude.{◌≡◌};
ghost use Rattle.std.specs.Option.{option_copied};
ghost use Rattle.opa_model.specs.Lookups.{attribute_at, relation_at};
ghost use Rattle.opa_tree.specs.Scopes.{parent_of};

use opa_model::{AttrId, Attribute, EntityId, Model, RelId, Relation};

pub fn attribute_of(model: &Model, attr: AttrId) -> Option<&Attribute>
    ensures { option_copied result ≡ attribute_at model.now attr }
{
    if attr.0 < model.attribute_count() {
        Some(model.attribute(attr))
    } else {
        None
    }
}

pub fn relation_of(model: &Model, rel: RelId) -> Option<&Relation>
    ensures { option_copied result ≡ relation_at model.now rel }
{
    if rel.0 < model.relation_count() {
        Some(model.relation(rel))
    } else {
        None
    }
}

/// The entity whose instances contain those of this one.
pub fn parent_of(model: &Model, entity: EntityId) -> EntityId
    ensures { result ≡ parent_of model.now entity }
{
    if entity.0 < model.entity_count() {
        model.entity(entity).parent
    } else {
        entity
    }
}
