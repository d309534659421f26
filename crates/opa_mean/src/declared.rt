// What is declared of attributes and relations.
ghost use Rattle.std.specs.Prelude.{◌≡◌};
ghost use Rattle.opa_case.specs.Shapes.{shape_of};
ghost use Rattle.opa_mean.specs.Mean.{fitted, is_money as of_money};
ghost use Rattle.opa_mean.specs.Places.{owner_of as entity_of};

use opa_model::{AttrId, Kind, Model, RelId};
use opa_value::{Value, fit};

/// The entity whose instances have the attribute.
pub fn owner_of(model: &Model, attr: AttrId) -> u32
    ensures { result ≡ entity_of (shape_of model.now) attr }
{
    if attr.0 < model.attribute_count() {
        model.attribute(attr).entity.0
    } else {
        0
    }
}

pub fn source_of(model: &Model, rel: RelId) -> u32
    ensures { result ≡ (shape_of model.now).source rel }
{
    if rel.0 < model.relation_count() {
        model.relation(rel).source.0
    } else {
        0
    }
}

pub fn target_of(model: &Model, rel: RelId) -> u32
    ensures { result ≡ (shape_of model.now).target rel }
{
    if rel.0 < model.relation_count() {
        model.relation(rel).target.0
    } else {
        0
    }
}

/// Whether a relation is declared with `every`: its list has all instances of its target.
pub fn is_every(model: &Model, rel: RelId) -> bool
    ensures { result ≡ (shape_of model.now).every rel }
{
    if rel.0 < model.relation_count() {
        model.relation(rel).every
    } else {
        false
    }
}

/// A concluded value: a currency is rounded.
pub(crate) fn concluded(model: &Model, attr: AttrId, value: Value) -> Value
    ensures { result ≡ fitted (shape_of model.now) attr value }
{
    fit(is_money(model, attr), value)
}

/// Whether an attribute is declared as a currency.
pub fn is_money(model: &Model, attr: AttrId) -> bool
    ensures { result ≡ of_money ((shape_of model.now).attribute attr).kind }
{
    attr.0 < model.attribute_count() && matches!(model.attribute(attr).kind, Kind::Currency)
}
