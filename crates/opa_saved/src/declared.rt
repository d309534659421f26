// What is declared of the things that entries speak of.
ghost use Rattle.std.specs.Prelude.{◌≡◌, IfSome};
ghost use Rattle.opa_model.specs.Lookups.{attribute_named, relation_named};
ghost use Rattle.opa_model.specs.Models.{HasAttribute, HasRelation};
ghost use Rattle.opa_case.specs.Shapes.{attribute_or, relation_or};

use opa_io::Txt;
use opa_model::{AttrId, Attribute, Model, RelId, Relation};

pub(crate) fn attribute_of(model: &Model, attr: AttrId) -> &Attribute
    requires { HasAttribute model.now attr }
    ensures { result.now ≡ attribute_or model.now attr }
{
    model.attribute(attr)
}

pub(crate) fn relation_of(model: &Model, rel: RelId) -> &Relation
    requires { HasRelation model.now rel }
    ensures { result.now ≡ relation_or model.now rel }
{
    model.relation(rel)
}

/// The attribute with a phrase.
pub(crate) fn find_attribute(model: &Model, phrase: &Txt) -> Option<AttrId>
    ensures value { result ≡ attribute_named model.now phrase.now }
    ensures declared { IfSome result (HasAttribute model.now) }
{
    model.find_attribute(phrase.as_str())
}

/// The relation with a phrase.
pub(crate) fn find_relation(model: &Model, phrase: &Txt) -> Option<RelId>
    ensures value { result ≡ relation_named model.now phrase.now }
    ensures declared { IfSome result (HasRelation model.now) }
{
    model.find_relation(phrase.as_str())
}
