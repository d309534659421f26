// What is declared of the things that a case speaks of.
ghost use Rattle.std.specs.Prelude.{◌≡◌};
ghost use Rattle.opa_case.specs.Shapes.{nest_of, bond_of, attribute_or};
ghost use Rattle.opa_case.specs.Steps.{rel, has_rule};
ghost use Rattle.opa_model.specs.Models.{IsModel, HasAttribute};

use opa_model::{AttrId, Attribute, EntityId, Model, RelId, Ruled};

/// Where an entity's instances lie.
#[derive(Clone, Copy)]
pub(crate) struct Nest {
    pub(crate) parent: u32,
    pub(crate) contained: RelId,
}

/// What a relation joins, and how.
#[derive(Clone, Copy)]
pub(crate) struct Bond {
    pub(crate) source: u32,
    pub(crate) target: u32,
    pub(crate) contains: bool,
    pub(crate) one: bool,
    pub(crate) every: bool,
}

/// What is declared of an entity.
pub(crate) fn nest_of(model: &Model, entity: u32) -> Nest
    ensures { result ≡ nest_of model.now entity }
{
    if entity < model.entity_count() {
        let declared = model.entity(EntityId(entity));
        Nest {
            parent: declared.parent.0,
            contained: declared.contained,
        }
    } else {
        Nest {
            parent: 0,
            contained: RelId(0),
        }
    }
}

/// What is declared of a relation.
pub(crate) fn bond_of(model: &Model, number: u32) -> Bond
    ensures value { result ≡ bond_of model.now (rel number) }
    ensures form { IsModel model.now }
{
    if number < model.relation_count() {
        let declared = model.relation(RelId(number));
        Bond {
            source: declared.source.0,
            target: declared.target.0,
            contains: declared.contains,
            one: declared.one,
            every: declared.every,
        }
    } else {
        Bond {
            source: 0,
            target: 0,
            contains: false,
            one: false,
            every: false,
        }
    }
}

/// What is declared of an attribute.
pub(crate) fn attribute_of(model: &Model, attr: AttrId) -> &Attribute
    requires { HasAttribute model.now attr }
    ensures value { result.now ≡ attribute_or model.now attr }
    ensures form { IsModel model.now }
{
    // The count shows the model's form.
    let _count = model.attribute_count();
    model.attribute(attr)
}

pub(crate) fn has_rule(ruled: &Ruled, attr: AttrId) -> bool
    ensures { result ≡ has_rule ruled.now attr }
{
    match ruled.as_slice().get(attr.0 as usize) {
        Some(has_one) => *has_one,
        None => false,
    }
}
