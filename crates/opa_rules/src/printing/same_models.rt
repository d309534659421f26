// Whether two models declare the same in the same order.
ghost use Rattle.std.specs.Prelude.{◌≡◌, IsTrue};

use crate::printing::same_things::{
    same_attribute, same_entity, same_relation, same_screen, same_verb,
};
use opa_model::{AttrId, EntityId, Model, RelId};

#[tactic(auto, using(crate::proofs::SameLaws::fronts_grow, crate::proofs::SameLaws::fronts_are_whole))]
fn same_verbs(model: &Model, other: &Model) -> bool
    ensures { IsTrue result → model.now.verbs ≡ other.now.verbs }
{
    let count = model.verb_count();
    if count != other.verb_count() {
        return false;
    }
    for n in 0..count {
        if !same_verb(model.verb(n), other.verb(n)) {
            return false;
        }
    }
    true
}

#[tactic(auto, using(crate::proofs::SameLaws::fronts_grow, crate::proofs::SameLaws::fronts_are_whole))]
fn same_entities(model: &Model, other: &Model) -> bool
    ensures { IsTrue result → model.now.entities ≡ other.now.entities }
{
    let count = model.entity_count();
    if count != other.entity_count() {
        return false;
    }
    for n in 0..count {
        if !same_entity(model.entity(EntityId(n)), other.entity(EntityId(n))) {
            return false;
        }
    }
    true
}

#[tactic(auto, using(crate::proofs::SameLaws::fronts_grow, crate::proofs::SameLaws::fronts_are_whole))]
fn same_attributes(model: &Model, other: &Model) -> bool
    ensures { IsTrue result → model.now.attributes ≡ other.now.attributes }
{
    let count = model.attribute_count();
    if count != other.attribute_count() {
        return false;
    }
    for n in 0..count {
        if !same_attribute(model.attribute(AttrId(n)), other.attribute(AttrId(n))) {
            return false;
        }
    }
    true
}

#[tactic(auto, using(crate::proofs::SameLaws::fronts_grow, crate::proofs::SameLaws::fronts_are_whole))]
fn same_relations(model: &Model, other: &Model) -> bool
    ensures { IsTrue result → model.now.relations ≡ other.now.relations }
{
    let count = model.relation_count();
    if count != other.relation_count() {
        return false;
    }
    for n in 0..count {
        if !same_relation(model.relation(RelId(n)), other.relation(RelId(n))) {
            return false;
        }
    }
    true
}

#[tactic(auto, using(crate::proofs::SameLaws::fronts_grow, crate::proofs::SameLaws::fronts_are_whole))]
fn same_screens(model: &Model, other: &Model) -> bool
    ensures { IsTrue result → model.now.screens ≡ other.now.screens }
{
    let count = model.screen_count();
    if count != other.screen_count() {
        return false;
    }
    for n in 0..count {
        if !same_screen(model.screen(n), other.screen(n)) {
            return false;
        }
    }
    true
}

#[tactic(auto, using(crate::proofs::SameLaws::fronts_grow, crate::proofs::SameLaws::fronts_are_whole))]
fn same_goals(model: &Model, other: &Model) -> bool
    ensures { IsTrue result → model.now.goals ≡ other.now.goals }
{
    let count = model.goal_count();
    if count != other.goal_count() {
        return false;
    }
    for n in 0..count {
        if model.goal(n) != other.goal(n) {
            return false;
        }
    }
    true
}

pub(crate) fn same_model(model: &Model, other: &Model) -> bool
    ensures { IsTrue result → model.now ≡ other.now }
{
    same_verbs(model, other)
        && same_entities(model, other)
        && same_attributes(model, other)
        && same_relations(model, other)
        && same_screens(model, other)
        && same_goals(model, other)
}
