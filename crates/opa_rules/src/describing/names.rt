// Declared things by their phrases.
ghost use Rattle.std.specs.Prelude.{◌≡◌, map, IfOk};
ghost use Rattle.std.specs.Option.{option_copied};
ghost use Rattle.serde_json.specs.View.{view};
ghost use Rattle.opa_rules.specs.Describing.Parts as meant;

use crate::describing::parts::{list_json, text_or_null};
use opa_io::{NoMemory, Txt};
use opa_model::{AttrId, EntityId, Item, Model, RelId};
use serde_json::Value as Json;
use std::alloc::Global;

/// The phrase of an entity; the global one is the case itself, and has none.
#[tactic(auto, using(std::proofs::lemmas::Option::slice_get_past))]
fn entity_phrase(model: &Model, id: EntityId) -> Option<&Txt>
    ensures { option_copied result ≡ meant.entity_phrase model.now id }
{
    if id.0 == 0 {
        None
    } else if id.0 < model.entity_count() {
        Some(&model.entity(id).phrase)
    } else {
        None
    }
}

#[tactic(auto, using(std::proofs::lemmas::Option::slice_get_past))]
fn attribute_phrase(model: &Model, id: AttrId) -> Option<&Txt>
    ensures { option_copied result ≡ meant.attribute_phrase model.now id }
{
    if id.0 < model.attribute_count() {
        Some(&model.attribute(id).phrase)
    } else {
        None
    }
}

#[tactic(auto, using(std::proofs::lemmas::Option::slice_get_past))]
fn relation_phrase(model: &Model, id: RelId) -> Option<&Txt>
    ensures { option_copied result ≡ meant.relation_phrase model.now id }
{
    if id.0 < model.relation_count() {
        Some(&model.relation(id).phrase)
    } else {
        None
    }
}

pub(crate) fn entity_name(alloc: Global, model: &Model, id: EntityId) -> Result<Json, NoMemory>
    ensures { IfOk result (λ v. view v ≡ meant.entity_name model.now id) }
{
    let name = text_or_null(alloc, entity_phrase(model, id))?;
    Ok(name)
}

pub(crate) fn attribute_name(alloc: Global, model: &Model, id: AttrId) -> Result<Json, NoMemory>
    ensures { IfOk result (λ v. view v ≡ meant.attribute_name model.now id) }
{
    let name = text_or_null(alloc, attribute_phrase(model, id))?;
    Ok(name)
}

pub(crate) fn relation_name(alloc: Global, model: &Model, id: RelId) -> Result<Json, NoMemory>
    ensures { IfOk result (λ v. view v ≡ meant.relation_name model.now id) }
{
    let name = text_or_null(alloc, relation_phrase(model, id))?;
    Ok(name)
}

fn item_name(alloc: Global, model: &Model, item: &Item) -> Result<Json, NoMemory>
    ensures { IfOk result (λ v. view v ≡ meant.item_name model.now item.now) }
{
    match item {
        Item::Attr(attr) => attribute_name(alloc, model, *attr),
        Item::Members(rel) => relation_name(alloc, model, *rel),
    }
}

/// What a screen shows.
pub(crate) fn item_names(alloc: Global, model: &Model, items: &[Item]) -> Result<Json, NoMemory>
    ensures { IfOk result (λ v. view v ≡ meant.list_data (map (meant.item_name model.now) items.now)) }
{
    let mut names = Vec::new(alloc);
    for item in items {
        names.push(item_name(alloc, model, item)?)?;
    }
    Ok(list_json(names))
}

pub(crate) fn attribute_names(
    alloc: Global,
    model: &Model,
    attrs: &[AttrId],
) -> Result<Json, NoMemory>
    ensures { IfOk result (λ v. view v ≡ meant.list_data (map (meant.attribute_name model.now) attrs.now)) }
{
    let mut names = Vec::new(alloc);
    for attr in attrs {
        names.push(attribute_name(alloc, model, *attr)?)?;
    }
    Ok(list_json(names))
}

pub(crate) fn relation_names(alloc: Global, model: &Model, rels: &[RelId]) -> Result<Json, NoMemory>
    ensures { IfOk result (λ v. view v ≡ meant.list_data (map (meant.relation_name model.now) rels.now)) }
{
    let mut names = Vec::new(alloc);
    for rel in rels {
        names.push(relation_name(alloc, model, *rel)?)?;
    }
    Ok(list_json(names))
}
