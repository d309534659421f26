// Entities, screens, goals and files.
ghost use Rattle.std.specs.Prelude.{◌≡◌, ◌<◌, ◌+◌, length, map, IfOk};
ghost use Rattle.serde_json.specs.View.{view};
ghost use Rattle.opa_rules.specs.Describing.Parts as meant;

use crate::describing::names::{attribute_name, entity_name, item_names, relation_name};
use crate::describing::parts::{list_json, text_json};
use opa_io::{NoMemory, Txt};
use opa_model::{Entity, EntityId, Model, Screen};
use serde_json::{Map, Value as Json, put};
use std::alloc::Global;

fn contained_json(alloc: Global, model: &Model, entity: &Entity) -> Result<Json, NoMemory>
    ensures { IfOk result (λ v. view v ≡ meant.entity_with model.now entity.now) }
{
    let parent = entity_name(alloc, model, entity.parent)?;
    let list = relation_name(alloc, model, entity.contained)?;
    let phrase = text_json(alloc, entity.phrase.as_str())?;
    let mut members = Map::new(alloc);
    put(&mut members, alloc, "in", parent)?;
    put(&mut members, alloc, "list", list)?;
    put(&mut members, alloc, "phrase", phrase)?;
    Ok(Json::Object(members))
}

/// The entity of this place behind the global one.
pub(crate) fn entity_json(alloc: Global, model: &Model, place: u32) -> Result<Json, NoMemory>
    requires { place + 1 < length model.now.entities }
    ensures { IfOk result (λ v. view v ≡ meant.entity_data model.now place) }
{
    // The count shows that the place is a number.
    let _count = model.entity_count();
    let json = contained_json(alloc, model, model.entity(EntityId(place + 1)))?;
    Ok(json)
}

fn shown_json(alloc: Global, model: &Model, screen: &Screen) -> Result<Json, NoMemory>
    ensures { IfOk result (λ v. view v ≡ meant.screen_with model.now screen.now) }
{
    let shows = item_names(alloc, model, screen.items.as_slice())?;
    let title = text_json(alloc, screen.title.as_str())?;
    let mut members = Map::new(alloc);
    put(&mut members, alloc, "shows", shows)?;
    put(&mut members, alloc, "title", title)?;
    Ok(Json::Object(members))
}

pub(crate) fn screen_json(alloc: Global, model: &Model, place: u32) -> Result<Json, NoMemory>
    requires { place < length model.now.screens }
    ensures { IfOk result (λ v. view v ≡ meant.screen_data model.now place) }
{
    let json = shown_json(alloc, model, model.screen(place))?;
    Ok(json)
}

pub(crate) fn goal_json(alloc: Global, model: &Model, place: u32) -> Result<Json, NoMemory>
    requires { place < length model.now.goals }
    ensures { IfOk result (λ v. view v ≡ meant.goal_data model.now place) }
{
    let json = attribute_name(alloc, model, model.goal(place))?;
    Ok(json)
}

fn file_json(alloc: Global, name: &Txt) -> Result<Json, NoMemory>
    ensures { IfOk result (λ v. view v ≡ meant.file_data name.now) }
{
    let name = text_json(alloc, name.as_str())?;
    let mut members = Map::new(alloc);
    put(&mut members, alloc, "name", name)?;
    Ok(Json::Object(members))
}

pub(crate) fn files_json(alloc: Global, files: &[Txt]) -> Result<Json, NoMemory>
    ensures { IfOk result (λ v. view v ≡ meant.list_data (map meant.file_data files.now)) }
{
    let mut items = Vec::new(alloc);
    for name in files {
        items.push(file_json(alloc, name)?)?;
    }
    Ok(list_json(items))
}
