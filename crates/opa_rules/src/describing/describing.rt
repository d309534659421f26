// A rulebase as one document.
ghost use Rattle.std.specs.Prelude.{◌≡◌, ◌-◌, length, map, IfOk};
ghost use Rattle.serde_json.specs.View.{view};
ghost use Rattle.opa_rules.specs.Describing.Description as meant;
ghost use Rattle.opa_rules.specs.Describing.Parts as part;
ghost use Rattle.opa_saved.specs.Saved.{ReadsAs};

use crate::describing::attributes::attribute_json;
use crate::describing::origins::file_name;
use crate::describing::parts::list_json;
use crate::describing::printed::text_of;
use crate::describing::relations::relation_json;
use crate::describing::things::{entity_json, files_json, goal_json, screen_json};
use crate::describing::whole::{Declared, whole_json};
use opa_io::NoMemory;
use opa_model::{AttrId, Model, RelId};
use opa_tree::Rulebase;
use serde_json::Value as Json;
use std::alloc::Global;

/// All that a rulebase declares, what is asked, and where each conclusion comes from: one JSON object, and a line feed.
pub fn description(alloc: Global, base: &Rulebase) -> Result<Vec<u8>, NoMemory>
    ensures text { IfOk result (λ b. b.items ≡ meant.described base.now) }
    ensures back { IfOk result (λ b. ReadsAs b.items (meant.description base.now)) }
{
    let value = description_json(alloc, base)?;
    Ok(text_of(alloc, &value)?)
}

fn description_json(alloc: Global, base: &Rulebase) -> Result<Json, NoMemory>
    ensures { IfOk result (λ v. view v ≡ meant.description base.now) }
{
    let model = &base.model;
    let declared = Declared {
        attributes: attributes(alloc, base)?,
        entities: entities(alloc, model)?,
        files: files_json(alloc, base.files.as_slice())?,
        goals: goals(alloc, model)?,
        lists: relations(alloc, model)?,
        screens: screens(alloc, model)?,
    };
    let json = whole_json(alloc, declared, file_name(base.files.as_slice(), 0))?;
    Ok(json)
}

fn attributes(alloc: Global, base: &Rulebase) -> Result<Json, NoMemory>
    ensures { IfOk result (λ v. view v ≡ part.list_data (part.upto (meant.attribute_data base.now) (length base.now.model.attributes))) }
{
    let mut items = Vec::new(alloc);
    for n in 0..base.model.attribute_count() {
        items.push(attribute_json(alloc, base, AttrId(n))?)?;
    }
    Ok(list_json(items))
}

fn entities(alloc: Global, model: &Model) -> Result<Json, NoMemory>
    ensures { IfOk result (λ v. view v ≡ part.list_data (part.upto (part.entity_data model.now) (length model.now.entities - 1))) }
{
    let mut items = Vec::new(alloc);
    for n in 0..model.entity_count() - 1 {
        items.push(entity_json(alloc, model, n)?)?;
    }
    Ok(list_json(items))
}

fn goals(alloc: Global, model: &Model) -> Result<Json, NoMemory>
    ensures { IfOk result (λ v. view v ≡ part.list_data (part.upto (part.goal_data model.now) (length model.now.goals))) }
{
    let mut items = Vec::new(alloc);
    for n in 0..model.goal_count() {
        items.push(goal_json(alloc, model, n)?)?;
    }
    Ok(list_json(items))
}

fn relations(alloc: Global, model: &Model) -> Result<Json, NoMemory>
    ensures { IfOk result (λ v. view v ≡ part.list_data (part.upto (meant.relation_data model.now) (length model.now.relations))) }
{
    let mut items = Vec::new(alloc);
    for n in 0..model.relation_count() {
        items.push(relation_json(alloc, model, RelId(n))?)?;
    }
    Ok(list_json(items))
}

fn screens(alloc: Global, model: &Model) -> Result<Json, NoMemory>
    ensures { IfOk result (λ v. view v ≡ part.list_data (part.upto (part.screen_data model.now) (length model.now.screens))) }
{
    let mut items = Vec::new(alloc);
    for n in 0..model.screen_count() {
        items.push(screen_json(alloc, model, n)?)?;
    }
    Ok(list_json(items))
}
