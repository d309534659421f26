// The members of the whole document.
ghost use Rattle.std.specs.Prelude.{◌≡◌, IfOk, OnOk};
ghost use Rattle.serde_json.specs.Data.{number, unsigned, string, put as put_member};
ghost use Rattle.serde_json.specs.View.{view, members_view};
ghost use Rattle.opa_rules.specs.Describing.Parts as meant;

use crate::describing::parts::text_json;
use opa_io::NoMemory;
use opa_io::limits::{
    MOST_ANSWERS, MOST_CASE_NAME, MOST_INSTANCE_NAME, MOST_INSTANCES, MOST_LINE, MOST_PHRASE,
    MOST_POINTS, MOST_TEXT,
};
use serde_json::{Map, Value as Json, put};
use std::alloc::Global;

fn put_size(
    members: &mut Map<String, Json>,
    alloc: Global,
    key: &str,
    size: u64,
) -> Result<(), NoMemory>
    ensures { OnOk result (members_view members.new.entries ≡ put_member key.now (number (unsigned size)) (members_view members.old.entries)) }
{
    put(members, alloc, key, Json::from(size))?;
    Ok(())
}

fn put_text(
    members: &mut Map<String, Json>,
    alloc: Global,
    key: &str,
    text: &str,
) -> Result<(), NoMemory>
    ensures { OnOk result (members_view members.new.entries ≡ put_member key.now (string text.now) (members_view members.old.entries)) }
{
    put(members, alloc, key, text_json(alloc, text)?)?;
    Ok(())
}

/// The greatest that is taken.
pub(crate) fn limits_json(alloc: Global) -> Result<Json, NoMemory>
    ensures { IfOk result (λ v. view v ≡ meant.limits_data) }
{
    let mut members = Map::new(alloc);
    put_size(&mut members, alloc, "answers", MOST_ANSWERS)?;
    put_size(&mut members, alloc, "case_name", MOST_CASE_NAME as u64)?;
    put_size(&mut members, alloc, "decimals", 4)?;
    put_text(&mut members, alloc, "first_day", "1600-01-01")?;
    put_size(&mut members, alloc, "instances", MOST_INSTANCES)?;
    put_text(&mut members, alloc, "last_day", "2399-12-31")?;
    put_size(&mut members, alloc, "line", MOST_LINE as u64)?;
    put_size(&mut members, alloc, "name", MOST_INSTANCE_NAME as u64)?;
    put_text(&mut members, alloc, "number", "10000000000000")?;
    put_size(&mut members, alloc, "phrase", MOST_PHRASE as u64)?;
    put_size(&mut members, alloc, "points", MOST_POINTS as u64)?;
    put_size(&mut members, alloc, "text", MOST_TEXT as u64)?;
    Ok(Json::Object(members))
}

/// What sort of document this is.
fn format_json(alloc: Global) -> Result<Json, NoMemory>
    ensures { IfOk result (λ v. view v ≡ meant.format_data) }
{
    let mut members = Map::new(alloc);
    put_text(&mut members, alloc, "name", "sennabasket description")?;
    put_size(&mut members, alloc, "version", 1)?;
    Ok(Json::Object(members))
}

/// What is declared.
#[derive(Drop)]
pub(crate) struct Declared {
    pub(crate) attributes: Json,
    pub(crate) entities: Json,
    pub(crate) files: Json,
    pub(crate) goals: Json,
    pub(crate) lists: Json,
    pub(crate) screens: Json,
}

pub(crate) fn whole_json(
    alloc: Global,
    declared: Declared,
    rulebase: &str,
) -> Result<Json, NoMemory>
    ensures { IfOk result (λ v. view v ≡ meant.whole_data (view declared.attributes) (view declared.entities) (view declared.files) (view declared.goals) (view declared.lists) (view declared.screens) rulebase.now) }
{
    let Declared {
        attributes,
        entities,
        files,
        goals,
        lists,
        screens,
    } = declared;
    let format = format_json(alloc)?;
    let limits = limits_json(alloc)?;
    let rulebase = text_json(alloc, rulebase)?;
    let mut members = Map::new(alloc);
    put(&mut members, alloc, "attributes", attributes)?;
    put(&mut members, alloc, "entities", entities)?;
    put(&mut members, alloc, "files", files)?;
    put(&mut members, alloc, "format", format)?;
    put(&mut members, alloc, "goals", goals)?;
    put(&mut members, alloc, "limits", limits)?;
    put(&mut members, alloc, "lists", lists)?;
    put(&mut members, alloc, "proved", Json::Bool(true))?;
    put(&mut members, alloc, "rulebase", rulebase)?;
    put(&mut members, alloc, "screens", screens)?;
    Ok(Json::Object(members))
}
