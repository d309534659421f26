// Where conclusions come from.
ghost use Rattle.std.specs.Prelude.{◌≡◌, [], slice_index_or, IfOk};
ghost use Rattle.std.specs.Option.{option_copied};
ghost use Rattle.serde_json.specs.View.{view};
ghost use Rattle.opa_rules.specs.Describing.Parts as meant;

use crate::describing::names::{attribute_names, relation_names};
use crate::describing::parts::text_json;
use crate::describing::ranges::ranges;
use opa_io::{NoMemory, Txt};
use opa_model::{AttrId, Model, RelId};
use opa_tree::{Rule, mentions};
use serde_json::{Map, Value as Json, put};
use std::alloc::Global;

/// The name of the file that has this place, and no bytes where there is none.
pub(crate) fn file_name(files: &[Txt], place: usize) -> &str
    ensures { result.now ≡ slice_index_or files.now place [] }
{
    match files.get(place) {
        Some(name) => name.as_str(),
        None => "",
    }
}

fn mentions_json(
    alloc: Global,
    model: &Model,
    attrs: &[AttrId],
    rels: &[RelId],
) -> Result<Json, NoMemory>
    ensures { IfOk result (λ v. view v ≡ meant.mentions_data model.now attrs.now rels.now) }
{
    let attributes = attribute_names(alloc, model, attrs)?;
    let lists = relation_names(alloc, model, rels)?;
    let mut members = Map::new(alloc);
    put(&mut members, alloc, "attributes", attributes)?;
    put(&mut members, alloc, "lists", lists)?;
    Ok(Json::Object(members))
}

/// Where a rule stands, and what it mentions.
fn rule_json(alloc: Global, model: &Model, files: &[Txt], rule: &Rule) -> Result<Json, NoMemory>
    ensures { IfOk result (λ v. view v ≡ meant.rule_with model.now files.now rule.now) }
{
    let file = text_json(alloc, file_name(files, rule.file as usize))?;
    let attrs = mentions(alloc, &rule.expr)?;
    let rels = ranges(alloc, &rule.expr)?;
    let mentions = mentions_json(alloc, model, attrs.as_slice(), rels.as_slice())?;
    let mut members = Map::new(alloc);
    put(&mut members, alloc, "file", file)?;
    put(
        &mut members,
        alloc,
        "line",
        Json::from(u64::from(rule.line)),
    )?;
    put(&mut members, alloc, "mentions", mentions)?;
    Ok(Json::Object(members))
}

/// Of what is asked there is no rule.
pub(crate) fn origin_json(
    alloc: Global,
    model: &Model,
    files: &[Txt],
    rule: Option<&Rule>,
) -> Result<Json, NoMemory>
    ensures { IfOk result (λ v. view v ≡ meant.rule_data model.now files.now (option_copied rule.entry)) }
{
    match rule {
        Some(rule) => rule_json(alloc, model, files, rule),
        None => Ok(Json::Null),
    }
}
