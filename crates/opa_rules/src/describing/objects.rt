// Attributes and relations as objects.
ghost use Rattle.std.specs.Prelude.{◌≡◌, IfOk};
ghost use Rattle.serde_json.specs.View.{view};
ghost use Rattle.opa_rules.specs.Describing.Parts as meant;

use crate::describing::bounds::{bound_json, decimals_json, kind_text};
use crate::describing::names::entity_name;
use crate::describing::parts::text_json;
use opa_io::NoMemory;
use opa_model::{Attribute, Model, Relation};
use serde_json::{Map, Value as Json, put};
use std::alloc::Global;

/// What is said of an attribute elsewhere than where it is declared.
#[derive(Drop)]
pub(crate) struct Elsewhere {
    pub(crate) denied: Json,
    pub(crate) question: Json,
    pub(crate) rule: Json,
    pub(crate) screen: Json,
}

pub(crate) fn attribute_object(
    alloc: Global,
    model: &Model,
    attribute: &Attribute,
    elsewhere: Elsewhere,
    sentence: Json,
) -> Result<Json, NoMemory>
    requires { view sentence ≡ meant.sentence_data model.now attribute.now.sentence }
    ensures { IfOk result (λ v. view v ≡ meant.attribute_with (view elsewhere.denied) (view elsewhere.question) (view elsewhere.rule) (view elsewhere.screen) model.now attribute.now) }
{
    let kind = attribute.kind;
    let entity = entity_name(alloc, model, attribute.entity)?;
    let shown = text_json(alloc, kind_text(kind))?;
    let least = bound_json(alloc, kind, attribute.least)?;
    let most = bound_json(alloc, kind, attribute.most)?;
    let phrase = text_json(alloc, attribute.phrase.as_str())?;
    let Elsewhere {
        denied,
        question,
        rule,
        screen,
    } = elsewhere;
    let mut members = Map::new(alloc);
    put(
        &mut members,
        alloc,
        "decimals",
        decimals_json(kind, attribute.decimals),
    )?;
    put(&mut members, alloc, "denied", denied)?;
    put(&mut members, alloc, "entity", entity)?;
    put(&mut members, alloc, "kind", shown)?;
    put(&mut members, alloc, "least", least)?;
    put(&mut members, alloc, "most", most)?;
    put(&mut members, alloc, "phrase", phrase)?;
    put(&mut members, alloc, "question", question)?;
    put(&mut members, alloc, "rule", rule)?;
    put(&mut members, alloc, "screen", screen)?;
    put(&mut members, alloc, "sentence", sentence)?;
    Ok(Json::Object(members))
}

fn sort_text(relation: &Relation) -> &'static str
    ensures { result.now ≡ meant.sort_text relation.now }
{
    if relation.contains {
        "contains"
    } else if relation.every {
        "every"
    } else if relation.one {
        "one"
    } else {
        "many"
    }
}

pub(crate) fn relation_object(
    alloc: Global,
    model: &Model,
    relation: &Relation,
    asked: Json,
    screen: Json,
) -> Result<Json, NoMemory>
    ensures { IfOk result (λ v. view v ≡ meant.relation_with (view asked) (view screen) model.now relation.now) }
{
    let source = entity_name(alloc, model, relation.source)?;
    let phrase = text_json(alloc, relation.phrase.as_str())?;
    let sort = text_json(alloc, sort_text(relation))?;
    let target = entity_name(alloc, model, relation.target)?;
    let mut members = Map::new(alloc);
    put(&mut members, alloc, "of", source)?;
    put(&mut members, alloc, "phrase", phrase)?;
    put(&mut members, alloc, "question", asked)?;
    put(&mut members, alloc, "rule", Json::Null)?;
    put(&mut members, alloc, "screen", screen)?;
    put(&mut members, alloc, "sort", sort)?;
    put(&mut members, alloc, "to", target)?;
    Ok(Json::Object(members))
}
