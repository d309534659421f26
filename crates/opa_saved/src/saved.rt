// A case as a text.
ghost use Rattle.std.specs.Prelude.{◌≡◌, map, length, IfOk};
ghost use Rattle.serde_json.specs.View.{view};
ghost use Rattle.opa_saved.specs.RoundTrip.{HaveLines, LoadsBack};
ghost use Rattle.opa_saved.specs.Saved.{list_data, whole_data, saved_data, saved_text as meant, ReadsAs};
ghost use Rattle.opa_saved.specs.Told.{FitsModel};

use crate::answers::answers;
use crate::digest::digest;
use crate::lists::lists;
use crate::order::live_order;
use crate::printed::text_of;
use opa_case::Case;
use opa_cells::InstanceId;
use opa_io::NoMemory;
use opa_model::Model;
use serde_json::{Map, Value as Json, put};
use std::alloc::Global;

/// The text of a case that fits the model: one JSON object, and a line feed.
pub fn saved_text(alloc: Global, model: &Model, case: &Case) -> Result<Vec<u8>, NoMemory>
    requires { FitsModel model.now case.now }
    ensures text { IfOk result (λ b. b.items ≡ meant model.now case.now) }
    ensures back { IfOk result (λ b. ReadsAs b.items (saved_data model.now case.now)) }
    ensures loads { IfOk result (λ b. LoadsBack model.now case.now b.items) }
{
    // The count shows the model's form.
    let _count = model.entity_count();
    let order = live_order(alloc, model, case)?;
    let value = saved_json(alloc, model, case, &order)?;
    Ok(text_of(alloc, &value)?)
}

fn saved_json(
    alloc: Global,
    model: &Model,
    case: &Case,
    order: &[(InstanceId, InstanceId)],
) -> Result<Json, NoMemory>
    requires fits { FitsModel model.now case.now }
    requires order { order.now ≡ case.now.live }
    ensures data { IfOk result (λ v. view v ≡ saved_data model.now case.now) }
    ensures lines { IfOk result (λ v. HaveLines model.now case.now (length model.now.attributes)) }
{
    let answers = answers(alloc, model, case, order)?;
    let lists = lists(alloc, model, case, order)?;
    let json = whole(alloc, answers, lists, digest(model))?;
    Ok(json)
}

/// The object of answers, lists and a digest.
fn whole(alloc: Global, answers: Vec<Json>, lists: Vec<Json>, digest: u64) -> Result<Json, NoMemory>
    ensures { IfOk result (λ v. view v ≡ whole_data (map view answers.items) (map view lists.items) digest) }
{
    let format = Json::String(String::from_str(alloc, "policy-case")?);
    let mut members = Map::new(alloc);
    put(&mut members, alloc, "answers", list_json(answers))?;
    put(&mut members, alloc, "format", format)?;
    put(&mut members, alloc, "lists", list_json(lists))?;
    put(&mut members, alloc, "model", Json::from(digest))?;
    put(&mut members, alloc, "version", Json::from(2u64))?;
    Ok(Json::Object(members))
}

fn list_json(items: Vec<Json>) -> Json
    ensures { view result ≡ list_data (map view items.items) }
{
    Json::Array(items)
}
