// Parts of the document: texts, and lists of values.
ghost use Rattle.std.specs.Prelude.{◌≡◌, map, IfOk};
ghost use Rattle.std.specs.Option.{option_copied};
ghost use Rattle.serde_json.specs.Data.{string};
ghost use Rattle.serde_json.specs.View.{view};
ghost use Rattle.opa_rules.specs.Describing.Parts as meant;

use opa_io::{NoMemory, Txt};
use serde_json::Value as Json;
use std::alloc::Global;

pub(crate) fn text_json(alloc: Global, text: &str) -> Result<Json, NoMemory>
    ensures { IfOk result (λ v. view v ≡ string text.now) }
{
    Ok(Json::String(String::from_str(alloc, text)?))
}

/// A text, where there is one.
pub(crate) fn text_or_null(alloc: Global, text: Option<&Txt>) -> Result<Json, NoMemory>
    ensures { IfOk result (λ v. view v ≡ meant.text_or_null (option_copied text.entry)) }
{
    match text {
        Some(text) => text_json(alloc, text.as_str()),
        None => Ok(Json::Null),
    }
}

pub(crate) fn list_json(items: Vec<Json>) -> Json
    ensures { view result ≡ meant.list_data (map view items.items) }
{
    Json::Array(items)
}
