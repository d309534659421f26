// Parts of JSON values.
ghost use Rattle.std.specs.Prelude.{◌≡◌, map, option_map, IfOk, MatchOption};
ghost use Rattle.serde_json.specs.Data.{Data};
ghost use Rattle.serde_json.specs.Find.{as_str};
ghost use Rattle.serde_json.specs.View.{view};
ghost use Rattle.opa_saved.specs.Forms as meant;
ghost use Rattle.opa_saved.specs.Saved.{ReadsAs};

use opa_io::NoMemory;
use serde_json::Value as Json;
use std::alloc::Global;

/// The value of these bytes, if they have one.
pub(crate) fn value_of_bytes(alloc: Global, bytes: &[u8]) -> Result<Option<Json>, NoMemory>
    ensures { IfOk result (λ r. MatchOption r ((d : Data) → ReadsAs bytes.now d → ⊥) (λ v. ReadsAs bytes.now (view v))) }
{
    match Json::from_slice(alloc, bytes) {
        Ok(value) => Ok(Some(value)),
        Err(error) => {
            if error.is_memory() {
                Err(NoMemory)
            } else {
                Ok(None)
            }
        }
    }
}

/// Whether it is an object of so many members.
pub(crate) fn has_size(value: &Json, size: usize) -> bool
    ensures { result ≡ meant.has_size size (view value.now) }
{
    match value.as_object() {
        Some(members) => members.len() == size,
        None => false,
    }
}

/// The items of a list.
pub(crate) fn items_in(value: &Json) -> Option<&[Json]>
    ensures { option_map (λ items. map view items.now) result ≡ meant.items_in (view value.now) }
{
    match value.as_array() {
        Some(items) => Some(items.as_slice()),
        None => None,
    }
}

/// The text that a member is.
pub(crate) fn text_at<'v>(value: &'v Json, key: &str) -> Option<&'v str>
    ensures { option_map (λ t. t.now) result ≡ meant.member_in key.now as_str (view value.now) }
{
    value.get(key)?.as_str()
}

/// A whole number that isn't below zero.
pub(crate) fn whole(value: &Json) -> Option<u64>
    ensures { result ≡ meant.whole (view value.now) }
{
    value.as_u64()
}
