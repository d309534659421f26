// A whole saved case.
ghost use Rattle.std.specs.Prelude.{◌≡◌, codes, IfOk};
ghost use Rattle.std.specs.Option.{option_map};
ghost use Rattle.serde_json.specs.View.{view};
ghost use Rattle.opa_saved.specs.Forms as meant;
ghost use Rattle.opa_saved.specs.Whole.{seen};

use crate::entries::{Entries, Version};
use crate::parts::{has_size, text_at, whole};
use crate::read_entries::{answers_at, lists_at};
use opa_io::NoMemory;
use serde_json::Value as Json;
use std::alloc::Global;

fn says_format(value: &Json) -> bool
    ensures { result ≡ meant.says_format (view value.now) }
{
    match text_at(value, "format") {
        Some(format) => format == "policy-case",
        None => false,
    }
}

fn number_at(value: &Json, key: &str) -> Option<u64>
    ensures { result ≡ meant.member_in key.now meant.whole (view value.now) }
{
    whole(value.get(key)?)
}

fn says_version(value: &Json, number: u64) -> bool
    ensures { result ≡ meant.says_version number (view value.now) }
{
    match number_at(value, "version") {
        Some(version) => version == number,
        None => false,
    }
}

fn digest_in(value: &Json) -> Option<u64>
    ensures { result ≡ meant.digest_in (view value.now) }
{
    let digest = whole(value)?;
    if digest < 4_294_967_296 {
        Some(digest)
    } else {
        None
    }
}

fn second_version(value: &Json) -> Option<Version>
    ensures { result ≡ meant.second_version (view value.now) }
{
    let model = value.get("model")?;
    Some(Version::Second(digest_in(model)?))
}

fn version_in(value: &Json) -> Option<Version>
    ensures { result ≡ meant.version_in (view value.now) }
{
    if has_size(value, 4) && says_version(value, 1) {
        return Some(Version::First);
    }
    if has_size(value, 5) && says_version(value, 2) {
        return second_version(value);
    }
    None
}

fn entries_of(alloc: Global, version: Version, value: &Json) -> Result<Option<Entries>, NoMemory>
    ensures { IfOk result (λ r. option_map seen r ≡ meant.file_of version (view value.now)) }
{
    let Some(answers) = answers_at(alloc, version, value)? else {
        return Ok(None);
    };
    let Some(lists) = lists_at(alloc, value)? else {
        return Ok(None);
    };
    Ok(Some(Entries {
        version,
        answers,
        lists,
    }))
}

/// What a saved case has, if the value has the form of one.
#[tactic(auto, unfolding(crate::specs::Forms::file_in))]
pub(crate) fn entries_in(alloc: Global, value: &Json) -> Result<Option<Entries>, NoMemory>
    ensures { IfOk result (λ r. option_map seen r ≡ meant.file_in (view value.now)) }
{
    if !says_format(value) {
        return Ok(None);
    }
    match version_in(value) {
        Some(version) => entries_of(alloc, version, value),
        None => Ok(None),
    }
}
