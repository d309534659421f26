// What bounds an attribute's answers.
ghost use Rattle.std.specs.Prelude.{◌≡◌, IfOk};
ghost use Rattle.serde_json.specs.View.{view};
ghost use Rattle.opa_rules.specs.Describing.Parts as meant;

use crate::describing::parts::text_or_null;
use opa_io::{NoMemory, Txt};
use opa_model::Kind;
use opa_value::Number;
use serde_json::Value as Json;
use std::alloc::Global;

/// The greatest count of ten-thousandths.
const GREATEST: u64 = 100_000_000_000_000_000;

pub(crate) fn is_counted(kind: Kind) -> bool
    ensures { result ≡ meant.is_counted kind }
{
    match kind {
        Kind::Number | Kind::Currency => true,
        Kind::Bool | Kind::Words | Kind::Date => false,
    }
}

pub(crate) fn kind_text(kind: Kind) -> &'static str
    ensures { result.now ≡ meant.kind_text kind }
{
    match kind {
        Kind::Bool => "bool",
        Kind::Number => "number",
        Kind::Currency => "currency",
        Kind::Words => "text",
        Kind::Date => "date",
    }
}

pub(crate) fn decimals_json(kind: Kind, decimals: u8) -> Json
    ensures { view result ≡ meant.decimals_data kind decimals }
{
    if is_counted(kind) {
        Json::from(u64::from(decimals))
    } else {
        Json::Null
    }
}

fn plain_text(alloc: Global, count: i64) -> Result<Option<Txt>, NoMemory>
    ensures { IfOk result (λ t. t ≡ meant.plain_of count) }
{
    match Number::from_count(i128::from(count)) {
        Some(number) => Ok(Some(number.text(alloc, false)?)),
        None => Ok(None),
    }
}

/// A bound, where it is narrower than that of all numbers.
fn bound_text(alloc: Global, count: i64) -> Result<Option<Txt>, NoMemory>
    ensures { IfOk result (λ t. t ≡ meant.bound_text count) }
{
    if count.unsigned_abs() < GREATEST {
        plain_text(alloc, count)
    } else {
        Ok(None)
    }
}

pub(crate) fn bound_json(alloc: Global, kind: Kind, count: i64) -> Result<Json, NoMemory>
    ensures { IfOk result (λ v. view v ≡ meant.bound_data kind count) }
{
    if !is_counted(kind) {
        return Ok(Json::Null);
    }
    let text = bound_text(alloc, count)?;
    text_or_null(alloc, text.as_ref())
}
