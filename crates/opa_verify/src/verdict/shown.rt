// Whether a value is of an attribute's kind, and it and its origin are printed so for the attribute.
ghost use Rattle.std.specs.Prelude.{◌≡◌, IfOk};
ghost use Rattle.opa_case.specs.Shapes.{attribute_or};
ghost use Rattle.opa_text.specs.Texts.{IsOfCalendar};
ghost use Rattle.opa_verify.specs.Verdict.Naming as meant;

use crate::spelling::{Origin, origin_text};
use opa_case::has_kind;
use opa_io::{NoMemory, Txt};
use opa_model::{AttrId, Kind, Model};
use opa_text::value_text;
use opa_tree::Rulebase;
use opa_value::Value;
use std::alloc::Global;

pub(crate) fn is_printed_so(
    alloc: Global,
    base: &Rulebase,
    attr: AttrId,
    kind: Kind,
    value: &Value,
    origin: &Origin,
) -> Result<bool, NoMemory>
    requires { IsOfCalendar value.now }
    ensures { IfOk result (λ b. b ≡ meant.is_printed_so base.now attr kind value.now origin.now) }
{
    let declared = kind_of(&base.model, attr);
    if !has_kind(declared, value) {
        return Ok(false);
    }
    let own = value_text(alloc, declared, value)?;
    let shown = value_text(alloc, kind, value)?;
    let place = opa_report::origin_text(alloc, base, attr, value)?;
    let printed = origin_text(alloc, origin)?;
    Ok(own.as_str() == shown.as_str() && place.as_str() == printed.as_str())
}

pub(crate) fn kind_of(model: &Model, attr: AttrId) -> Kind
    ensures { result ≡ (attribute_or model.now attr).kind }
{
    if attr.0 < model.attribute_count() {
        model.attribute(attr).kind
    } else {
        Kind::Bool
    }
}
