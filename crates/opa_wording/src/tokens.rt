// Single tokens, phrases and literals.
ghost use Rattle.std.specs.Prelude.{◌≡◌, ◌++◌, ◌<◌, OnOk, IfOk, if◌then◌else◌, nat_lt, []};
ghost use Rattle.std.specs.String.{string_bytes};
ghost use Rattle.opa_model.specs.declared.things.Kind.TheVariants.{Number as NumberKind};
ghost use Rattle.opa_words.specs.Written.{gap, text_of};
ghost use Rattle.opa_text.specs.Texts.{value_text as value_text_of};
ghost use Rattle.opa_wording.specs.Wordings.{literal, phrase, date_text as date_text_of};
ghost use Rattle.opa_wording.specs.Lines.{literal_text as literal_text_of};

use opa_date::DAYS;
use opa_io::{NoMemory, Txt};
use opa_model::Kind;
use opa_text::value_text;
use opa_value::Value;
use std::alloc::Global;

/// What stands before a token.
fn gap(is_spaced: bool) -> &'static str
    ensures { result.now ≡ gap is_spaced }
{
    if is_spaced { " " } else { "" }
}

/// Appends a token, with a blank before it or none.
pub fn push_token(out: &mut String, is_spaced: bool, text: &str) -> Result<(), NoMemory>
    ensures { OnOk result (string_bytes out.new ≡ string_bytes out.old ++ (gap is_spaced ++ text.now)) }
{
    out.push_str(gap(is_spaced))?;
    out.push_str(text)?;
    Ok(())
}

/// The text of a literal, in which a minus stands right before its number.
pub fn literal_text(alloc: Global, value: &Value) -> Result<Txt, NoMemory>
    ensures { IfOk result (λ t. t ≡ literal_text_of value.now) }
{
    match value {
        Value::Day(day) => date_text(alloc, *day),
        Value::Unknown | Value::Uncertain | Value::Bool(_) | Value::Num(_) | Value::Words(_) => {
            value_text(alloc, Kind::Number, value)
        }
    }
}

fn date_text(alloc: Global, day: u32) -> Result<Txt, NoMemory>
    ensures { IfOk result (λ t. t ≡ date_text_of day) }
{
    if day < DAYS {
        value_text(alloc, Kind::Number, &Value::Day(day))
    } else {
        Txt::from_str(alloc, "")
    }
}

/// Appends a literal.
#[tactic(auto, using(crate::proofs::TextLaws::leaves))]
pub fn push_literal(
    alloc: Global,
    out: &mut String,
    is_spaced: bool,
    value: &Value,
) -> Result<(), NoMemory>
    ensures { OnOk result (string_bytes out.new ≡ string_bytes out.old ++ text_of (literal is_spaced value.now)) }
{
    push_token(out, is_spaced, literal_text(alloc, value)?.as_str())
}

/// Appends a phrase, whose words have one space between them.
#[tactic(auto, using(crate::proofs::TextLaws::leaves))]
pub fn push_phrase(out: &mut String, is_spaced: bool, text: &str) -> Result<(), NoMemory>
    ensures { OnOk result (string_bytes out.new ≡ string_bytes out.old ++ text_of (phrase is_spaced text.now)) }
{
    push_token(out, is_spaced, text)
}
