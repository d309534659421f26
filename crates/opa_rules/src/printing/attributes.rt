// Lines that declare attributes.

use crate::printing::names::positive;
use crate::printing::screens::push_rest;
use opa_io::NoMemory;
use opa_model::{Attribute, Kind, Model, Sentence};
use opa_value::Number;
use std::alloc::Global;

/// The counts of ten-thousandths between which all numbers lie.
const LEAST: i64 = -100_000_000_000_000_000;

const MOST: i64 = 100_000_000_000_000_000;

/// How many decimals an answer may have where nothing is said of them.
fn usual_decimals(kind: Kind) -> u8 {
    match kind {
        Kind::Currency => 2,
        Kind::Bool | Kind::Number | Kind::Words | Kind::Date => 4,
    }
}

/// Appends a word and a number of so many ten-thousandths.
fn push_limit(
    alloc: Global,
    out: &mut String,
    joint: &str,
    word: &str,
    count: i64,
) -> Result<(), NoMemory> {
    if let Some(number) = Number::from_count(i128::from(count)) {
        let text = number.text(alloc, false)?;
        out.push_str(joint)?;
        out.push_str(word)?;
        out.push_str(text.as_str())?;
    }
    Ok(())
}

/// Appends what bounds an attribute's answers, where it is narrower than usual.
fn push_limits(alloc: Global, out: &mut String, attribute: &Attribute) -> Result<(), NoMemory> {
    let mut joint = ": ";
    if attribute.least != LEAST {
        push_limit(alloc, out, joint, "from ", attribute.least)?;
        joint = ", ";
    }
    if attribute.most != MOST {
        push_limit(alloc, out, joint, "to ", attribute.most)?;
        joint = ", ";
    }
    if attribute.decimals != usual_decimals(attribute.kind) {
        let count = i64::from(attribute.decimals) * 10_000;
        push_limit(alloc, out, joint, "decimals ", count)?;
    }
    Ok(())
}

/// Appends what is true or false, with its verb in brackets.
fn push_sentence(out: &mut String, model: &Model, sentence: &Sentence) -> Result<(), NoMemory> {
    out.push_str(sentence.subject.as_str())?;
    out.push_str(" [")?;
    out.push_str(positive(model, sentence.verb))?;
    out.push_str("]")?;
    push_rest(out, sentence.rest.as_str())
}

/// Appends a kind and what an attribute is called.
fn push_named(out: &mut String, word: &str, attribute: &Attribute) -> Result<(), NoMemory> {
    out.push_str(word)?;
    out.push_str(attribute.phrase.as_str())?;
    Ok(())
}

/// Appends the line that declares an attribute.
pub(crate) fn push_attribute(
    alloc: Global,
    out: &mut String,
    model: &Model,
    attribute: &Attribute,
) -> Result<(), NoMemory> {
    match (attribute.kind, &attribute.sentence) {
        (Kind::Bool, Some(sentence)) => {
            out.push_str("  bool ")?;
            push_sentence(out, model, sentence)?;
        }
        (Kind::Bool, None) => {}
        (Kind::Number, _) => {
            push_named(out, "  number ", attribute)?;
            push_limits(alloc, out, attribute)?;
        }
        (Kind::Currency, _) => {
            push_named(out, "  currency ", attribute)?;
            push_limits(alloc, out, attribute)?;
        }
        (Kind::Words, _) => push_named(out, "  text ", attribute)?,
        (Kind::Date, _) => push_named(out, "  date ", attribute)?,
    }
    out.push_str("\n")?;
    Ok(())
}
