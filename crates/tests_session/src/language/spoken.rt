// Phrases that loaded models declare, and their sentences in three forms.
use crate::samples::{load_text, texts};
use opa_model::Model;
use opa_verbs::{Form, say};
use std::alloc::Global;
use std::test::Fail;

/// Phrases of a claimant's attributes, with their places.
const OF_CLAIMANT: [(&str, Option<u32>); 7] = [
    ("the claimant is entitled", Some(0)),
    ("the claimant is an adult", Some(1)),
    ("the claimant is a veteran", Some(2)),
    ("the claimant is", None),
    ("the claimant is not an adult", None),
    ("the claimant is an elf", None),
    ("", None),
];

const OF_FAMILY: [(&str, Option<u32>); 5] = [
    ("the family is eligible", Some(0)),
    ("the child is at school", Some(1)),
    ("the child is at", None),
    ("the children", None),
    ("the child is at work", None),
];

/// Phrases of a family's relations, with their places.
const LISTS_OF_FAMILY: [(&str, Option<u32>); 6] = [
    ("the children", Some(0)),
    ("the child's friend", Some(1)),
    ("the child's", None),
    ("the child", None),
    ("the child is at school", None),
    ("the pets", None),
];

/// A claimant has no relations.
const NO_LISTS: [(&str, Option<u32>); 2] = [
    ("the children", None),
    ("the claimant is entitled", None),
];

/// The first phrase that names another attribute than its place says.
fn other_attribute(model: &Model, rows: &[(&str, Option<u32>)]) -> Option<usize> {
    rows.iter().position(|(phrase, place)| model.find_attribute(phrase).map(|id| id.0) != *place)
}

/// The first phrase that names another relation than its place says.
fn other_relation(model: &Model, rows: &[(&str, Option<u32>)]) -> Option<usize> {
    rows.iter().position(|(phrase, place)| model.find_relation(phrase).map(|id| id.0) != *place)
}

/// The same of a rulebase that is loaded.
fn attribute_elsewhere(
    alloc: Global,
    text: &str,
    rows: &[(&str, Option<u32>)],
) -> Result<Option<usize>, Fail> {
    let base = load_text(alloc, text)?;
    let other = other_attribute(&base.model, rows);
    drop(base);
    Ok(other)
}

fn relation_elsewhere(
    alloc: Global,
    text: &str,
    rows: &[(&str, Option<u32>)],
) -> Result<Option<usize>, Fail> {
    let base = load_text(alloc, text)?;
    let other = other_relation(&base.model, rows);
    drop(base);
    Ok(other)
}

#[test]
fn attributes_of_the_claimant(rt: HostRuntime) -> Result<(), Fail> {
    let other = attribute_elsewhere(rt.alloc(), texts::CLAIMANT, &OF_CLAIMANT)?;
    assert_eq!(rt; other, None);
    Ok(())
}

#[test]
fn attributes_of_the_family(rt: HostRuntime) -> Result<(), Fail> {
    let other = attribute_elsewhere(rt.alloc(), texts::FAMILY, &OF_FAMILY)?;
    assert_eq!(rt; other, None);
    Ok(())
}

#[test]
fn relations_of_the_claimant(rt: HostRuntime) -> Result<(), Fail> {
    let other = relation_elsewhere(rt.alloc(), texts::CLAIMANT, &NO_LISTS)?;
    assert_eq!(rt; other, None);
    Ok(())
}

#[test]
fn relations_of_the_family(rt: HostRuntime) -> Result<(), Fail> {
    let other = relation_elsewhere(rt.alloc(), texts::FAMILY, &LISTS_OF_FAMILY)?;
    assert_eq!(rt; other, None);
    Ok(())
}

/// The sentence of an attribute in a form.
fn said(alloc: Global, model: &Model, phrase: &str, form: Form) -> Result<String, Fail> {
    let Some(attr) = model.find_attribute(phrase) else {
        return Ok(String::from_str(alloc, "undeclared")?);
    };
    if attr.0 >= model.attribute_count() {
        return Ok(String::from_str(alloc, "undeclared")?);
    }
    match &model.attribute(attr).sentence {
        Some(sentence) if sentence.verb < model.verb_count() => {
            let text = say(alloc, model, sentence, form)?;
            Ok(String::from_str(alloc, text.as_str())?)
        }
        _ => Ok(String::from_str(alloc, "no sentence")?),
    }
}

/// The three forms of an attribute's sentence: what is said, denied and asked.
fn forms(alloc: Global, model: &Model, phrase: &str) -> Result<String, Fail> {
    let positive = said(alloc, model, phrase, Form::Positive)?;
    let negative = said(alloc, model, phrase, Form::Negative)?;
    let question = said(alloc, model, phrase, Form::Question)?;
    Ok(format!(in alloc; "{positive}/{negative}/{question}")?)
}

const OF_THE_CLAIMANT: [(&str, &str); 3] = [
    (
        "the claimant is entitled",
        "the claimant is entitled/the claimant is not entitled/is the claimant entitled",
    ),
    (
        "the claimant is an adult",
        "the claimant is an adult/the claimant is not an adult/is the claimant an adult",
    ),
    (
        "the claimant is a veteran",
        "the claimant is a veteran/the claimant is not a veteran/is the claimant a veteran",
    ),
];

const OF_THE_FAMILY: [(&str, &str); 2] = [
    (
        "the family is eligible",
        "the family is eligible/the family is not eligible/is the family eligible",
    ),
    (
        "the child is at school",
        "the child is at school/the child is not at school/is the child at school",
    ),
];

/// The first attribute whose sentence has other forms, with these; nothing where there is none.
fn other_forms(alloc: Global, model: &Model, rows: &[(&str, &str)]) -> Result<String, Fail> {
    for (phrase, want) in rows {
        let found = forms(alloc, model, phrase)?;
        if found.as_str() != *want {
            return Ok(found);
        }
    }
    Ok(String::new(alloc))
}

/// The same of a rulebase that is loaded.
fn other_sentences(alloc: Global, text: &str, rows: &[(&str, &str)]) -> Result<String, Fail> {
    let base = load_text(alloc, text)?;
    let other = other_forms(alloc, &base.model, rows);
    drop(base);
    other
}

#[test]
fn sentences_of_the_claimant(rt: HostRuntime) -> Result<(), Fail> {
    let other = other_sentences(rt.alloc(), texts::CLAIMANT, &OF_THE_CLAIMANT)?;
    assert_eq!(rt; other.as_str(), "");
    Ok(())
}

#[test]
fn sentences_of_the_family(rt: HostRuntime) -> Result<(), Fail> {
    let other = other_sentences(rt.alloc(), texts::FAMILY, &OF_THE_FAMILY)?;
    assert_eq!(rt; other.as_str(), "");
    Ok(())
}
