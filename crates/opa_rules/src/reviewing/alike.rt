// Declared phrases that are easily taken for one another.
ghost use Rattle.std.specs.Prelude.{◌≡◌, ◌++◌, length, OnOk};
ghost use Rattle.opa_rules.specs.Reviewing.Alike as meant;

use crate::faults::difference;
use crate::reviewing::finding::{AlikeAttributes, AlikeLists, Finding, MOST_COMPARED};
use crate::reviewing::phrases::{list_phrase_of, phrase_of};
use opa_io::{List, NoMemory};
use opa_model::{AttrId, Model, RelId};

fn has_digit(phrase: &str) -> bool
    ensures { result ≡ meant.has_digit phrase.now }
{
    phrase
        .as_bytes()
        .iter()
        .any(|byte| *byte >= 48 && *byte <= 57)
}

fn differ_by_one(first: &str, second: &str) -> bool
    ensures { result ≡ meant.differ_by_one first.now second.now }
{
    !has_digit(first) && !has_digit(second) && difference(first.as_bytes(), second.as_bytes()) <= 1
}

/// Whether two phrases are the same but for capital letters.
pub(crate) fn differ_in_case(first: &str, second: &str) -> bool
    ensures { result ≡ meant.differ_in_case first.now second.now }
{
    first.eq_ignore_ascii_case(second)
}

fn are_close(first: &str, second: &str) -> bool
    ensures { result ≡ meant.are_close first.now second.now }
{
    differ_in_case(first, second) || differ_by_one(first, second)
}

/// Adds two attributes, if their phrases are close.
fn push_attribute_pair(
    findings: &mut List<Finding>,
    model: &Model,
    first: u32,
    second: u32,
) -> Result<(), NoMemory>
    ensures { OnOk result (findings.new ≡ findings.old ++ meant.attributes_at model.now second first) }
{
    let first = AttrId(first);
    let second = AttrId(second);
    if !are_close(phrase_of(model, first), phrase_of(model, second)) {
        return Ok(());
    }
    findings.push(Finding::Attributes(AlikeAttributes { first, second }))
}

fn push_attributes_with(
    findings: &mut List<Finding>,
    model: &Model,
    place: u32,
) -> Result<(), NoMemory>
    ensures { OnOk result (findings.new ≡ findings.old ++ meant.attributes_with model.now place) }
{
    for earlier in 0..place {
        push_attribute_pair(findings, model, earlier, place)?;
    }
    Ok(())
}

fn push_attributes(findings: &mut List<Finding>, model: &Model) -> Result<(), NoMemory>
    ensures { OnOk result (findings.new ≡ findings.old ++ meant.placed (meant.attributes_with model.now) (length model.now.attributes)) }
{
    for place in 0..model.attribute_count() {
        push_attributes_with(findings, model, place)?;
    }
    Ok(())
}

fn push_few_attributes(findings: &mut List<Finding>, model: &Model) -> Result<(), NoMemory>
    ensures { OnOk result (findings.new ≡ findings.old ++ meant.alike_attributes model.now) }
{
    if model.attribute_count() > MOST_COMPARED {
        return Ok(());
    }
    push_attributes(findings, model)
}

/// Adds two lists, if their phrases are close.
fn push_list_pair(
    findings: &mut List<Finding>,
    model: &Model,
    first: u32,
    second: u32,
) -> Result<(), NoMemory>
    ensures { OnOk result (findings.new ≡ findings.old ++ meant.lists_at model.now second first) }
{
    let first = RelId(first);
    let second = RelId(second);
    if !are_close(list_phrase_of(model, first), list_phrase_of(model, second)) {
        return Ok(());
    }
    findings.push(Finding::Lists(AlikeLists { first, second }))
}

fn push_lists_with(findings: &mut List<Finding>, model: &Model, place: u32) -> Result<(), NoMemory>
    ensures { OnOk result (findings.new ≡ findings.old ++ meant.lists_with model.now place) }
{
    for earlier in 0..place {
        push_list_pair(findings, model, earlier, place)?;
    }
    Ok(())
}

fn push_lists(findings: &mut List<Finding>, model: &Model) -> Result<(), NoMemory>
    ensures { OnOk result (findings.new ≡ findings.old ++ meant.placed (meant.lists_with model.now) (length model.now.relations)) }
{
    for place in 0..model.relation_count() {
        push_lists_with(findings, model, place)?;
    }
    Ok(())
}

fn push_few_lists(findings: &mut List<Finding>, model: &Model) -> Result<(), NoMemory>
    ensures { OnOk result (findings.new ≡ findings.old ++ meant.alike_lists model.now) }
{
    if model.relation_count() > MOST_COMPARED {
        return Ok(());
    }
    push_lists(findings, model)
}

/// Adds the phrases that differ by one letter or in case: those of attributes, and those of lists.
pub(crate) fn push_alike(findings: &mut List<Finding>, model: &Model) -> Result<(), NoMemory>
    ensures { OnOk result (findings.new ≡ findings.old ++ meant.alike model.now) }
{
    push_few_attributes(findings, model)?;
    push_few_lists(findings, model)
}
