// The entries of a saved case.
ghost use Rattle.std.specs.Prelude.{◌≡◌, map, codes, IfOk};
ghost use Rattle.std.specs.Option.{option_map};
ghost use Rattle.serde_json.specs.View.{view};
ghost use Rattle.opa_saved.specs.Forms as meant;

use crate::entries::{AnswerEntry, ListEntry, Point, Version};
use crate::parts::{has_size, items_in, text_at};
use crate::points::are_apart;
use crate::read_lines::{line_in, name_in, names_in};
use opa_io::{List, NoMemory, Txt, front};
use opa_line::Line;
use opa_value::Value;
use serde_json::Value as Json;
use std::alloc::Global;

fn name_at(alloc: Global, value: &Json) -> Result<Option<Txt>, NoMemory>
    ensures { IfOk result (λ r. r ≡ meant.member_in (codes "of") meant.name_in (view value.now)) }
{
    match value.get("of") {
        Some(name) => name_in(alloc, name),
        None => Ok(None),
    }
}

fn line_at(alloc: Global, version: Version, value: &Json) -> Result<Option<Line<Value>>, NoMemory>
    ensures { IfOk result (λ r. r ≡ meant.member_in (codes "line") (meant.line_in version) (view value.now)) }
{
    match value.get("line") {
        Some(line) => line_in(alloc, version, line),
        None => Ok(None),
    }
}

fn names_at(alloc: Global, value: &Json) -> Result<Option<List<Txt>>, NoMemory>
    ensures { IfOk result (λ r. r ≡ meant.member_in (codes "names") meant.names_in (view value.now)) }
{
    match value.get("names") {
        Some(names) => names_in(alloc, names),
        None => Ok(None),
    }
}

/// The phrase behind a key, and the name behind `of`.
fn point_in(alloc: Global, value: &Json, key: &str) -> Result<Option<Point>, NoMemory>
    ensures { IfOk result (λ r. r ≡ meant.point_in key.now (view value.now)) }
{
    let Some(phrase) = text_at(value, key) else {
        return Ok(None);
    };
    let Some(name) = name_at(alloc, value)? else {
        return Ok(None);
    };
    let phrase = Txt::from_str(alloc, phrase)?;
    Ok(Some(Point { phrase, name }))
}

#[tactic(auto, unfolding(crate::specs::Forms::answer_in))]
fn answer_in(alloc: Global, version: Version, value: &Json) -> Result<Option<AnswerEntry>, NoMemory>
    ensures { IfOk result (λ r. r ≡ meant.answer_in version (view value.now)) }
{
    if !has_size(value, 3) {
        return Ok(None);
    }
    let Some(point) = point_in(alloc, value, "attribute")? else {
        return Ok(None);
    };
    let Some(line) = line_at(alloc, version, value)? else {
        return Ok(None);
    };
    Ok(Some(AnswerEntry { point, line }))
}

#[tactic(auto, unfolding(crate::specs::Forms::list_in))]
fn list_in(alloc: Global, value: &Json) -> Result<Option<ListEntry>, NoMemory>
    ensures { IfOk result (λ r. r ≡ meant.list_in (view value.now)) }
{
    if !has_size(value, 3) {
        return Ok(None);
    }
    let Some(point) = point_in(alloc, value, "list")? else {
        return Ok(None);
    };
    let Some(names) = names_at(alloc, value)? else {
        return Ok(None);
    };
    Ok(Some(ListEntry { point, names }))
}

fn each_answer(
    alloc: Global,
    version: Version,
    items: &[Json],
) -> Result<Option<Vec<AnswerEntry>>, NoMemory>
    ensures { IfOk result (λ r. option_map (λ v. v.items) r ≡ meant.each (meant.answer_in version) (map view items.now)) }
{
    let mut answers = Vec::new(alloc);
    let mut rest = items;
    while let Some((item, later)) = front(rest) {
        let Some(answer) = answer_in(alloc, version, item)? else {
            return Ok(None);
        };
        answers.push(answer)?;
        rest = later;
    }
    Ok(Some(answers))
}

fn each_list(alloc: Global, items: &[Json]) -> Result<Option<Vec<ListEntry>>, NoMemory>
    ensures { IfOk result (λ r. option_map (λ v. v.items) r ≡ meant.each meant.list_in (map view items.now)) }
{
    let mut lists = Vec::new(alloc);
    let mut rest = items;
    while let Some((item, later)) = front(rest) {
        let Some(list) = list_in(alloc, item)? else {
            return Ok(None);
        };
        lists.push(list)?;
        rest = later;
    }
    Ok(Some(lists))
}

fn answers_apart(
    alloc: Global,
    answers: Vec<AnswerEntry>,
) -> Result<Option<Vec<AnswerEntry>>, NoMemory>
    ensures { IfOk result (λ r. option_map (λ v. v.items) r ≡ meant.answers_apart answers.items) }
{
    if are_apart(alloc, &answers)? {
        Ok(Some(answers))
    } else {
        Ok(None)
    }
}

fn lists_apart(alloc: Global, lists: Vec<ListEntry>) -> Result<Option<Vec<ListEntry>>, NoMemory>
    ensures { IfOk result (λ r. option_map (λ v. v.items) r ≡ meant.lists_apart lists.items) }
{
    if are_apart(alloc, &lists)? {
        Ok(Some(lists))
    } else {
        Ok(None)
    }
}

#[tactic(auto, unfolding(crate::specs::Forms::answers_in))]
fn answers_in(
    alloc: Global,
    version: Version,
    value: &Json,
) -> Result<Option<Vec<AnswerEntry>>, NoMemory>
    ensures { IfOk result (λ r. option_map (λ v. v.items) r ≡ meant.answers_in version (view value.now)) }
{
    let Some(items) = items_in(value) else {
        return Ok(None);
    };
    match each_answer(alloc, version, items)? {
        Some(answers) => answers_apart(alloc, answers),
        None => Ok(None),
    }
}

#[tactic(auto, unfolding(crate::specs::Forms::lists_in))]
fn lists_in(alloc: Global, value: &Json) -> Result<Option<Vec<ListEntry>>, NoMemory>
    ensures { IfOk result (λ r. option_map (λ v. v.items) r ≡ meant.lists_in (view value.now)) }
{
    let Some(items) = items_in(value) else {
        return Ok(None);
    };
    match each_list(alloc, items)? {
        Some(lists) => lists_apart(alloc, lists),
        None => Ok(None),
    }
}

/// The answers of a saved case.
pub(crate) fn answers_at(
    alloc: Global,
    version: Version,
    value: &Json,
) -> Result<Option<Vec<AnswerEntry>>, NoMemory>
    ensures { IfOk result (λ r. option_map (λ v. v.items) r ≡ meant.member_in (codes "answers") (meant.answers_in version) (view value.now)) }
{
    match value.get("answers") {
        Some(answers) => answers_in(alloc, version, answers),
        None => Ok(None),
    }
}

/// The lists of a saved case.
pub(crate) fn lists_at(alloc: Global, value: &Json) -> Result<Option<Vec<ListEntry>>, NoMemory>
    ensures { IfOk result (λ r. option_map (λ v. v.items) r ≡ meant.member_in (codes "lists") meant.lists_in (view value.now)) }
{
    match value.get("lists") {
        Some(lists) => lists_in(alloc, lists),
        None => Ok(None),
    }
}
