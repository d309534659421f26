// Lines and names of a saved case.
ghost use Rattle.std.specs.Prelude.{◌≡◌, map, IfOk};
ghost use Rattle.std.specs.Option.{option_map};
ghost use Rattle.serde_json.specs.View.{view};
ghost use Rattle.opa_line.specs.Pairs.{fault_of};
ghost use Rattle.opa_saved.specs.Forms as meant;

use crate::entries::Version;
use crate::parts::{items_in, whole};
use crate::texts::{clean, value_of};
use opa_io::{List, NoMemory, Txt, front};
use opa_line::{DAYS, Line, LineFault};
use opa_value::Value;
use serde_json::Value as Json;
use std::alloc::Global;

/// The days of version 1, and the first of them as a day of the calendar.
const FIRST_DAYS: u64 = 146_097;

const FIRST_DAY: u32 = 73_049;

/// The day of the calendar that a day of a version is.
fn day_in(version: Version, day: u64) -> Option<u32>
    ensures { result ≡ meant.day_in version day }
{
    match version {
        Version::First => first_day_in(day),
        Version::Second(_) => second_day_in(day),
    }
}

fn first_day_in(day: u64) -> Option<u32>
    ensures { result ≡ meant.first_day_in day }
{
    if day == 0 {
        return Some(0);
    }
    if day < FIRST_DAYS {
        Some(day as u32 + FIRST_DAY)
    } else {
        None
    }
}

fn second_day_in(day: u64) -> Option<u32>
    ensures { result ≡ meant.second_day_in day }
{
    if day < u64::from(DAYS) {
        Some(day as u32)
    } else {
        None
    }
}

fn day_at(version: Version, value: &Json) -> Option<u32>
    ensures { result ≡ meant.day_at version (view value.now) }
{
    day_in(version, whole(value)?)
}

fn value_in(alloc: Global, value: &Json) -> Result<Option<Value>, NoMemory>
    ensures { IfOk result (λ r. r ≡ meant.value_in (view value.now)) }
{
    match value.as_str() {
        Some(text) => value_of(alloc, text),
        None => Ok(None),
    }
}

/// The day and the value that two items are.
fn pair_of(
    alloc: Global,
    version: Version,
    items: &[Json],
) -> Result<Option<(u32, Value)>, NoMemory>
    ensures { IfOk result (λ r. r ≡ meant.pair_of version (map view items.now)) }
{
    let Some((day, later)) = front(items) else {
        return Ok(None);
    };
    let Some((value, rest)) = front(later) else {
        return Ok(None);
    };
    match front(rest) {
        Some(_) => Ok(None),
        None => pair_with(alloc, version, day, value),
    }
}

fn pair_with(
    alloc: Global,
    version: Version,
    day: &Json,
    value: &Json,
) -> Result<Option<(u32, Value)>, NoMemory>
    ensures { IfOk result (λ r. r ≡ meant.pair_with version (view day.now) (view value.now)) }
{
    let Some(day) = day_at(version, day) else {
        return Ok(None);
    };
    let Some(value) = value_in(alloc, value)? else {
        return Ok(None);
    };
    Ok(Some((day, value)))
}

fn pair_in(alloc: Global, version: Version, value: &Json) -> Result<Option<(u32, Value)>, NoMemory>
    ensures { IfOk result (λ r. r ≡ meant.pair_in version (view value.now)) }
{
    match items_in(value) {
        Some(items) => pair_of(alloc, version, items),
        None => Ok(None),
    }
}

fn each_pair(
    alloc: Global,
    version: Version,
    items: &[Json],
) -> Result<Option<Vec<(u32, Value)>>, NoMemory>
    ensures { IfOk result (λ r. option_map (λ v. v.items) r ≡ meant.each (meant.pair_in version) (map view items.now)) }
{
    let mut pairs = Vec::new(alloc);
    let mut rest = items;
    while let Some((item, later)) = front(rest) {
        let Some(pair) = pair_in(alloc, version, item)? else {
            return Ok(None);
        };
        pairs.push(pair)?;
        rest = later;
    }
    Ok(Some(pairs))
}

fn pairs_in(
    alloc: Global,
    version: Version,
    value: &Json,
) -> Result<Option<Vec<(u32, Value)>>, NoMemory>
    ensures { IfOk result (λ r. option_map (λ v. v.items) r ≡ meant.pairs_in version (view value.now)) }
{
    match items_in(value) {
        Some(items) => each_pair(alloc, version, items),
        None => Ok(None),
    }
}

/// The line of pairs, unless they have a fault.
fn line_of(alloc: Global, pairs: Vec<(u32, Value)>) -> Result<Option<Line<Value>>, NoMemory>
    ensures { IfOk result (λ r. r ≡ meant.unless_fault (fault_of pairs.items) (meant.line_of pairs.items)) }
{
    match Line::from_pairs(alloc, pairs) {
        Ok(line) => {
            let _form = line.segments();
            Ok(Some(line))
        }
        Err(fault) => {
            if fault == LineFault::NoMemory {
                Err(NoMemory)
            } else {
                Ok(None)
            }
        }
    }
}

pub(crate) fn line_in(
    alloc: Global,
    version: Version,
    value: &Json,
) -> Result<Option<Line<Value>>, NoMemory>
    ensures { IfOk result (λ r. r ≡ meant.line_in version (view value.now)) }
{
    match pairs_in(alloc, version, value)? {
        Some(pairs) => line_of(alloc, pairs),
        None => Ok(None),
    }
}

/// The name of an instance.
pub(crate) fn name_in(alloc: Global, value: &Json) -> Result<Option<Txt>, NoMemory>
    ensures { IfOk result (λ r. r ≡ meant.name_in (view value.now)) }
{
    match value.as_str() {
        Some(text) => clean(alloc, text),
        None => Ok(None),
    }
}

fn each_name(alloc: Global, items: &[Json]) -> Result<Option<List<Txt>>, NoMemory>
    ensures { IfOk result (λ r. r ≡ meant.each meant.name_in (map view items.now)) }
{
    let mut names = List::new(alloc);
    let mut rest = items;
    while let Some((item, later)) = front(rest) {
        let Some(name) = name_in(alloc, item)? else {
            return Ok(None);
        };
        names.push(name)?;
        rest = later;
    }
    Ok(Some(names))
}

pub(crate) fn names_in(alloc: Global, value: &Json) -> Result<Option<List<Txt>>, NoMemory>
    ensures { IfOk result (λ r. r ≡ meant.names_in (view value.now)) }
{
    match items_in(value) {
        Some(items) => each_name(alloc, items),
        None => Ok(None),
    }
}
