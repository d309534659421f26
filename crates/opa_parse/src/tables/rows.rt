// The records of a table.
ghost use Rattle.std.specs.Prelude.{◌≡◌, ◌≢◌, ◌+◌, ◌<◌, ◌^◌, ◌==◌, [], ◌∷◌, length, map, IfOk};
ghost use Rattle.csv.specs.Records.{fields_of};
ghost use Rattle.opa_parse.specs.Tables.Cells.{Says};
ghost use Rattle.opa_parse.specs.Tables.Tables.{AreHeads, width as width_of, IsCase, IsLast, AreCased, IsEnd, IsBelow, IsFound};

use crate::back;
use crate::tables::conditions::tests_of;
use crate::tables::heads::heads_of;
use crate::tables::records::cells_of;
use crate::tables::values::{are_otherwise, values_of};
use crate::tables::{Case, Cased, Found, Heads, Last, Table};
use csv::ByteRecord;
use opa_io::{List, NoMemory, front};
use opa_model::Model;
use opa_sentence::Names;
use std::alloc::Global;

/// Whether a record has so many cells.
fn has_width(heads: &Heads, count: usize) -> bool
    ensures { result ≡ (count == width_of heads.now) }
{
    let conditions = heads.conditions.len();
    count >= conditions && count - conditions == heads.conclusions.len()
}

fn case_of(
    alloc: Global,
    names: &Names,
    heads: &Heads,
    number: u32,
    cells: &[List<u8>],
) -> Result<Option<Case>, NoMemory>
    ensures { IfOk result (Says (IsCase names.now heads.now number cells.now)) }
{
    if !has_width(heads, cells.len()) {
        return Ok(None);
    }
    let (conditions, conclusions) = cells.split_at(heads.conditions.len());
    match tests_of(alloc, names, conditions)? {
        None => Ok(None),
        Some(tests) => match values_of(alloc, names, conclusions)? {
            None => Ok(None),
            Some(values) => Ok(Some(Case {
                number,
                tests,
                values,
            })),
        },
    }
}

/// What a record says as a case.
fn case_in(
    alloc: Global,
    names: &Names,
    heads: &Heads,
    number: u32,
    row: &ByteRecord,
) -> Result<Option<Case>, NoMemory>
    ensures { IfOk result (Says (IsCase names.now heads.now number (fields_of row.now))) }
{
    let cells = cells_of(alloc, row)?;
    case_of(alloc, names, heads, number, cells.as_slice())
}

fn last_of(
    alloc: Global,
    names: &Names,
    heads: &Heads,
    number: u32,
    cells: &[List<u8>],
) -> Result<Option<Last>, NoMemory>
    ensures { IfOk result (Says (IsLast names.now heads.now number cells.now)) }
{
    if !has_width(heads, cells.len()) {
        return Ok(None);
    }
    let (conditions, conclusions) = cells.split_at(heads.conditions.len());
    if !are_otherwise(alloc, conditions)? {
        return Ok(None);
    }
    match values_of(alloc, names, conclusions)? {
        None => Ok(None),
        Some(values) => Ok(Some(Last { number, values })),
    }
}

/// What a record says as the last one.
fn last_in(
    alloc: Global,
    names: &Names,
    heads: &Heads,
    number: u32,
    row: &ByteRecord,
) -> Result<Option<Last>, NoMemory>
    ensures { IfOk result (Says (IsLast names.now heads.now number (fields_of row.now))) }
{
    let cells = cells_of(alloc, row)?;
    last_of(alloc, names, heads, number, cells.as_slice())
}

/// What a record says as the first one.
fn heads_in(
    alloc: Global,
    model: &Model,
    names: &Names,
    row: &ByteRecord,
) -> Result<Option<Heads>, NoMemory>
    ensures { IfOk result (Says (AreHeads model.now names.now (fields_of row.now))) }
{
    let cells = cells_of(alloc, row)?;
    heads_of(alloc, model, names, cells.as_slice())
}

/// The cases of records, the first of which has number 2.
fn cases_of(
    alloc: Global,
    names: &Names,
    heads: &Heads,
    records: &[ByteRecord],
) -> Result<Cased, NoMemory>
    requires { length records.now + 2 < 2 ^ 32 }
    ensures { IfOk result (AreCased names.now heads.now (map fields_of records.now)) }
{
    let mut cases = List::new(alloc);
    let mut number = 2;
    let mut rest = records;
    while let Some((row, later)) = front(rest) {
        match case_in(alloc, names, heads, number, row)? {
            None => return Ok(Cased::Unspelled(number)),
            Some(case) => {
                cases.push(case)?;
                number += 1;
                rest = later;
            }
        }
    }
    Ok(Cased::Cases(cases))
}

/// Without conditions: one record, and no others.
fn values_alone(
    alloc: Global,
    names: &Names,
    heads: Heads,
    row: &ByteRecord,
    others: &[ByteRecord],
) -> Result<Found, NoMemory>
    ensures { IfOk result (λ f. heads.conditions ≡ [] → IsBelow names.now heads (fields_of row.now ∷ map fields_of others.now) f) }
{
    match last_in(alloc, names, &heads, 2, row)? {
        None => Ok(Found::Unspelled(2)),
        Some(last) => {
            if others.is_empty() {
                Ok(Found::Table(Table {
                    heads,
                    cases: List::new(alloc),
                    last,
                }))
            } else {
                Ok(Found::Unspelled(3))
            }
        }
    }
}

/// Cases, and what the last record says after them.
fn with_last(
    alloc: Global,
    names: &Names,
    heads: Heads,
    cases: List<Case>,
    number: u32,
    row: &ByteRecord,
) -> Result<Found, NoMemory>
    ensures { IfOk result (IsEnd names.now heads cases number (fields_of row.now)) }
{
    match last_in(alloc, names, &heads, number, row)? {
        None => Ok(Found::Unspelled(number)),
        Some(last) => Ok(Found::Table(Table { heads, cases, last })),
    }
}

/// With conditions: cases, and the last record.
fn with_cases(
    alloc: Global,
    names: &Names,
    heads: Heads,
    records: &[ByteRecord],
) -> Result<Found, NoMemory>
    requires { length records.now + 2 < 2 ^ 32 }
    ensures { IfOk result (λ f. heads.conditions ≢ [] → records.now ≢ [] → IsBelow names.now heads (map fields_of records.now) f) }
{
    match back(records) {
        None => Ok(Found::Unspelled(1)),
        Some((middle, last)) => match cases_of(alloc, names, &heads, middle)? {
            Cased::Unspelled(number) => Ok(Found::Unspelled(number)),
            Cased::Cases(cases) => {
                let number = middle.len() as u32 + 2;
                let said = with_last(alloc, names, heads, cases, number, last)?;
                Ok(said)
            }
        },
    }
}

/// What the records after the first are.
fn below(
    alloc: Global,
    names: &Names,
    heads: Heads,
    records: &[ByteRecord],
) -> Result<Found, NoMemory>
    requires { length records.now + 2 < 2 ^ 32 }
    ensures { IfOk result (λ f. records.now ≢ [] → IsBelow names.now heads (map fields_of records.now) f) }
{
    if heads.conditions.len() > 0 {
        return with_cases(alloc, names, heads, records);
    }
    match front(records) {
        None => Ok(Found::Unspelled(1)),
        Some((row, others)) => values_alone(alloc, names, heads, row, others),
    }
}

/// What the records of a table spell.
pub fn found(
    alloc: Global,
    model: &Model,
    names: &Names,
    records: &[ByteRecord],
) -> Result<Found, NoMemory>
    requires { length records.now + 2 < 2 ^ 32 }
    ensures { IfOk result (IsFound model.now names.now (map fields_of records.now)) }
{
    match front(records) {
        None => Ok(Found::Unspelled(1)),
        Some((first, others)) => {
            if others.is_empty() {
                return Ok(Found::Unspelled(1));
            }
            match heads_in(alloc, model, names, first)? {
                None => Ok(Found::Unspelled(1)),
                Some(heads) => {
                    let said = below(alloc, names, heads, others)?;
                    Ok(said)
                }
            }
        }
    }
}
