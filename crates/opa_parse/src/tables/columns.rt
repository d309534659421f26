// What the columns of a table conclude.
ghost use Rattle.std.specs.Prelude.{◌≡◌, ◌++◌, ◌∷◌, IfOk, List as Seq};
ghost use Rattle.opa_parse.specs.declared.tables.cells.Case.{Case as CaseView};
ghost use Rattle.opa_sentence.specs.Measures.{bounded};
ghost use Rattle.opa_sentence.specs.Readings.{lines as lines_of};
ghost use Rattle.opa_parse.specs.Tables.Columns.{compared as compared_of, comparisons as comparisons_of, all_of as all_of_parts, marks_of as marks_of_test, test_marks as test_marks_of, condition as condition_of, head_marks as head_marks_of, value_at as value_at_place, no_cases_below, with_cases as with_cases_of, column as column_of};

use crate::tables::copies::again;
use crate::tables::{Case, Table, Test};
use crate::{Cases, Mark, Said, and_then, line_marks};
use opa_io::{List, NoMemory, front};
use opa_sentence::{Parts, Reading};
use opa_value::Value;
use std::alloc::Global;

/// Comparisons, and what a cell asks for besides.
#[tactic(auto, using(crate::proofs::tables::ColumnLaws::nothing_more))]
fn with_test(
    alloc: Global,
    before: List<Reading>,
    head: &Reading,
    test: &Test,
) -> Result<List<Reading>, NoMemory>
    ensures { IfOk result (λ all. all ≡ before ++ compared_of head.now test.now) }
{
    match test {
        Test::Nothing => Ok(before),
        Test::Compares(kind, literal) => {
            let mut all = before;
            let left = again(alloc, head)?;
            let right = again(alloc, literal)?;
            all.push(Reading::between(alloc, *kind, left, right)?)?;
            Ok(all)
        }
    }
}

/// The comparisons that a record asks for.
fn comparisons(alloc: Global, heads: &[Reading], tests: &[Test]) -> Result<List<Reading>, NoMemory>
    ensures { IfOk result (λ all. all ≡ comparisons_of heads.now tests.now) }
{
    let mut all = List::new(alloc);
    let mut left = heads;
    let mut rest = tests;
    while let Some((test, later)) = front(rest) {
        match front(left) {
            None => return Ok(all),
            Some((head, others)) => {
                all = with_test(alloc, all, head, test)?;
                left = others;
                rest = later;
            }
        }
    }
    Ok(all)
}

fn gathered(alloc: Global, parts: List<Reading>) -> Result<Parts, NoMemory>
    ensures { IfOk result (λ p. p ≡ lines_of bounded parts) }
{
    let mut all = Parts::none(alloc);
    for part in parts.into_vec() {
        all = all.with(part)?;
    }
    Ok(all)
}

/// True for no parts, the one part, or all of several.
fn all_of(alloc: Global, parts: List<Reading>) -> Result<Reading, NoMemory>
    ensures { IfOk result (λ r. r ≡ all_of_parts parts) }
{
    let mut parts = parts;
    match parts.pop() {
        None => Ok(Reading::literal(Value::Bool(true))),
        Some(last) => {
            if parts.len() == 0 {
                Ok(last)
            } else {
                parts.push(last)?;
                Ok(gathered(alloc, parts)?.all())
            }
        }
    }
}

fn marks_of(alloc: Global, number: u32, test: &Test) -> Result<List<Mark>, NoMemory>
    ensures { IfOk result (λ marks. marks ≡ marks_of_test number test.now) }
{
    match test {
        Test::Nothing => Ok(List::new(alloc)),
        Test::Compares(_, literal) => line_marks(alloc, number, literal.measure),
    }
}

fn test_marks(alloc: Global, number: u32, tests: &[Test]) -> Result<List<Mark>, NoMemory>
    ensures { IfOk result (λ marks. marks ≡ test_marks_of number tests.now) }
{
    let mut marks = List::new(alloc);
    let mut rest = tests;
    while let Some((test, later)) = front(rest) {
        marks = and_then(marks, marks_of(alloc, number, test)?)?;
        rest = later;
    }
    Ok(marks)
}

/// The condition of a record.
fn condition(alloc: Global, heads: &[Reading], case: &Case) -> Result<Said, NoMemory>
    ensures { IfOk result (λ s. s ≡ condition_of heads.now case.now) }
{
    let tests = case.tests.as_slice();
    let parts = comparisons(alloc, heads, tests)?;
    Ok(Said {
        reading: all_of(alloc, parts)?,
        marks: test_marks(alloc, case.number, tests)?,
    })
}

fn head_marks(alloc: Global, heads: &[Reading]) -> Result<List<Mark>, NoMemory>
    ensures { IfOk result (λ marks. marks ≡ head_marks_of heads.now) }
{
    let mut marks = List::new(alloc);
    let mut rest = heads;
    while let Some((head, later)) = front(rest) {
        marks = and_then(marks, line_marks(alloc, 1, head.measure)?)?;
        rest = later;
    }
    Ok(marks)
}

/// The value in this place.
fn value_at(alloc: Global, place: usize, number: u32, values: &[Reading]) -> Result<Said, NoMemory>
    ensures { IfOk result (λ s. s ≡ value_at_place place number values.now) }
{
    match values.get(place) {
        None => Said::of_line(alloc, number, Reading::unnamed()),
        Some(value) => {
            let value = again(alloc, value)?;
            Said::of_line(alloc, number, value)
        }
    }
}

fn no_cases(alloc: Global, heads: &[Reading]) -> Result<Cases, NoMemory>
    ensures { IfOk result (λ cs. cs ≡ no_cases_below heads.now) }
{
    let mut cases = Cases::none(alloc);
    cases.marks = head_marks(alloc, heads)?;
    Ok(cases)
}

/// One more record.
fn with_case(
    alloc: Global,
    heads: &[Reading],
    place: usize,
    before: Cases,
    case: &Case,
) -> Result<Cases, NoMemory>
    ensures { IfOk result (λ cs. (rest : Seq CaseView) → with_cases_of heads.now place cs rest ≡ with_cases_of heads.now place before (case.now ∷ rest)) }
{
    let value = value_at(alloc, place, case.number, case.values.as_slice())?;
    before.with(value, condition(alloc, heads, case)?)
}

fn with_cases(
    alloc: Global,
    heads: &[Reading],
    place: usize,
    before: Cases,
    cases: &[Case],
) -> Result<Cases, NoMemory>
    ensures { IfOk result (λ cs. cs ≡ with_cases_of heads.now place before cases.now) }
{
    let mut all = before;
    let mut rest = cases;
    while let Some((case, later)) = front(rest) {
        all = with_case(alloc, heads, place, all, case)?;
        rest = later;
    }
    Ok(all)
}

/// What is concluded in the column of this place.
pub fn column(alloc: Global, table: &Table, place: usize) -> Result<Said, NoMemory>
    ensures { IfOk result (λ s. s ≡ column_of table.now place) }
{
    let heads = table.heads.conditions.as_slice();
    let last = value_at(
        alloc,
        place,
        table.last.number,
        table.last.values.as_slice(),
    )?;
    if heads.is_empty() {
        return Ok(last);
    }
    let none = no_cases(alloc, heads)?;
    let cases = with_cases(alloc, heads, place, none, table.cases.as_slice())?;
    let said = cases.table(alloc, last)?;
    Ok(said)
}
