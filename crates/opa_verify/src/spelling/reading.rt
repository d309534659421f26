// A whole text, read line by line.
ghost use Rattle.std.specs.Prelude.{◌≡◌, ◌<◌, ◌∷◌, ◌++◌, [], ℕ, List as Seq, codes, IfOk, MatchOption};
ghost use Rattle.std.specs.Str.{bytes_eq};
ghost use Rattle.opa_date.specs.declared.TheConstants.{DAYS};
ghost use Rattle.opa_date.specs.Texts.{day_text};
ghost use Rattle.opa_verify.specs.Spelling.Lines.{lined, with_line};
ghost use Rattle.opa_verify.specs.Spelling.Spelling.{CanBePrinted, IsSpot, Reads};
ghost use Rattle.opa_verify.specs.Spelling.Printed as meant;
ghost use Rattle.opa_verify.specs.Spelling.Reading.{IsAsked, IsPointAt, IsReadFrom, asked_line};
ghost use Rattle.opa_verify.specs.declared.spelling.reading.Reading.TheVariants as readings;

use crate::spelling::body::line_in;
use crate::spelling::cuts::{before, past};
use crate::spelling::days::day_of;
use crate::spelling::lines::first_line;
use crate::spelling::printed::{Printed, Spelled, Spot};
use crate::spelling::spots::spot_in;
use opa_io::{List, NoMemory};
use std::alloc::Global;

/// What a text is spelled as, or the first line that breaks it, one more than its lines where it ends too early.
#[derive(Debug, Drop)]
pub enum Reading {
    Whole(Spelled),
    BrokenAt(u32),
}

/// Reads the text of a report.
pub fn read_report(alloc: Global, text: &[u8]) -> Result<Reading, NoMemory>
    ensures { IfOk result (IsReadFrom text.now) }
{
    match first_line(text) {
        None => broken_at(1),
        Some((line, rest)) => match head_in(alloc, line)? {
            None => broken_at(1),
            Some((asked, day)) => lines_of(alloc, text, asked, day, rest),
        },
    }
}

/// The point and the day of the first line.
fn head_in(alloc: Global, line: &[u8]) -> Result<Option<(Spot, u32)>, NoMemory>
    ensures { IfOk result (Reads IsAsked asked_line line.now) }
{
    match body_of("report ", line) {
        None => Ok(None),
        Some(asked) => match dated_in(asked) {
            None => Ok(None),
            Some((point, day)) => match spot_in(alloc, point)? {
                None => Ok(None),
                Some(spot) => Ok(Some((spot, day))),
            },
        },
    }
}

/// A point and the day behind it.
fn dated_in(text: &[u8]) -> Option<(&[u8], u32)>
    ensures { MatchOption result ((p : Seq ℕ) (d : ℕ) → IsPointAt p d text.now → ⊥) (λ x. IsPointAt x.0.now x.1 text.now) }
{
    if text.len() < 10 {
        return None;
    }
    let (front, date) = text.split_at(text.len() - 10);
    match day_of(date) {
        None => None,
        Some(day) => match before(" at ", front) {
            None => None,
            Some(point) => Some((point, day)),
        },
    }
}

/// The lines behind the first one.
fn lines_of(
    alloc: Global,
    text: &[u8],
    asked: Spot,
    day: u32,
    start: &[u8],
) -> Result<Reading, NoMemory>
    requires asked { IsSpot asked }
    requires day { day < DAYS }
    requires start { text.now ≡ meant.head_line asked day ++ start.now }
    requires lines { lined text.now ≡ with_line (meant.head_line asked day) (lined start.now) }
    ensures { IfOk result (IsReadFrom text.now) }
{
    let mut printed = List::new(alloc);
    let mut rest = start;
    while let Some((line, later)) = first_line(rest) {
        let number = printed.len() as u64 + 1;
        if is_text("end\n", line) {
            if !later.is_empty() {
                return broken_at(number + 2);
            }
            return Ok(Reading::Whole(Spelled {
                asked,
                day,
                printed,
            }));
        }
        match numbered_in(alloc, number, line)? {
            None => return broken_at(number + 1),
            Some(found) => {
                printed.push(found)?;
                rest = later;
            }
        }
    }
    broken_at(printed.len() as u64 + 2)
}

fn broken_at(line: u64) -> Result<Reading, NoMemory>
    ensures { IfOk result (λ r. r ≡ readings.BrokenAt line) }
{
    match u32::try_from(line) {
        Ok(line) => Ok(Reading::BrokenAt(line)),
        Err(_) => Err(NoMemory),
    }
}

fn is_text(text: &str, bytes: &[u8]) -> bool
    ensures { result ≡ bytes_eq text.now bytes.now }
{
    text.as_bytes() == bytes
}

/// The line with this number.
fn numbered_in(alloc: Global, number: u64, line: &[u8]) -> Result<Option<Printed>, NoMemory>
    ensures { IfOk result (Reads CanBePrinted (meant.numbered_line number) line.now) }
{
    let start = format!(in alloc; "{} ", number)?;
    match body_of(start.as_str(), line) {
        None => Ok(None),
        Some(body) => {
            let found = line_in(alloc, body)?;
            Ok(found)
        }
    }
}

/// What stands between these bytes and the line's end.
fn body_of<'t>(start: &str, line: &'t [u8]) -> Option<&'t [u8]>
    ensures { MatchOption result ((b : Seq ℕ) → line.now ≡ start.now ++ (b ++ 10 ∷ []) → ⊥) (λ b. line.now ≡ start.now ++ (b.now ++ 10 ∷ [])) }
{
    match past(start, line) {
        None => None,
        Some(rest) => match before("\n", rest) {
            None => None,
            Some(body) => Some(body),
        },
    }
}
