// A printed line without its number.
ghost use Rattle.std.specs.Prelude.{◌<◌, ◌≤◌, ◌≡◌, ◌∷◌, ◌++◌, ℕ, List as Seq, codes, false, true, IfOk};
ghost use Rattle.opa_date.specs.declared.TheConstants.{DAYS};
ghost use Rattle.opa_verify.specs.Spelling.Cuts.{calm};
ghost use Rattle.opa_verify.specs.Spelling.Printed.{days_text, placed_text, printed_text, spot_text};
ghost use Rattle.opa_verify.specs.Spelling.Spelling.{CanBePrinted, IsSpot, Reads};

use crate::spelling::cuts::{cut, past};
use crate::spelling::days::days_in;
use crate::spelling::names::names_in;
use crate::spelling::printed::{Printed, Spot};
use crate::spelling::spots::{name_in, spot_in};
use crate::spelling::told::{Told, told_in};
use opa_io::NoMemory;
use std::alloc::Global;

/// The line that a text may be.
pub(crate) fn line_in(alloc: Global, text: &[u8]) -> Result<Option<Printed>, NoMemory>
    ensures { IfOk result (Reads CanBePrinted printed_text text.now) }
{
    match cut(text) {
        None => Ok(None),
        Some((front, mark, rest)) => {
            if mark == 44 {
                let found = point_in(alloc, front, rest)?;
                Ok(found)
            } else {
                let found = listed_in(alloc, front, rest)?;
                Ok(found)
            }
        }
    }
}

fn point_in(alloc: Global, front: &[u8], rest: &[u8]) -> Result<Option<Printed>, NoMemory>
    requires { calm false front.now ≡ true }
    ensures { IfOk result (Reads CanBePrinted printed_text (front.now ++ 44 ∷ rest.now)) }
{
    match spot_in(alloc, front)? {
        None => Ok(None),
        Some(spot) => {
            let found = point_of(alloc, spot, rest)?;
            Ok(found)
        }
    }
}

fn point_of(alloc: Global, spot: Spot, rest: &[u8]) -> Result<Option<Printed>, NoMemory>
    requires { IsSpot spot }
    ensures { IfOk result (Reads CanBePrinted printed_text (spot_text spot ++ 44 ∷ rest.now)) }
{
    match days_in(rest) {
        None => Ok(None),
        Some((first, last, told)) => {
            let found = told_point(alloc, spot, first, last, told)?;
            Ok(found)
        }
    }
}

fn told_point(
    alloc: Global,
    spot: Spot,
    first: u32,
    last: u32,
    text: &[u8],
) -> Result<Option<Printed>, NoMemory>
    requires spot { IsSpot spot }
    requires order { first ≤ last }
    requires last { last < DAYS }
    ensures { IfOk result (Reads CanBePrinted printed_text (placed_text spot (days_text first last) text.now)) }
{
    match told_in(alloc, text)? {
        None => Ok(None),
        Some(
            Told {
                kind,
                value,
                origin,
            },
        ) => Ok(Some(Printed::Point {
            spot,
            first,
            last,
            kind,
            value,
            origin,
        })),
    }
}

fn listed_in(alloc: Global, front: &[u8], rest: &[u8]) -> Result<Option<Printed>, NoMemory>
    requires { calm false front.now ≡ true }
    ensures { IfOk result (Reads CanBePrinted printed_text (front.now ++ 58 ∷ rest.now)) }
{
    match past(" ", rest) {
        None => Ok(None),
        Some(text) => {
            let found = listed_by(alloc, front, text)?;
            Ok(found)
        }
    }
}

fn listed_by(alloc: Global, front: &[u8], text: &[u8]) -> Result<Option<Printed>, NoMemory>
    requires { calm false front.now ≡ true }
    ensures { IfOk result (Reads CanBePrinted printed_text (front.now ++ (codes ": " ++ text.now))) }
{
    match past("list ", front) {
        None => unlisted_by(alloc, front, text),
        Some(spot) => {
            let found = members_in(alloc, front, spot, text)?;
            Ok(found)
        }
    }
}

fn unlisted_by(alloc: Global, front: &[u8], text: &[u8]) -> Result<Option<Printed>, NoMemory>
    requires calm { calm false front.now ≡ true }
    requires none { (rest : Seq ℕ) → front.now ≡ codes "list " ++ rest → ⊥ }
    ensures { IfOk result (Reads CanBePrinted printed_text (front.now ++ (codes ": " ++ text.now))) }
{
    match past("member ", front) {
        None => Ok(None),
        Some(spot) => {
            let found = member_in(alloc, front, spot, text)?;
            Ok(found)
        }
    }
}

fn members_in(
    alloc: Global,
    front: &[u8],
    spot: &[u8],
    text: &[u8],
) -> Result<Option<Printed>, NoMemory>
    requires calm { calm false front.now ≡ true }
    requires spot { front.now ≡ codes "list " ++ spot.now }
    ensures { IfOk result (Reads CanBePrinted printed_text (front.now ++ (codes ": " ++ text.now))) }
{
    match spot_in(alloc, spot)? {
        None => Ok(None),
        Some(found) => match names_in(alloc, text)? {
            None => Ok(None),
            Some(names) => Ok(Some(Printed::Members { spot: found, names })),
        },
    }
}

fn member_in(
    alloc: Global,
    front: &[u8],
    spot: &[u8],
    text: &[u8],
) -> Result<Option<Printed>, NoMemory>
    requires calm { calm false front.now ≡ true }
    requires spot { front.now ≡ codes "member " ++ spot.now }
    ensures { IfOk result (Reads CanBePrinted printed_text (front.now ++ (codes ": " ++ text.now))) }
{
    match spot_in(alloc, spot)? {
        None => Ok(None),
        Some(found) => match name_in(alloc, text)? {
            None => Ok(None),
            Some(name) => Ok(Some(Printed::Member { spot: found, name })),
        },
    }
}
