// What a point line tells behind its days: a value and its origin.
ghost use Rattle.std.specs.Prelude.{◌≡◌, ◌∷◌, ◌++◌, IfOk, codes, false, true};
ghost use Rattle.opa_text.specs.Laws.{CanBeWritten};
ghost use Rattle.opa_text.specs.Texts.{value_text};
ghost use Rattle.opa_verify.specs.Spelling.Cuts.{calm};
ghost use Rattle.opa_verify.specs.Spelling.Printed.{origin_text};
ghost use Rattle.opa_verify.specs.Spelling.Reading.{IsShown, IsTold, shown_text, told_of};
ghost use Rattle.opa_verify.specs.Spelling.Spelling.{IsOrigin, Reads};

use crate::spelling::cuts::{cut, past};
use crate::spelling::origins::origin_in;
use crate::spelling::printed::Origin;
use crate::spelling::values::value_in;
use opa_io::NoMemory;
use opa_model::Kind;
use opa_value::Value;
use std::alloc::Global;
use std::str;

/// A value, with a kind as whose it is printed, and its origin.
#[derive(Drop)]
pub(crate) struct Told {
    pub kind: Kind,
    pub value: Value,
    pub origin: Origin,
}

/// What a text may tell.
pub(crate) fn told_in(alloc: Global, text: &[u8]) -> Result<Option<Told>, NoMemory>
    ensures { IfOk result (Reads IsTold told_of text.now) }
{
    match cut(text) {
        None => Ok(None),
        Some((shown, mark, rest)) => {
            if mark != 44 {
                return Ok(None);
            }
            let found = told_at(alloc, shown, rest)?;
            Ok(found)
        }
    }
}

fn told_at(alloc: Global, shown: &[u8], rest: &[u8]) -> Result<Option<Told>, NoMemory>
    requires { calm false shown.now ≡ true }
    ensures { IfOk result (Reads IsTold told_of (shown.now ++ 44 ∷ rest.now)) }
{
    match past(" ", rest) {
        None => Ok(None),
        Some(from) => {
            let found = told_by(alloc, shown, from)?;
            Ok(found)
        }
    }
}

fn told_by(alloc: Global, shown: &[u8], from: &[u8]) -> Result<Option<Told>, NoMemory>
    requires { calm false shown.now ≡ true }
    ensures { IfOk result (Reads IsTold told_of (shown.now ++ (codes ", " ++ from.now))) }
{
    match shown_in(alloc, shown)? {
        None => Ok(None),
        Some((kind, value)) => {
            let found = with_origin(alloc, kind, value, from)?;
            Ok(found)
        }
    }
}

fn with_origin(
    alloc: Global,
    kind: Kind,
    value: Value,
    from: &[u8],
) -> Result<Option<Told>, NoMemory>
    requires { CanBeWritten kind value }
    ensures { IfOk result (Reads IsTold told_of (value_text kind value ++ (codes ", " ++ from.now))) }
{
    match source_in(alloc, from)? {
        None => Ok(None),
        Some(origin) => Ok(Some(Told {
            kind,
            value,
            origin,
        })),
    }
}

fn shown_in(alloc: Global, text: &[u8]) -> Result<Option<(Kind, Value)>, NoMemory>
    ensures { IfOk result (Reads IsShown shown_text text.now) }
{
    match str::from_utf8(text) {
        Err(_) => Ok(None),
        Ok(text) => value_in(alloc, text),
    }
}

fn source_in(alloc: Global, text: &[u8]) -> Result<Option<Origin>, NoMemory>
    ensures { IfOk result (Reads IsOrigin origin_text text.now) }
{
    match str::from_utf8(text) {
        Err(_) => Ok(None),
        Ok(text) => origin_in(alloc, text),
    }
}
