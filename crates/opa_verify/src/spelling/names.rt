// The names of a members line.
ghost use Rattle.std.specs.Prelude.{◌≡◌, ℕ, List as Seq, IfOk};
ghost use Rattle.std.specs.Bool.{Decides};
ghost use Rattle.std.specs.List.{AllByRecursion};
ghost use Rattle.opa_text.specs.Points.{known_names as known_names_of, names_text as names_text_of};
ghost use Rattle.opa_verify.specs.Spelling.Spelling.{AreNames, IsName, Reads};

use crate::spelling::clean::can_be_quoted;
use crate::spelling::values::is_same;
use opa_io::{List, NoMemory, Txt, front};
use opa_text::{ReadFault, names_text, read_names};
use std::alloc::Global;
use std::str;

/// The names that a text may be.
pub(crate) fn names_in(alloc: Global, text: &[u8]) -> Result<Option<Option<List<Txt>>>, NoMemory>
    ensures { IfOk result (Reads AreNames names_text_of text.now) }
{
    match str::from_utf8(text) {
        Err(_) => Ok(None),
        Ok(text) => list_in(alloc, text),
    }
}

fn list_in(alloc: Global, text: &str) -> Result<Option<Option<List<Txt>>>, NoMemory>
    ensures { IfOk result (Reads AreNames names_text_of text.now) }
{
    if is_same(text, "unknown") {
        return Ok(Some(None));
    }
    match known_in(alloc, text)? {
        None => Ok(None),
        Some(names) => Ok(Some(Some(names))),
    }
}

fn known_in(alloc: Global, text: &str) -> Result<Option<List<Txt>>, NoMemory>
    ensures { IfOk result (Reads (AllByRecursion IsName) known_names_of text.now) }
{
    if text.len() > 4_294_967_295 {
        return Err(NoMemory);
    }
    match read_names(alloc, text) {
        Err(ReadFault::NoMemory) => Err(NoMemory),
        Err(ReadFault::Value) => Ok(None),
        Ok(names) => known_as(alloc, names, text),
    }
}

/// The names that a text says, if it is their text.
fn known_as(alloc: Global, names: List<Txt>, text: &str) -> Result<Option<List<Txt>>, NoMemory>
    requires { (ns : Seq (Seq ℕ)) → AllByRecursion IsName ns → known_names_of ns ≡ text.now → ns ≡ names }
    ensures { IfOk result (Reads (AllByRecursion IsName) known_names_of text.now) }
{
    if !are_names(names.as_slice()) {
        return Ok(None);
    }
    let printed = names_text(alloc, Some(&names))?;
    if !is_same(printed.as_str(), text) {
        return Ok(None);
    }
    Ok(Some(names))
}

fn are_names(names: &[Txt]) -> bool
    ensures { Decides result (AllByRecursion IsName names.now) }
{
    let mut rest = names;
    while let Some((name, later)) = front(rest) {
        if !is_name(name.as_str()) {
            return false;
        }
        rest = later;
    }
    true
}

fn is_name(text: &str) -> bool
    ensures { Decides result (IsName text.now) }
{
    if text.len() == 0 {
        return false;
    }
    can_be_quoted(text)
}
