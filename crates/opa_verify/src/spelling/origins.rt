// Where the value of a printed line comes from.
ghost use Rattle.std.specs.Prelude.{◌≡◌, ◌++◌, ℕ, List as Seq, IfOk, codes};
ghost use Rattle.opa_verify.specs.Spelling.Printed.{origin_text as origin_text_of};
ghost use Rattle.opa_verify.specs.Spelling.Spelling.{IsOrigin, Reads};
ghost use Rattle.opa_verify.specs.declared.spelling.printed.Origin.{Origin};
ghost use Rattle.opa_verify.specs.declared.spelling.printed.Origin.TheVariants as origins;

use crate::spelling::clean::can_be_quoted;
use crate::spelling::cuts::past;
use crate::spelling::printed::Origin;
use crate::spelling::texts::origin_text;
use crate::spelling::values::is_same;
use opa_io::{NoMemory, Txt};
use std::alloc::Global;
use std::str;

/// The origin that a text may be: its line stands behind the last colon.
pub(crate) fn origin_in(alloc: Global, text: &str) -> Result<Option<Origin>, NoMemory>
    ensures { IfOk result (Reads IsOrigin origin_text_of text.now) }
{
    if is_same(text, "answer") {
        return Ok(Some(Origin::Answer));
    }
    if is_same(text, "unanswered") {
        return Ok(Some(Origin::Unanswered));
    }
    match past("rule ", text.as_bytes()) {
        None => Ok(None),
        Some(place) => rule_in(alloc, text, place),
    }
}

fn rule_in(alloc: Global, text: &str, place: &[u8]) -> Result<Option<Origin>, NoMemory>
    requires { text.now ≡ codes "rule " ++ place.now }
    ensures { IfOk result (Reads IsOrigin origin_text_of text.now) }
{
    match str::from_utf8(place) {
        Err(_) => Ok(None),
        Ok(place) => place_in(alloc, text, place),
    }
}

fn place_in(alloc: Global, text: &str, place: &str) -> Result<Option<Origin>, NoMemory>
    requires { text.now ≡ codes "rule " ++ place.now }
    ensures { IfOk result (Reads IsOrigin origin_text_of text.now) }
{
    match place.rsplit_once(':') {
        None => Ok(None),
        Some((file, digits)) => match digits.parse::<u32>() {
            Err(_) => Ok(None),
            Ok(line) => place_as(alloc, text, file, line),
        },
    }
}

/// The only origin that may have this text, if it has it.
fn place_as(alloc: Global, text: &str, file: &str, line: u32) -> Result<Option<Origin>, NoMemory>
    requires { (o : Origin) → IsOrigin o → origin_text_of o ≡ text.now → o ≡ origins.Rule file.now line }
    ensures { IfOk result (Reads IsOrigin origin_text_of text.now) }
{
    if !can_be_quoted(file) {
        return Ok(None);
    }
    let file = Txt::from_str(alloc, file)?;
    let origin = Origin::Rule { file, line };
    let printed = origin_text(alloc, &origin)?;
    if !is_same(printed.as_str(), text) {
        return Ok(None);
    }
    Ok(Some(origin))
}
