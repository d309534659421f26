// The name of a case in front of a line, and behind which its replies stand.
ghost use Rattle.std.specs.Prelude.{◌≡◌, ◌++◌, ◌∷◌, [], flat_map, IfOk, OnOk, MatchOption};
ghost use Rattle.opa_talk.specs.Lines.{lines};
ghost use Rattle.opa_words.specs.Fronts.{BeginsWithText};
ghost use Rattle.opa_cases.specs.Caseload.{IsNamed, IsUnnamed, behind_name as text_behind, front_of as meant_front};
ghost use Rattle.opa_cases.specs.Naming.{IsFront, IsNoFront, IsText, IsNoText, is_short as is_short_name};

use opa_io::limits::{MOST_CASE_NAME, MOST_LINE};
use opa_io::{NoMemory, Txt};
use opa_reply::{bytes_of, text_of};
use opa_script::past_blanks;
use opa_talk::cut;
use opa_words::{front_text, quoted};
use std::alloc::Global;
use std::str;

/// The name of a case, and what follows it in a line.
#[derive(Drop)]
pub(crate) struct CaseLine<'t> {
    pub(crate) name: Txt,
    pub(crate) rest: &'t str,
}

/// Whether a name has 1 to 100 bytes.
fn is_short(name: &Txt) -> bool
    ensures { result ≡ is_short_name name.now }
{
    let count = name.as_str().len();
    1 <= count && count <= MOST_CASE_NAME
}

/// A name that stands in front of a text, if it isn't too long or empty.
fn taken<'t>(_text: &str, name: Txt, rest: &'t str) -> Option<CaseLine<'t>>
    requires begins { BeginsWithText _text.now name rest.now }
    ensures { MatchOption result (IsNoFront _text.now) (λ n. IsFront _text.now n.name n.rest.now) }
{
    if is_short(&name) {
        Some(CaseLine { name, rest })
    } else {
        None
    }
}

/// The name of a case in front of a text.
#[tactic(auto, using(crate::proofs::ReadLaws::no_text))]
fn named_in<'t>(alloc: Global, text: &'t str) -> Result<Option<CaseLine<'t>>, NoMemory>
    ensures { IfOk result (λ o. MatchOption o (IsNoFront text.now) (λ n. IsFront text.now n.name n.rest.now)) }
{
    match front_text(alloc, text) {
        Err(_) => Err(NoMemory),
        Ok(None) => Ok(None),
        Ok(Some((name, rest))) => Ok(taken(text, name, rest)),
    }
}

/// The text of a line that isn't too long, behind its blanks.
fn text_in(line: &[u8]) -> Option<&str>
    ensures { MatchOption result (IsNoText line.now) (λ t. IsText line.now t.now) }
{
    if bytes_of(line).len() > MOST_LINE {
        return None;
    }
    match str::from_utf8(past_blanks(text_of(line))) {
        Ok(text) => Some(text),
        Err(_) => None,
    }
}

/// The name of the case that a line is of, and what follows it.
#[tactic(auto, using(crate::proofs::ReadLaws::naming))]
pub(crate) fn named<'t>(alloc: Global, line: &'t [u8]) -> Result<Option<CaseLine<'t>>, NoMemory>
    ensures { IfOk result (λ o. MatchOption o (IsUnnamed line.now) (λ n. IsNamed line.now n.name n.rest.now)) }
{
    match text_in(line) {
        None => Ok(None),
        Some(text) => match named_in(alloc, text) {
            Err(_) => Err(NoMemory),
            Ok(None) => Ok(None),
            Ok(Some(found)) => Ok(Some(found)),
        },
    }
}

/// What stands before each line that is printed of a case.
fn front_of(alloc: Global, name: &Txt) -> Result<Vec<u8>, NoMemory>
    ensures { IfOk result (λ t. t.items ≡ meant_front name.now) }
{
    let quoted = quoted(alloc, name.as_str())?;
    let mut front = quoted.as_str().as_bytes().to_vec(alloc)?;
    front.push(b' ')?;
    Ok(front)
}

/// Adds a line behind a front.
fn add_line(out: &mut Vec<u8>, front: &[u8], line: &[u8]) -> Result<(), NoMemory>
    ensures { OnOk result (out.new.items ≡ out.old.items ++ (front.now ++ (line.now ++ 10 ∷ []))) }
{
    out.extend_from_slice(front)?;
    out.extend_from_slice(line)?;
    out.push(b'\n')?;
    Ok(())
}

/// Puts a front before each line of a text, which a line feed ends.
#[tactic(auto, using(crate::proofs::BehindLaws::behind_lines))]
fn add_lines(out: &mut Vec<u8>, front: &[u8], text: &[u8]) -> Result<(), NoMemory>
    ensures { OnOk result (out.new.items ≡ out.old.items ++ flat_map (λ l. front.now ++ l) (lines text.now)) }
{
    let mut rest = text;
    while let Some((line, after)) = cut(rest) {
        add_line(out, front, line)?;
        rest = after;
    }
    if !rest.is_empty() {
        out.extend_from_slice(front)?;
        out.extend_from_slice(rest)?;
    }
    Ok(())
}

/// Puts the name of a case before each line of a text.
#[tactic(auto, using(crate::proofs::BehindLaws::nothing_behind))]
pub(crate) fn behind_name(alloc: Global, name: &Txt, text: &[u8]) -> Result<Vec<u8>, NoMemory>
    ensures { IfOk result (λ t. t.items ≡ text_behind name.now text.now) }
{
    if text.is_empty() {
        return Ok(Vec::new(alloc));
    }
    let front = front_of(alloc, name)?;
    let mut out = Vec::new(alloc);
    add_lines(&mut out, &front, text)?;
    Ok(out)
}
