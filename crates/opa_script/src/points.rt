// A point before `=`.
ghost use Rattle.std.specs.Prelude.{◌≡◌, List, true, IfOk, IfSome, MatchOption};
ghost use Rattle.opa_words.specs.Pieces.{Piece, seen, AreOfKind};
ghost use Rattle.opa_script.specs.Shapes as meant;
ghost use Rattle.opa_script.specs.Shapes.{IsAtEquals, SpellsGiven, has_no_equals};
ghost use Rattle.opa_text.specs.declared.pointed.Point.{Point as Place};

use opa_io::NoMemory;
use opa_text::{Point, point_of};
use opa_words::{Pieces, TokenKind};
use std::alloc::Global;

fn is_equals(kind: TokenKind, text: &str) -> bool
    ensures { result ≡ meant.is_equals kind text.now }
{
    match kind {
        TokenKind::Symbol => text == "=",
        TokenKind::Word | TokenKind::Number | TokenKind::Date | TokenKind::Text => false,
    }
}

/// What stands before the first `=`, and what behind it.
fn at_equals<'t>(pieces: Pieces<'t>) -> Option<(Pieces<'t>, Pieces<'t>)>
    requires { AreOfKind pieces }
    ensures parts { MatchOption result (has_no_equals (seen pieces.entry) ≡ true) (λ x. IsAtEquals (seen x.0) (seen x.1) (seen pieces.entry)) }
    ensures before { IfSome result (λ x. AreOfKind x.0) }
    ensures behind { IfSome result (λ x. AreOfKind x.1) }
{
    let mut count = 0;
    let mut rest = pieces;
    while let Some((kind, text, later)) = rest.first() {
        if is_equals(kind, text) {
            let (front, _) = pieces.split(count);
            return Some((front, later));
        }
        count += 1;
        rest = later;
    }
    None
}

/// A point, and the tokens behind its `=`.
pub(crate) fn given<'t>(
    alloc: Global,
    pieces: Pieces<'t>,
) -> Result<Option<(Point, Pieces<'t>)>, NoMemory>
    requires { AreOfKind pieces }
    ensures given { IfOk result (λ r. MatchOption r ((p : Place) (after : List Piece) → SpellsGiven p after (seen pieces.entry) → ⊥) (λ x. SpellsGiven x.0 (seen x.1) (seen pieces.entry))) }
    ensures kinds { IfOk result (λ r. IfSome r (λ x. AreOfKind x.1)) }
{
    match at_equals(pieces) {
        None => Ok(None),
        Some((front, after)) => {
            if after.is_empty() {
                return Ok(None);
            }
            match point_of(alloc, front)? {
                None => Ok(None),
                Some(point) => Ok(Some((point, after))),
            }
        }
    }
}
