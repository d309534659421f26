// Names: their text, and the names that tokens say.
ghost use Rattle.std.specs.Prelude.{◌≡◌, ◌∷◌, ◌++◌, ℕ, List as Seq, IfOk, OnOk, IfSome, MatchOption};
ghost use Rattle.std.specs.String.{string_bytes};
ghost use Rattle.std.specs.Option.{option_map};
ghost use denote.Ref.{Bor};
ghost use Rattle.opa_words.specs.Pieces.{Piece, seen, AreOfKind, text};
ghost use Rattle.opa_text.specs.Points.{names_text as names_text_of, known_names as known_names_of, more_names as more_names_of};
ghost use Rattle.opa_text.specs.Spelled.{SpellsNext, SpellsMore, SpellsNames};

use crate::reading::{is_only, name_at, next_name};
use opa_io::{List, NoMemory, Txt, front};
use opa_words::{Pieces, push_quoted};
use std::alloc::Global;

/// The text of the names of a list, which may be unknown: `unknown`, `none`, `"Anna", "Ben"`.
pub fn names_text(alloc: Global, names: Option<&List<Txt>>) -> Result<Txt, NoMemory>
    ensures { IfOk result (λ t. t ≡ names_text_of (option_map (λ (n : Bor (Seq (Seq ℕ))). n.now) names.entry)) }
{
    match names {
        None => Txt::from_str(alloc, "unknown"),
        Some(names) => known_names(alloc, names.as_slice()),
    }
}

fn known_names(alloc: Global, names: &[Txt]) -> Result<Txt, NoMemory>
    ensures { IfOk result (λ t. t ≡ known_names_of names.now) }
{
    match names {
        [] => Txt::from_str(alloc, "none"),
        [first, later @ ..] => {
            let mut out = String::new(alloc);
            push_quoted(&mut out, first.as_str())?;
            push_names(&mut out, later)?;
            Ok(Txt::from_string(out))
        }
    }
}

/// Puts names behind a text, each with a comma before it.
fn push_names(out: &mut String, names: &[Txt]) -> Result<(), NoMemory>
    ensures { OnOk result (string_bytes out.new ≡ string_bytes out.old ++ more_names_of names.now) }
{
    let mut rest = names;
    while let Some((name, later)) = front(rest) {
        out.push_str(", ")?;
        push_quoted(out, name.as_str())?;
        rest = later;
    }
    Ok(())
}

/// The names that these tokens say, all of them: `none`, or names between quotes with commas between them.
pub fn names_of(alloc: Global, pieces: Pieces<'_>) -> Result<Option<List<Txt>>, NoMemory>
    requires { AreOfKind pieces }
    ensures { IfOk result (λ r. MatchOption r ((ns : Seq (Seq ℕ)) → SpellsNames ns (seen pieces.entry) → ⊥)
        (λ ns. SpellsNames ns (seen pieces.entry))) }
{
    if is_only("none", pieces) {
        return Ok(Some(List::new(alloc)));
    }
    match first_name(alloc, pieces)? {
        None => Ok(None),
        Some((name, rest)) => with_names(alloc, name, rest),
    }
}

/// The name between quotes at the front, and what follows it.
pub fn first_name<'t>(
    alloc: Global,
    pieces: Pieces<'t>,
) -> Result<Option<(Txt, Pieces<'t>)>, NoMemory>
    requires { AreOfKind pieces }
    ensures name { IfOk result (λ r. MatchOption r
        ((n : Seq ℕ) (rest : Seq Piece) → seen pieces.entry ≡ text n ∷ rest → ⊥)
        (λ x. seen pieces.entry ≡ text x.0 ∷ seen x.1)) }
    ensures later { IfOk result (λ r. IfSome r (λ x. AreOfKind x.1)) }
{
    name_at(alloc, pieces)
}

fn later_name<'t>(alloc: Global, pieces: Pieces<'t>) -> Result<Option<(Txt, Pieces<'t>)>, NoMemory>
    requires { AreOfKind pieces }
    ensures name { IfOk result (λ r. MatchOption r ((n : Seq ℕ) (rest : Seq Piece) → SpellsNext n (seen pieces.entry) rest → ⊥) (λ x. SpellsNext x.0 (seen pieces.entry) (seen x.1))) }
    ensures later { IfOk result (λ r. IfSome r (λ x. AreOfKind x.1)) }
{
    next_name(alloc, pieces)
}

/// The names that begin with this one.
fn with_names(alloc: Global, first: Txt, start: Pieces<'_>) -> Result<Option<List<Txt>>, NoMemory>
    requires { AreOfKind start }
    ensures { IfOk result (λ r. MatchOption r ((ns : Seq (Seq ℕ)) → SpellsMore ns (seen start.entry) → ⊥) (λ v. (ns : Seq (Seq ℕ)) × (v ≡ first ∷ ns) × SpellsMore ns (seen start.entry))) }
{
    let mut names = List::new(alloc);
    names.push(first)?;
    let mut rest = start;
    while !rest.is_empty() {
        match later_name(alloc, rest)? {
            None => return Ok(None),
            Some((name, after)) => {
                names.push(name)?;
                rest = after;
            }
        }
    }
    Ok(Some(names))
}
