// The line that tokens say.
ghost use Rattle.std.specs.Prelude.{◌≡◌, ◌<◌, ◌∷◌, ℕ, List, length, None, IfOk, IfSome, MatchOption};
ghost use Rattle.opa_value.specs.declared.value.Value.{Value};
ghost use Rattle.opa_date.specs.declared.TheConstants.{DAYS};
ghost use Rattle.opa_line.specs.Lines.{at};
ghost use Rattle.opa_line.specs.Pairs.{fault_of};
ghost use Rattle.opa_words.specs.Pieces.{Piece, seen, AreOfKind};
ghost use Rattle.opa_text.specs.Texts.{HasDays, IsOfCalendar};
ghost use Rattle.opa_text.specs.Spelled.{SpellsDay, SpellsValue, SpellsLater, SpellsChanges, SpellsPairs, SpellsLine};

use crate::reading::{change_at, day_at, value_at};
use opa_io::NoMemory;
use opa_line::Line;
use opa_value::Value;
use opa_words::Pieces;
use std::alloc::Global;

/// The line that these tokens say, all of them: `VALUE; from DATE VALUE; ..`.
pub fn line_of(alloc: Global, pieces: Pieces<'_>) -> Result<Option<Line<Value>>, NoMemory>
    requires { AreOfKind pieces }
    ensures line { IfOk result (λ r. MatchOption r ((l : List (ℕ × Value)) → SpellsLine l (seen pieces.entry) → ⊥)
        (λ l. SpellsLine l (seen pieces.entry))) }
    ensures days { IfOk result (λ r. IfSome r HasDays) }
{
    match pairs_of(alloc, pieces)? {
        None => Ok(None),
        Some(pairs) => Ok(Some(line_from(alloc, pairs)?)),
    }
}

fn line_from(alloc: Global, pairs: Vec<(u32, Value)>) -> Result<Line<Value>, NoMemory>
    requires { fault_of pairs.items ≡ None }
    ensures { IfOk result (λ l. (d : ℕ) → d < DAYS → at l d ≡ at pairs.items d) }
{
    match Line::from_pairs(alloc, pairs) {
        Ok(line) => Ok(line),
        Err(_) => Err(NoMemory),
    }
}

/// The pairs of days and values.
fn pairs_of(alloc: Global, pieces: Pieces<'_>) -> Result<Option<Vec<(u32, Value)>>, NoMemory>
    requires { AreOfKind pieces }
    ensures { IfOk result (λ r. MatchOption r ((ps : List (ℕ × Value)) → SpellsPairs ps (seen pieces.entry) → ⊥) (λ v. SpellsPairs v.items (seen pieces.entry))) }
{
    match first_value(alloc, pieces)? {
        None => Ok(None),
        Some((value, rest)) => with_changes(alloc, value, rest),
    }
}

/// The value at the front, and what follows it.
pub fn first_value<'t>(
    alloc: Global,
    pieces: Pieces<'t>,
) -> Result<Option<(Value, Pieces<'t>)>, NoMemory>
    requires { AreOfKind pieces }
    ensures value { IfOk result (λ r. MatchOption r
        ((v : Value) (rest : List Piece) → SpellsValue v (seen pieces.entry) rest → ⊥)
        (λ x. SpellsValue x.0 (seen pieces.entry) (seen x.1))) }
    ensures days { IfOk result (λ r. IfSome r (λ x. IsOfCalendar x.0)) }
    ensures later { IfOk result (λ r. IfSome r (λ x. AreOfKind x.1)) }
{
    value_at(alloc, pieces)
}

/// The day at the front, and what follows it.
pub fn first_day<'t>(pieces: Pieces<'t>) -> Option<(u32, Pieces<'t>)>
    requires { AreOfKind pieces }
    ensures day { MatchOption result ((d : ℕ) (rest : List Piece) → SpellsDay d (seen pieces.entry) rest → ⊥)
        (λ x. SpellsDay x.0 (seen pieces.entry) (seen x.1)) }
    ensures bound { IfSome result (λ x. x.0 < DAYS) }
    ensures later { IfSome result (λ x. AreOfKind x.1) }
{
    day_at(pieces)
}

/// The pairs that begin with a value.
fn with_changes(
    alloc: Global,
    first: Value,
    start: Pieces<'_>,
) -> Result<Option<Vec<(u32, Value)>>, NoMemory>
    requires { AreOfKind start }
    ensures { IfOk result (λ r. MatchOption r ((cs : List (ℕ × Value)) → SpellsChanges 0 cs (seen start.entry) → ⊥) (λ v. (cs : List (ℕ × Value)) × (v.items ≡ (0, first) ∷ cs) × SpellsChanges 0 cs (seen start.entry))) }
{
    let mut pairs = Vec::new(alloc);
    pairs.push((0, first))?;
    let mut last = 0;
    let mut rest = start;
    while !rest.is_empty() {
        match later_change(alloc, last, rest)? {
            None => return Ok(None),
            Some((change, after)) => {
                last = change.0;
                pairs.push(change)?;
                rest = after;
            }
        }
    }
    Ok(Some(pairs))
}

/// The change at the front, if its day is later than this one.
fn later_change<'t>(
    alloc: Global,
    day: u32,
    pieces: Pieces<'t>,
) -> Result<Option<((u32, Value), Pieces<'t>)>, NoMemory>
    requires { AreOfKind pieces }
    ensures change { IfOk result (λ r. MatchOption r ((p : ℕ × Value) (rest : List Piece) → SpellsLater day p (seen pieces.entry) rest → ⊥) (λ x. SpellsLater day x.0 (seen pieces.entry) (seen x.1))) }
    ensures later { IfOk result (λ r. IfSome r (λ x. AreOfKind x.1)) }
    ensures shorter { IfOk result (λ r. IfSome r (λ x. length (seen x.1) < length (seen pieces.entry))) }
{
    match change_at(alloc, pieces)? {
        None => Ok(None),
        Some((change, rest)) => {
            if day < change.0 {
                Ok(Some((change, rest)))
            } else {
                Ok(None)
            }
        }
    }
}
