// Whether trees look at the same among two lists of enclosing instances: where each entity that they mention has one place
// in both. The instances that a quantifier lists are the same.
ghost use Rattle.std.specs.Prelude.{◌≡◌, ◌⊎◌, ◌++◌, ◌∷◌, [], IfOk, IsTrue};
ghost use Rattle.std.specs.List.{Contains};
ghost use Rattle.std.specs.Option.{option_copied};
ghost use Rattle.opa_case.specs.Shapes.{shape_of};
ghost use Rattle.opa_mean.specs.Gathering.{AreAlike, over_reads};
ghost use Rattle.opa_mean.specs.Places.{place};
ghost use Rattle.opa_mean.specs.Reads.{reads as reads_at, trees_reads, row_reads, rows_reads};

use crate::declared::{owner_of, source_of, target_of};
use crate::look::Look;
use crate::places::place_in;
use opa_case::InstanceId;
use opa_io::{List, NoMemory};
use opa_model::{Model, RelId};
use opa_tree::{Expr, Row};
use std::alloc::Global;

/// Whether a tree looks at the same, where besides these entities have one place each.
#[cycle(comparing)]
#[tactic(auto, using(crate::proofs::ReadLaws::read_laws))]
fn is_alike<K: Look>(
    alloc: Global,
    model: &Model,
    look: &K,
    tree: &Expr,
    first: &[InstanceId],
    second: &[InstanceId],
    bound: &[u32],
) -> Result<bool, NoMemory>
    ensures { IfOk result (λ alike. IsTrue alike → AreAlike (K.looks look.now).container (reads_at (shape_of model.now) (K.looks look.now).members (K.looks look.now).container tree.now) bound.now first.now second.now) }
{
    match tree {
        Expr::Const(_) => Ok(true),
        Expr::Attr(attr) => Ok(has_one_place(look, owner_of(model, *attr), first, second, bound)),
        Expr::Over(_, rel, parts) => over_is_alike(
            alloc,
            model,
            look,
            *rel,
            parts.as_slice(),
            first,
            second,
            bound,
        ),
        Expr::All(parts) | Expr::Any(parts) | Expr::Op(_, parts) | Expr::Window(_, parts) => {
            all_are_alike(alloc, model, look, parts.as_slice(), first, second, bound)
        }
        Expr::Not(part) | Expr::Certain(part) | Expr::Known(part) | Expr::Rolling(_, _, part) => {
            is_alike(alloc, model, look, part.get(), first, second, bound)
        }
        Expr::Table(rows, last) => {
            if rows_are_alike(alloc, model, look, rows.as_slice(), first, second, bound)? {
                is_alike(alloc, model, look, last.get(), first, second, bound)
            } else {
                Ok(false)
            }
        }
    }
}

/// The same of a quantifier.
#[cycle(comparing)]
pub(crate) fn over_is_alike<K: Look>(
    alloc: Global,
    model: &Model,
    look: &K,
    rel: RelId,
    parts: &[Expr],
    first: &[InstanceId],
    second: &[InstanceId],
    bound: &[u32],
) -> Result<bool, NoMemory>
    ensures { IfOk result (λ alike. IsTrue alike → AreAlike (K.looks look.now).container (over_reads (shape_of model.now) (K.looks look.now).members (K.looks look.now).container rel parts.now) bound.now first.now second.now) }
{
    if has_one_place(look, source_of(model, rel), first, second, bound) {
        let target = target_of(model, rel);
        parts_are_alike(alloc, model, look, target, parts, first, second, bound)
    } else {
        Ok(false)
    }
}

/// The same of a quantifier's operands, for which an instance of an entity is listed. Of quantifiers in one another over
/// one list only the outermost takes memory.
#[cycle(comparing)]
fn parts_are_alike<K: Look>(
    alloc: Global,
    model: &Model,
    look: &K,
    target: u32,
    parts: &[Expr],
    first: &[InstanceId],
    second: &[InstanceId],
    bound: &[u32],
) -> Result<bool, NoMemory>
    ensures { IfOk result (λ alike. IsTrue alike → AreAlike (K.looks look.now).container (trees_reads (shape_of model.now) (K.looks look.now).members (K.looks look.now).container parts.now) (bound.now ++ target ∷ []) first.now second.now) }
{
    if bound.contains(&target) {
        return all_are_alike(alloc, model, look, parts, first, second, bound);
    }
    let inner = with_one(alloc, bound, target)?;
    let within = inner.as_slice();
    all_are_alike(alloc, model, look, parts, first, second, within)
}

/// The same of each of several trees.
#[cycle(comparing)]
fn all_are_alike<K: Look>(
    alloc: Global,
    model: &Model,
    look: &K,
    trees: &[Expr],
    first: &[InstanceId],
    second: &[InstanceId],
    bound: &[u32],
) -> Result<bool, NoMemory>
    ensures { IfOk result (λ alike. IsTrue alike → AreAlike (K.looks look.now).container (trees_reads (shape_of model.now) (K.looks look.now).members (K.looks look.now).container trees.now) bound.now first.now second.now) }
{
    for tree in trees {
        if !is_alike(alloc, model, look, tree, first, second, bound)? {
            return Ok(false);
        }
    }
    Ok(true)
}

/// The same of each of several rows.
#[cycle(comparing)]
fn rows_are_alike<K: Look>(
    alloc: Global,
    model: &Model,
    look: &K,
    rows: &[Row],
    first: &[InstanceId],
    second: &[InstanceId],
    bound: &[u32],
) -> Result<bool, NoMemory>
    ensures { IfOk result (λ alike. IsTrue alike → AreAlike (K.looks look.now).container (rows_reads (shape_of model.now) (K.looks look.now).members (K.looks look.now).container rows.now) bound.now first.now second.now) }
{
    for row in rows {
        if !row_is_alike(alloc, model, look, row, first, second, bound)? {
            return Ok(false);
        }
    }
    Ok(true)
}

#[cycle(comparing)]
fn row_is_alike<K: Look>(
    alloc: Global,
    model: &Model,
    look: &K,
    row: &Row,
    first: &[InstanceId],
    second: &[InstanceId],
    bound: &[u32],
) -> Result<bool, NoMemory>
    ensures { IfOk result (λ alike. IsTrue alike → AreAlike (K.looks look.now).container (row_reads (shape_of model.now) (K.looks look.now).members (K.looks look.now).container row.now) bound.now first.now second.now) }
{
    if is_alike(alloc, model, look, &row.cond, first, second, bound)? {
        is_alike(alloc, model, look, &row.value, first, second, bound)
    } else {
        Ok(false)
    }
}

/// Whether an entity is one of these, or has one place among both.
fn has_one_place<K: Look>(
    look: &K,
    entity: u32,
    first: &[InstanceId],
    second: &[InstanceId],
    bound: &[u32],
) -> bool
    ensures { IsTrue result → Contains bound.now entity ⊎ (place (K.looks look.now).container first.now entity ≡ place (K.looks look.now).container second.now entity) }
{
    if bound.contains(&entity) {
        return true;
    }
    let one = place_in(look, first, entity);
    let other = place_in(look, second, entity);
    are_one(one, other)
}

fn are_one(one: Option<&InstanceId>, other: Option<&InstanceId>) -> bool
    ensures { IsTrue result → option_copied one.entry ≡ option_copied other.entry }
{
    match one {
        None => other.is_none(),
        Some(one) => is_that(one, other),
    }
}

fn is_that(one: &InstanceId, other: Option<&InstanceId>) -> bool
    ensures { IsTrue result → Some one.now ≡ option_copied other.entry }
{
    match other {
        None => false,
        Some(other) => one.equals(other),
    }
}

/// These entities, and one more.
fn with_one(alloc: Global, bound: &[u32], entity: u32) -> Result<List<u32>, NoMemory>
    ensures { IfOk result (λ all. all ≡ bound.now ++ entity ∷ []) }
{
    let mut all = List::new(alloc);
    for one in bound {
        all.push(*one)?;
    }
    all.push(entity)?;
    Ok(all)
}
