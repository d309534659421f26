// Whether trees are the same at two lists of enclosing instances: what they mention has the same places.
ghost use Rattle.std.specs.Prelude.{◌≡◌, ◌⊎◌, ℕ, IfOk, IsTrue, Contains};
ghost use Rattle.opa_mean.specs.Places.{place};
ghost use Rattle.opa_report.specs.Keeping.{AgreeEach, AgreeRows, Agrees, HasOnePlace};

use crate::Sight;
use opa_case::InstanceId;
use opa_io::{List, NoMemory};
use opa_tree::{Expr, Row};
use std::alloc::Global;

/// Whether what a tree mentions, other than entities whose instances are listed within, has the same places.
#[cycle(comparing)]
pub(crate) fn is_alike<S: Sight>(
    alloc: Global,
    sight: &S,
    tree: &Expr,
    hidden: &[u32],
    here: &[InstanceId],
    there: &[InstanceId],
) -> Result<bool, NoMemory>
    ensures { IfOk result (λ alike. IsTrue alike → Agrees (S.shape sight.now) (S.look sight.now) hidden.now here.now there.now tree.now) }
{
    match tree {
        Expr::Const(_) => Ok(true),
        Expr::Attr(attr) => Ok(has_one_place(sight, hidden, here, there, sight.owner(*attr))),
        Expr::All(parts) => are_alike(alloc, sight, parts.as_slice(), hidden, here, there),
        Expr::Any(parts) => are_alike(alloc, sight, parts.as_slice(), hidden, here, there),
        Expr::Not(part) => is_alike(alloc, sight, part.get(), hidden, here, there),
        Expr::Certain(part) => is_alike(alloc, sight, part.get(), hidden, here, there),
        Expr::Known(part) => is_alike(alloc, sight, part.get(), hidden, here, there),
        Expr::Op(_, parts) => are_alike(alloc, sight, parts.as_slice(), hidden, here, there),
        Expr::Over(_, rel, parts) => {
            if has_one_place(sight, hidden, here, there, sight.source_entity(*rel)) {
                let inner = with_entity(alloc, hidden, sight.target(*rel))?;
                are_alike(
                    alloc,
                    sight,
                    parts.as_slice(),
                    inner.as_slice(),
                    here,
                    there,
                )
            } else {
                Ok(false)
            }
        }
        Expr::Window(_, parts) => are_alike(alloc, sight, parts.as_slice(), hidden, here, there),
        Expr::Rolling(_, _, part) => is_alike(alloc, sight, part.get(), hidden, here, there),
        Expr::Table(rows, last) => {
            if rows_alike(alloc, sight, rows.as_slice(), hidden, here, there)? {
                is_alike(alloc, sight, last.get(), hidden, here, there)
            } else {
                Ok(false)
            }
        }
    }
}

#[cycle(comparing)]
fn are_alike<S: Sight>(
    alloc: Global,
    sight: &S,
    trees: &[Expr],
    hidden: &[u32],
    here: &[InstanceId],
    there: &[InstanceId],
) -> Result<bool, NoMemory>
    ensures { IfOk result (λ alike. IsTrue alike → AgreeEach (S.shape sight.now) (S.look sight.now) hidden.now here.now there.now trees.now) }
{
    for tree in trees {
        if !is_alike(alloc, sight, tree, hidden, here, there)? {
            return Ok(false);
        }
    }
    Ok(true)
}

#[cycle(comparing)]
fn rows_alike<S: Sight>(
    alloc: Global,
    sight: &S,
    rows: &[Row],
    hidden: &[u32],
    here: &[InstanceId],
    there: &[InstanceId],
) -> Result<bool, NoMemory>
    ensures { IfOk result (λ alike. IsTrue alike → AgreeRows (S.shape sight.now) (S.look sight.now) hidden.now here.now there.now rows.now) }
{
    for row in rows {
        if !is_alike(alloc, sight, &row.cond, hidden, here, there)? {
            return Ok(false);
        }
        if !is_alike(alloc, sight, &row.value, hidden, here, there)? {
            return Ok(false);
        }
    }
    Ok(true)
}

fn has_one_place<S: Sight>(
    sight: &S,
    hidden: &[u32],
    here: &[InstanceId],
    there: &[InstanceId],
    entity: u32,
) -> bool
    ensures { IsTrue result → HasOnePlace (S.look sight.now) hidden.now here.now there.now entity }
{
    hidden.contains(&entity) || is_one_place(sight, here, there, entity)
}

fn is_one_place<S: Sight>(sight: &S, here: &[InstanceId], there: &[InstanceId], entity: u32) -> bool
    ensures { IsTrue result → place (S.look sight.now).container here.now entity ≡ place (S.look sight.now).container there.now entity }
{
    match (
        sight.entity_place(here, entity),
        sight.entity_place(there, entity),
    ) {
        (None, None) => true,
        (Some(one), Some(other)) => one.equals(other),
        _ => false,
    }
}

/// Entities, and one more.
fn with_entity(alloc: Global, hidden: &[u32], entity: u32) -> Result<List<u32>, NoMemory>
    ensures { IfOk result (λ inner. (o : ℕ) → Contains inner o → Contains hidden.now o ⊎ (entity ≡ o)) }
{
    let mut inner = List::new(alloc);
    for other in hidden {
        inner.push(*other)?;
    }
    inner.push(entity)?;
    Ok(inner)
}
