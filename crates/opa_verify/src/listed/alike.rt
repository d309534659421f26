// Whether trees are the same at two lists of enclosing instances: what they mention has the same places.
ghost use Rattle.std.specs.Prelude.{◌≡◌, ◌⊎◌, ℕ, IfOk, IsTrue, Contains};
ghost use Rattle.std.specs.Option.{option_copied};
ghost use Rattle.opa_verify.specs.Listed.Keeping.{AgreeEach, AgreeRows, Agrees, HasOnePlace};
ghost use Rattle.opa_verify.specs.Listed.Ways.{place_seen};

use crate::listed::sheet::Sheet;
use opa_case::InstanceId;
use opa_io::{List, NoMemory};
use opa_tree::{Expr, Row};
use std::alloc::Global;

/// Whether what a tree mentions, other than entities whose instances are listed within, has the same places.
#[cycle(comparing)]
pub(crate) fn is_alike<K: Sheet>(
    alloc: Global,
    sheet: &K,
    tree: &Expr,
    hidden: &[u32],
    here: &[InstanceId],
    there: &[InstanceId],
) -> Result<bool, NoMemory>
    ensures { IfOk result (λ alike. IsTrue alike → Agrees (K.shape sheet.now) (K.listing sheet.now) hidden.now here.now there.now tree.now) }
{
    match tree {
        Expr::Const(_) => Ok(true),
        Expr::Attr(attr) => Ok(has_one_place(sheet, hidden, here, there, sheet.owner(*attr))),
        Expr::All(parts) => are_alike(alloc, sheet, parts.as_slice(), hidden, here, there),
        Expr::Any(parts) => are_alike(alloc, sheet, parts.as_slice(), hidden, here, there),
        Expr::Not(part) => is_alike(alloc, sheet, part.get(), hidden, here, there),
        Expr::Certain(part) => is_alike(alloc, sheet, part.get(), hidden, here, there),
        Expr::Known(part) => is_alike(alloc, sheet, part.get(), hidden, here, there),
        Expr::Op(_, parts) => are_alike(alloc, sheet, parts.as_slice(), hidden, here, there),
        Expr::Over(_, rel, parts) => {
            if has_one_place(sheet, hidden, here, there, sheet.source(*rel)) {
                let inner = with_entity(alloc, hidden, sheet.target(*rel))?;
                are_alike(
                    alloc,
                    sheet,
                    parts.as_slice(),
                    inner.as_slice(),
                    here,
                    there,
                )
            } else {
                Ok(false)
            }
        }
        Expr::Window(_, parts) => are_alike(alloc, sheet, parts.as_slice(), hidden, here, there),
        Expr::Rolling(_, _, part) => is_alike(alloc, sheet, part.get(), hidden, here, there),
        Expr::Table(rows, last) => {
            if rows_alike(alloc, sheet, rows.as_slice(), hidden, here, there)? {
                is_alike(alloc, sheet, last.get(), hidden, here, there)
            } else {
                Ok(false)
            }
        }
    }
}

#[cycle(comparing)]
fn are_alike<K: Sheet>(
    alloc: Global,
    sheet: &K,
    trees: &[Expr],
    hidden: &[u32],
    here: &[InstanceId],
    there: &[InstanceId],
) -> Result<bool, NoMemory>
    ensures { IfOk result (λ alike. IsTrue alike → AgreeEach (K.shape sheet.now) (K.listing sheet.now) hidden.now here.now there.now trees.now) }
{
    for tree in trees {
        if !is_alike(alloc, sheet, tree, hidden, here, there)? {
            return Ok(false);
        }
    }
    Ok(true)
}

#[cycle(comparing)]
fn rows_alike<K: Sheet>(
    alloc: Global,
    sheet: &K,
    rows: &[Row],
    hidden: &[u32],
    here: &[InstanceId],
    there: &[InstanceId],
) -> Result<bool, NoMemory>
    ensures { IfOk result (λ alike. IsTrue alike → AgreeRows (K.shape sheet.now) (K.listing sheet.now) hidden.now here.now there.now rows.now) }
{
    for row in rows {
        if !is_alike(alloc, sheet, &row.cond, hidden, here, there)? {
            return Ok(false);
        }
        if !is_alike(alloc, sheet, &row.value, hidden, here, there)? {
            return Ok(false);
        }
    }
    Ok(true)
}

fn has_one_place<K: Sheet>(
    sheet: &K,
    hidden: &[u32],
    here: &[InstanceId],
    there: &[InstanceId],
    entity: u32,
) -> bool
    ensures { IsTrue result → HasOnePlace (K.listing sheet.now) hidden.now here.now there.now entity }
{
    hidden.contains(&entity) || is_one_place(sheet, here, there, entity)
}

fn is_one_place<K: Sheet>(sheet: &K, here: &[InstanceId], there: &[InstanceId], entity: u32) -> bool
    ensures { IsTrue result → place_seen (K.listing sheet.now).container here.now entity ≡ place_seen (K.listing sheet.now).container there.now entity }
{
    match (sheet.place(here, entity), sheet.place(there, entity)) {
        (None, None) => true,
        (Some(one), Some(other)) => is_one(one, other),
        _ => false,
    }
}

fn is_one(one: Option<&InstanceId>, other: Option<&InstanceId>) -> bool
    ensures { IsTrue result → option_copied one.entry ≡ option_copied other.entry }
{
    match one {
        None => match other {
            None => true,
            Some(_) => false,
        },
        Some(one) => match other {
            None => false,
            Some(other) => one.equals(other),
        },
    }
}

/// Entities, and one more.
fn with_entity(alloc: Global, hidden: &[u32], entity: u32) -> Result<List<u32>, NoMemory>
    ensures { IfOk result (λ inner. (o : ℕ) → Contains inner o → Contains hidden.now o ⊎ (entity ≡ o)) }
{
    let mut inner = List::new(alloc);
    for other in hidden {
        inner.push(*other)?;
    }
    inner.push(entity)?;
    Ok(inner)
}
