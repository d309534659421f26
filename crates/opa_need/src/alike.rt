// Whether trees are worth and need the same at two lists of enclosing instances: what they mention has the same places.
ghost use Rattle.std.specs.Prelude.{◌≡◌, ◌++◌, ◌∷◌, [], ℕ, IfOk, IsTrue, OnOk, List as Seq};
ghost use Rattle.opa_case.specs.Shapes.{shape_of};
ghost use Rattle.opa_mean.specs.Places as places;
ghost use Rattle.opa_need.specs.Alike.{AgreeEach, AgreeOver, AgreeRow, AgreeRows, Agrees, HasOnePlace, HasSame};

use crate::looking::target_of;
use opa_case::InstanceId;
use opa_io::{List, NoMemory};
use opa_mean::{Held, place_in};
use opa_model::{AttrId, RelId};
use opa_tree::{Expr, Row};
use std::alloc::Global;

/// Whether what a tree mentions, other than entities whose instances are listed within, has the same places.
pub(crate) fn is_alike<H: Held>(
    alloc: Global,
    held: &H,
    tree: &Expr,
    here: &[InstanceId],
    there: &[InstanceId],
) -> Result<bool, NoMemory>
    ensures { IfOk result (λ alike. IsTrue alike → Agrees (H.rules held.now) (H.held held.now) [] here.now there.now tree.now) }
{
    let mut hidden = List::new(alloc);
    let alike = tree_is_alike(held, tree, &mut hidden, here, there)?;
    Ok(alike)
}

/// The same of a part, where besides these entities are listed.
#[cycle(comparing)]
fn tree_is_alike<H: Held>(
    held: &H,
    tree: &Expr,
    hidden: &mut List<u32>,
    here: &[InstanceId],
    there: &[InstanceId],
) -> Result<bool, NoMemory>
    ensures alike { IfOk result (λ alike. IsTrue alike → Agrees (H.rules held.now) (H.held held.now) hidden.old here.now there.now tree.now) }
    ensures stay { OnOk result (hidden.new ≡ hidden.old) }
{
    match tree {
        Expr::Const(_) => Ok(true),
        Expr::Attr(attr) => Ok(has_one_place(
            held,
            hidden.as_slice(),
            here,
            there,
            owner(held, *attr),
        )),
        Expr::All(parts) => are_alike(held, parts.as_slice(), hidden, here, there),
        Expr::Any(parts) => are_alike(held, parts.as_slice(), hidden, here, there),
        Expr::Not(part) => tree_is_alike(held, part.get(), hidden, here, there),
        Expr::Certain(part) => tree_is_alike(held, part.get(), hidden, here, there),
        Expr::Known(part) => tree_is_alike(held, part.get(), hidden, here, there),
        Expr::Op(_, parts) => are_alike(held, parts.as_slice(), hidden, here, there),
        Expr::Over(_, rel, parts) => {
            over_is_alike(held, *rel, parts.as_slice(), hidden, here, there)
        }
        Expr::Window(_, parts) => are_alike(held, parts.as_slice(), hidden, here, there),
        Expr::Rolling(_, _, part) => tree_is_alike(held, part.get(), hidden, here, there),
        Expr::Table(rows, last) => {
            if rows_alike(held, rows.as_slice(), hidden, here, there)? {
                tree_is_alike(held, last.get(), hidden, here, there)
            } else {
                Ok(false)
            }
        }
    }
}

#[cycle(comparing)]
fn are_alike<H: Held>(
    held: &H,
    trees: &[Expr],
    hidden: &mut List<u32>,
    here: &[InstanceId],
    there: &[InstanceId],
) -> Result<bool, NoMemory>
    ensures alike { IfOk result (λ alike. IsTrue alike → AgreeEach (H.rules held.now) (H.held held.now) hidden.old here.now there.now trees.now) }
    ensures stay { OnOk result (hidden.new ≡ hidden.old) }
{
    for tree in trees {
        if !tree_is_alike(held, tree, hidden, here, there)? {
            return Ok(false);
        }
    }
    Ok(true)
}

/// A quantifier with these operands.
#[cycle(comparing)]
fn over_is_alike<H: Held>(
    held: &H,
    rel: RelId,
    trees: &[Expr],
    hidden: &mut List<u32>,
    here: &[InstanceId],
    there: &[InstanceId],
) -> Result<bool, NoMemory>
    ensures alike { IfOk result (λ alike. IsTrue alike → AgreeOver (H.rules held.now) (H.held held.now) hidden.old here.now there.now rel trees.now) }
    ensures stay { OnOk result (hidden.new ≡ hidden.old) }
{
    if !has_one_place(held, hidden.as_slice(), here, there, source(held, rel)) {
        return Ok(false);
    }
    hidden.push(target_of(held, rel))?;
    let alike = are_alike(held, trees, hidden, here, there)?;
    drop_last(hidden);
    Ok(alike)
}

#[cycle(comparing)]
fn rows_alike<H: Held>(
    held: &H,
    rows: &[Row],
    hidden: &mut List<u32>,
    here: &[InstanceId],
    there: &[InstanceId],
) -> Result<bool, NoMemory>
    ensures alike { IfOk result (λ alike. IsTrue alike → AgreeRows (H.rules held.now) (H.held held.now) hidden.old here.now there.now rows.now) }
    ensures stay { OnOk result (hidden.new ≡ hidden.old) }
{
    for row in rows {
        if !row_is_alike(held, row, hidden, here, there)? {
            return Ok(false);
        }
    }
    Ok(true)
}

#[cycle(comparing)]
fn row_is_alike<H: Held>(
    held: &H,
    row: &Row,
    hidden: &mut List<u32>,
    here: &[InstanceId],
    there: &[InstanceId],
) -> Result<bool, NoMemory>
    ensures alike { IfOk result (λ alike. IsTrue alike → AgreeRow (H.rules held.now) (H.held held.now) hidden.old here.now there.now row.now) }
    ensures stay { OnOk result (hidden.new ≡ hidden.old) }
{
    if tree_is_alike(held, &row.cond, hidden, here, there)? {
        tree_is_alike(held, &row.value, hidden, here, there)
    } else {
        Ok(false)
    }
}

fn drop_last(hidden: &mut List<u32>)
    ensures { (before : Seq ℕ) (last : ℕ) → hidden.old ≡ before ++ last ∷ [] → hidden.new ≡ before }
{
    hidden.pop();
}

fn has_one_place<H: Held>(
    held: &H,
    hidden: &[u32],
    here: &[InstanceId],
    there: &[InstanceId],
    entity: u32,
) -> bool
    ensures { IsTrue result → HasOnePlace (H.rules held.now) (H.held held.now) hidden.now here.now there.now entity }
{
    hidden.contains(&entity) || is_one_place(held, here, there, entity)
}

fn is_one_place<H: Held>(held: &H, here: &[InstanceId], there: &[InstanceId], entity: u32) -> bool
    ensures { IsTrue result → HasSame (H.rules held.now) (H.held held.now) here.now there.now entity }
{
    let case = held.case();
    match (place_in(case, here, entity), place_in(case, there, entity)) {
        (None, None) => true,
        (Some(one), Some(other)) => one.equals(other),
        _ => false,
    }
}

fn owner<H: Held>(held: &H, attr: AttrId) -> u32
    ensures { result ≡ places.owner_of (shape_of (H.rules held.now).model) attr }
{
    opa_mean::owner_of(&held.base().model, attr)
}

fn source<H: Held>(held: &H, rel: RelId) -> u32
    ensures { result ≡ (shape_of (H.rules held.now).model).source rel }
{
    opa_mean::source_of(&held.base().model, rel)
}
