// What is reached from the enclosing entities.
ghost use Rattle.std.specs.Prelude.{◌≡◌, ◌&&◌, ◌∷◌, ◌==◌, false, IfOk};
ghost use Rattle.std.specs.List.{list_all, list_any};
ghost use Rattle.std.specs.Option.{option_map_or};
ghost use Rattle.opa_model.specs.Lookups.{attribute_at};
ghost use Rattle.opa_tree.specs.Scopes.{encloses, is_reached as reached, lineage, rule_is_reached};
ghost use Rattle.opa_rulebase.specs.Checking.RowScopes.{row_reached};

use crate::checking::declared::{attribute_of, parent_of, relation_of};
use opa_io::NoMemory;
use opa_model::{AttrId, EntityId, Model};
use opa_tree::{Expr, Row, Rule};
use std::alloc::Global;

/// Whether an entity is this one or contains it, in at most so many steps up.
fn is_above(model: &Model, steps: u32, entity: EntityId, wanted: EntityId) -> bool
    ensures { result ≡ list_any (λ j. j.0 == wanted.0) (lineage model.now steps entity) }
{
    let mut at = entity;
    let mut left = steps;
    while at.0 != wanted.0 {
        if left == 0 {
            return false;
        }
        if at.0 == 0 {
            return false;
        }
        at = parent_of(model, at);
        left -= 1;
    }
    true
}

/// Whether the entity is an enclosing one, or contains one.
fn encloses(model: &Model, enclosing: &[EntityId], wanted: EntityId) -> bool
    ensures { result ≡ encloses model.now enclosing.now wanted }
{
    enclosing
        .iter()
        .any(|entity| is_above(model, entity.0, *entity, wanted))
}

fn reaches_attribute(model: &Model, attr: AttrId, enclosing: &[EntityId]) -> bool
    ensures { result ≡ option_map_or (λ x. encloses model.now enclosing.now x.entity) (attribute_at model.now attr) false }
{
    match attribute_of(model, attr) {
        Some(attribute) => encloses(model, enclosing, attribute.entity),
        None => false,
    }
}

/// The enclosing entities inside a quantifier, the innermost first.
fn inside(
    alloc: Global,
    target: EntityId,
    enclosing: &[EntityId],
) -> Result<Vec<EntityId>, NoMemory>
    ensures { IfOk result (λ inner. inner.items ≡ target ∷ enclosing.now) }
{
    let mut inner = Vec::new(alloc);
    inner.push(target)?;
    inner.extend_from_slice(enclosing)?;
    Ok(inner)
}

fn both(first: bool, second: bool) -> bool
    ensures { result ≡ (first && second) }
{
    first && second
}

/// Whether the tree of a rule reaches what it speaks of from an instance of its attribute's entity.
pub fn rule_is_reached(alloc: Global, model: &Model, rule: &Rule) -> Result<bool, NoMemory>
    ensures { IfOk result (λ is. is ≡ rule_is_reached model.now rule.now) }
{
    match attribute_of(model, rule.attr) {
        Some(attribute) => is_reached(alloc, model, &rule.expr, &[attribute.entity]),
        None => Ok(false),
    }
}

/// Whether each attribute of the tree and the source of each relation is reached from the enclosing entities, the innermost
/// first.
#[cycle(walk)]
#[tactic(auto, using(opa_tree::proofs::ScopeLaws::scope_laws))]
fn is_reached(
    alloc: Global,
    model: &Model,
    expr: &Expr,
    enclosing: &[EntityId],
) -> Result<bool, NoMemory>
    ensures { IfOk result (λ is. is ≡ reached model.now expr.now enclosing.now) }
{
    match expr {
        Expr::Const(_) => Ok(true),
        Expr::Attr(attr) => Ok(reaches_attribute(model, *attr, enclosing)),
        Expr::All(parts) => {
            let all = all_reached(alloc, model, parts.as_slice(), enclosing)?;
            Ok(all)
        }
        Expr::Any(parts) => {
            let all = all_reached(alloc, model, parts.as_slice(), enclosing)?;
            Ok(all)
        }
        Expr::Op(_, parts) => {
            let all = all_reached(alloc, model, parts.as_slice(), enclosing)?;
            Ok(all)
        }
        Expr::Window(_, parts) => {
            let all = all_reached(alloc, model, parts.as_slice(), enclosing)?;
            Ok(all)
        }
        Expr::Not(part) => is_reached(alloc, model, part.get(), enclosing),
        Expr::Certain(part) => is_reached(alloc, model, part.get(), enclosing),
        Expr::Known(part) => is_reached(alloc, model, part.get(), enclosing),
        Expr::Rolling(_, _, part) => {
            let is = is_reached(alloc, model, part.get(), enclosing)?;
            Ok(is)
        }
        Expr::Over(_, rel, parts) => match relation_of(model, *rel) {
            Some(relation) => {
                let inner = inside(alloc, relation.target, enclosing)?;
                let all = all_reached(alloc, model, parts.as_slice(), &inner)?;
                Ok(both(encloses(model, enclosing, relation.source), all))
            }
            None => Ok(false),
        },
        Expr::Table(rows, last) => {
            let all = rows_reached(alloc, model, rows.as_slice(), enclosing)?;
            let rest = is_reached(alloc, model, last.get(), enclosing)?;
            Ok(both(all, rest))
        }
    }
}

/// The same of each of several trees.
#[cycle(walk)]
fn all_reached(
    alloc: Global,
    model: &Model,
    parts: &[Expr],
    enclosing: &[EntityId],
) -> Result<bool, NoMemory>
    ensures { IfOk result (λ all. all ≡ list_all (λ e. reached model.now e enclosing.now) parts.now) }
{
    let mut all = true;
    for part in parts {
        let is = is_reached(alloc, model, part, enclosing)?;
        all = all && is;
    }
    Ok(all)
}

/// The same of each of several rows.
#[cycle(walk)]
fn rows_reached(
    alloc: Global,
    model: &Model,
    rows: &[Row],
    enclosing: &[EntityId],
) -> Result<bool, NoMemory>
    ensures { IfOk result (λ all. all ≡ list_all (λ row. row_reached model.now enclosing.now row) rows.now) }
{
    let mut all = true;
    for row in rows {
        let cond = is_reached(alloc, model, &row.cond, enclosing)?;
        let value = is_reached(alloc, model, &row.value, enclosing)?;
        all = all && (cond && value);
    }
    Ok(all)
}
