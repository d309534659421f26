// The comparisons of a tree whose sides are attributes and numbers.
ghost use Rattle.std.specs.Prelude.{◌≡◌, ◌++◌, ◌∷◌, [], map, flat_map, IfOk, OnOk};
ghost use Rattle.opa_rules.specs.Reviewing.Comparisons as meant;

use crate::reviewing::finding::{Comparison, Operand};
use opa_io::{List, NoMemory};
use opa_tree::{Expr, OpKind, Row};
use opa_value::Value;
use std::alloc::Global;

pub(crate) fn is_comparison(operation: OpKind) -> bool
    ensures { result ≡ meant.is_comparison operation }
{
    match operation {
        OpKind::Eq | OpKind::Ne | OpKind::Lt | OpKind::Le | OpKind::Gt | OpKind::Ge => true,
        OpKind::Add
        | OpKind::Sub
        | OpKind::Mul
        | OpKind::Div
        | OpKind::Neg
        | OpKind::Round
        | OpKind::Min
        | OpKind::Max
        | OpKind::AddDays
        | OpKind::AddMonths
        | OpKind::AddYears
        | OpKind::DaysBetween
        | OpKind::YearsBetween
        | OpKind::YearOf
        | OpKind::MonthOf
        | OpKind::DayOf
        | OpKind::Concatenate => false,
    }
}

fn literal(value: &Value) -> Option<Operand>
    ensures { result ≡ meant.literal value.now }
{
    match value {
        Value::Num(number) => Some(Operand::Number(number.count())),
        Value::Unknown | Value::Uncertain | Value::Bool(_) | Value::Words(_) | Value::Day(_) => {
            None
        }
    }
}

/// What a tree is as a side of a comparison.
#[tactic(auto, using(crate::proofs::reviewing::ComparisonLaws::side_laws))]
fn side_of(expr: &Expr) -> Option<Operand>
    ensures { result ≡ meant.side_of expr.now }
{
    match expr {
        Expr::Const(value) => literal(value),
        Expr::Attr(attr) => Some(Operand::Attr(*attr)),
        Expr::All(_)
        | Expr::Any(_)
        | Expr::Not(_)
        | Expr::Op(_, _)
        | Expr::Certain(_)
        | Expr::Known(_)
        | Expr::Over(_, _, _)
        | Expr::Window(_, _)
        | Expr::Rolling(_, _, _)
        | Expr::Table(_, _) => None,
    }
}

/// Adds the comparison of two sides, if they are sides of one.
fn push_sides(
    found: &mut List<Comparison>,
    operation: OpKind,
    left: Option<Operand>,
    right: Option<Operand>,
) -> Result<(), NoMemory>
    ensures { OnOk result (found.new ≡ found.old ++ meant.compared operation (left ∷ right ∷ [])) }
{
    match (left, right) {
        (Some(left), Some(right)) if is_comparison(operation) => found.push(Comparison {
            operation,
            left,
            right,
        }),
        _ => Ok(()),
    }
}

/// Adds an operation, if it is a comparison.
fn push_own(found: &mut List<Comparison>, operation: OpKind, parts: &[Expr]) -> Result<(), NoMemory>
    ensures { OnOk result (found.new ≡ found.old ++ meant.compared operation (map meant.side_of parts.now)) }
{
    match parts {
        [left, right] => push_sides(found, operation, side_of(left), side_of(right)),
        _ => Ok(()),
    }
}

/// The comparisons of a tree, in written order.
pub(crate) fn comparisons(alloc: Global, expr: &Expr) -> Result<List<Comparison>, NoMemory>
    ensures { IfOk result (λ found. found ≡ meant.comparisons expr.now) }
{
    let mut found = List::new(alloc);
    gather(&mut found, expr)?;
    Ok(found)
}

/// Adds the comparisons of a tree.
#[cycle(walk)]
#[tactic(auto, using(crate::proofs::reviewing::ComparisonLaws::comparison_laws))]
fn gather(found: &mut List<Comparison>, expr: &Expr) -> Result<(), NoMemory>
    ensures { OnOk result (found.new ≡ found.old ++ meant.comparisons expr.now) }
{
    match expr {
        Expr::Const(_) => Ok(()),
        Expr::Attr(_) => Ok(()),
        Expr::Op(operation, parts) => gather_operation(found, *operation, parts.as_slice()),
        Expr::All(parts) | Expr::Any(parts) | Expr::Over(_, _, parts) | Expr::Window(_, parts) => {
            gather_all(found, parts.as_slice())
        }
        Expr::Not(part) | Expr::Certain(part) | Expr::Known(part) | Expr::Rolling(_, _, part) => {
            gather(found, part.get())
        }
        Expr::Table(rows, last) => {
            gather_rows(found, rows.as_slice())?;
            gather(found, last.get())
        }
    }
}

/// Adds an operation, if it is a comparison, and the comparisons of its operands.
#[cycle(walk)]
fn gather_operation(
    found: &mut List<Comparison>,
    operation: OpKind,
    parts: &[Expr],
) -> Result<(), NoMemory>
    ensures { OnOk result (found.new ≡ found.old ++ (meant.compared operation (map meant.side_of parts.now) ++ flat_map meant.comparisons parts.now)) }
{
    push_own(found, operation, parts)?;
    gather_all(found, parts)?;
    Ok(())
}

/// Adds the comparisons of each of several trees.
#[cycle(walk)]
fn gather_all(found: &mut List<Comparison>, parts: &[Expr]) -> Result<(), NoMemory>
    ensures { OnOk result (found.new ≡ found.old ++ flat_map meant.comparisons parts.now) }
{
    for part in parts {
        gather(found, part)?;
    }
    Ok(())
}

/// Adds the comparisons of each of several rows.
#[cycle(walk)]
fn gather_rows(found: &mut List<Comparison>, rows: &[Row]) -> Result<(), NoMemory>
    ensures { OnOk result (found.new ≡ found.old ++ flat_map meant.row_comparisons rows.now) }
{
    for row in rows {
        gather(found, &row.cond)?;
        gather(found, &row.value)?;
    }
    Ok(())
}
