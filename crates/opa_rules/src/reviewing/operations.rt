// The operations of a tree.
ghost use Rattle.std.specs.Prelude.{◌≡◌, ◌++◌, ◌∷◌, [], flat_map, IfOk, OnOk};
ghost use Rattle.std.specs.List.{list_any};
ghost use Rattle.opa_rules.specs.Reviewing.Operations.{operations, row_operations, is_product as is_product_of, multiplies as multiplies_of};

use opa_io::{List, NoMemory};
use opa_tree::{Expr, OpKind, Row};
use std::alloc::Global;

fn is_product(kind: OpKind) -> bool
    ensures { result ≡ is_product_of kind }
{
    match kind {
        OpKind::Mul | OpKind::Div => true,
        _ => false,
    }
}

fn has_product(kinds: &[OpKind]) -> bool
    ensures { result ≡ list_any is_product_of kinds.now }
{
    kinds.iter().any(|kind| is_product(*kind))
}

/// Whether something is multiplied or divided in a tree.
pub(crate) fn multiplies(alloc: Global, expr: &Expr) -> Result<bool, NoMemory>
    ensures { IfOk result (λ b. b ≡ multiplies_of expr.now) }
{
    let mut kinds = List::new(alloc);
    gather(&mut kinds, expr)?;
    Ok(has_product(kinds.as_slice()))
}

/// Adds the operations of a tree.
#[cycle(walk)]
#[tactic(auto, using(crate::proofs::reviewing::OperationLaws::operations_laws))]
fn gather(kinds: &mut List<OpKind>, expr: &Expr) -> Result<(), NoMemory>
    ensures { OnOk result (kinds.new ≡ kinds.old ++ operations expr.now) }
{
    match expr {
        Expr::Const(_) => Ok(()),
        Expr::Attr(_) => Ok(()),
        Expr::All(parts) | Expr::Any(parts) | Expr::Over(_, _, parts) | Expr::Window(_, parts) =>
            gather_all(kinds, parts.as_slice()),
        Expr::Op(kind, parts) => gather_op(kinds, *kind, parts.as_slice()),
        Expr::Not(part) | Expr::Certain(part) | Expr::Known(part) | Expr::Rolling(_, _, part) => {
            gather(kinds, part.get())
        }
        Expr::Table(rows, last) => {
            gather_rows(kinds, rows.as_slice())?;
            gather(kinds, last.get())
        }
    }
}

/// Adds an operation, and those of its operands.
#[cycle(walk)]
fn gather_op(kinds: &mut List<OpKind>, kind: OpKind, parts: &[Expr]) -> Result<(), NoMemory>
    ensures { OnOk result (kinds.new ≡ kinds.old ++ kind ∷ flat_map operations parts.now) }
{
    kinds.push(kind)?;
    gather_all(kinds, parts)?;
    Ok(())
}

/// Adds those of each of several trees.
#[cycle(walk)]
fn gather_all(kinds: &mut List<OpKind>, parts: &[Expr]) -> Result<(), NoMemory>
    ensures { OnOk result (kinds.new ≡ kinds.old ++ flat_map operations parts.now) }
{
    for part in parts {
        gather(kinds, part)?;
    }
    Ok(())
}

/// Adds those of each of several rows.
#[cycle(walk)]
fn gather_rows(kinds: &mut List<OpKind>, rows: &[Row]) -> Result<(), NoMemory>
    ensures { OnOk result (kinds.new ≡ kinds.old ++ flat_map row_operations rows.now) }
{
    for row in rows {
        gather(kinds, &row.cond)?;
        gather(kinds, &row.value)?;
    }
    Ok(())
}
