// Whether trees hold a quantifier, of which the line takes as long as its members are many. What is found so is only for
// choosing what to keep, so it has no clause.
use opa_tree::{Expr, Row};

/// Whether a tree holds a quantifier.
#[cycle(holding)]
pub(crate) fn has_quantifier(tree: &Expr) -> bool {
    match tree {
        Expr::Const(_) => false,
        Expr::Attr(_) => false,
        Expr::All(parts) => one_has(parts.as_slice()),
        Expr::Any(parts) => one_has(parts.as_slice()),
        Expr::Not(part) => has_quantifier(part.get()),
        Expr::Certain(part) => has_quantifier(part.get()),
        Expr::Known(part) => has_quantifier(part.get()),
        Expr::Op(_, parts) => one_has(parts.as_slice()),
        Expr::Over(_, _, _) => true,
        Expr::Window(_, parts) => one_has(parts.as_slice()),
        Expr::Rolling(_, _, part) => has_quantifier(part.get()),
        Expr::Table(rows, last) => row_has(rows.as_slice()) || has_quantifier(last.get()),
    }
}

#[cycle(holding)]
fn one_has(trees: &[Expr]) -> bool {
    for tree in trees {
        if has_quantifier(tree) {
            return true;
        }
    }
    false
}

#[cycle(holding)]
fn row_has(rows: &[Row]) -> bool {
    for row in rows {
        if has_quantifier(&row.cond) || has_quantifier(&row.value) {
            return true;
        }
    }
    false
}
