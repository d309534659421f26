// Whether a rule has a quantifier in the operand of another.
use opa_model::AttrId;
use opa_tree::{Expr, Row, Rulebase};

pub(crate) fn is_nested(base: &Rulebase, attr: AttrId) -> bool {
    match base.rules.of(attr) {
        None => false,
        Some(rule) => tree_is_nested(&rule.expr, false),
    }
}

/// Whether there is one in a tree, or any where the tree is itself in an operand.
#[cycle(nesting)]
fn tree_is_nested(tree: &Expr, within: bool) -> bool {
    match tree {
        Expr::Const(_) | Expr::Attr(_) => false,
        Expr::Over(_, _, parts) => within || any_is_nested(parts.as_slice(), true),
        Expr::All(parts) | Expr::Any(parts) | Expr::Op(_, parts) | Expr::Window(_, parts) => {
            any_is_nested(parts.as_slice(), within)
        }
        Expr::Not(part) | Expr::Certain(part) | Expr::Known(part) | Expr::Rolling(_, _, part) => {
            tree_is_nested(part.get(), within)
        }
        Expr::Table(rows, last) => {
            rows_are_nested(rows.as_slice(), within) || tree_is_nested(last.get(), within)
        }
    }
}

#[cycle(nesting)]
fn any_is_nested(trees: &[Expr], within: bool) -> bool {
    for tree in trees {
        if tree_is_nested(tree, within) {
            return true;
        }
    }
    false
}

#[cycle(nesting)]
fn rows_are_nested(rows: &[Row], within: bool) -> bool {
    for row in rows {
        if tree_is_nested(&row.cond, within) || tree_is_nested(&row.value, within) {
            return true;
        }
    }
    false
}
