// Whether a tree is too deep to be walked over.
ghost use Rattle.std.specs.Prelude.{◌≡◌, ◌↔◌, IsTrue, nat_le, map};
ghost use Rattle.opa_tree.specs.Trees.{depth, row_depth, highest, IsShallow};

use crate::{Expr, Row};
use opa_io::front;

/// Whether the tree is at most 64 trees and rows deep. It looks no deeper than that.
pub fn is_shallow(expr: &Expr) -> bool
    ensures { IsTrue result ↔ IsShallow expr.now }
{
    is_within(expr, 64)
}

#[cycle(walk)]
#[tactic(auto, using(crate::proofs::DepthLaws::depth_laws, crate::proofs::DepthLaws::both_within, crate::proofs::DepthLaws::one_beyond))]
fn is_within(expr: &Expr, levels: u32) -> bool
    ensures { result ≡ nat_le (depth expr.now) levels }
{
    if levels == 0 {
        return false;
    }
    match expr {
        Expr::Const(_) | Expr::Attr(_) => true,
        Expr::All(parts)
        | Expr::Any(parts)
        | Expr::Op(_, parts)
        | Expr::Over(_, _, parts)
        | Expr::Window(_, parts) => all_within(parts.as_slice(), levels - 1),
        Expr::Not(part) | Expr::Certain(part) | Expr::Known(part) | Expr::Rolling(_, _, part) => {
            is_within(part.get(), levels - 1)
        }
        Expr::Table(rows, last) => {
            rows_within(rows.as_slice(), levels - 1) && is_within(last.get(), levels - 1)
        }
    }
}

#[cycle(walk)]
fn all_within(parts: &[Expr], levels: u32) -> bool
    ensures { result ≡ nat_le (highest (map depth parts.now)) levels }
{
    let mut rest = parts;
    while let Some((part, later)) = front(rest) {
        if !is_within(part, levels) {
            return false;
        }
        rest = later;
    }
    true
}

#[cycle(walk)]
fn rows_within(rows: &[Row], levels: u32) -> bool
    ensures { result ≡ nat_le (highest (map row_depth rows.now)) levels }
{
    let mut rest = rows;
    while let Some((row, later)) = front(rest) {
        if !is_row_within(row, levels) {
            return false;
        }
        rest = later;
    }
    true
}

#[cycle(walk)]
fn is_row_within(row: &Row, levels: u32) -> bool
    ensures { result ≡ nat_le (row_depth row.now) levels }
{
    if levels == 0 {
        return false;
    }
    is_within(&row.cond, levels - 1) && is_within(&row.value, levels - 1)
}
