// How deep a tree is, and how many nodes it has.
ghost use Rattle.std.specs.Prelude.{◌≡◌, ◌+◌, min, map};
ghost use Rattle.opa_tree.specs.Trees.{depth, highest};
ghost use Rattle.opa_sentence.specs.Measures.{nodes, total};
ghost use Rattle.opa_sentence.specs.Rows.{row_nodes};
ghost use Rattle.opa_tree.specs.Trees.{row_depth};

use crate::measure::capped_to;
use opa_io::limits::{MOST_DEPTH, MOST_NODES};
use opa_tree::{Expr, Row};

/// The depth, or one more than the most.
#[cycle(deep)]
#[tactic(auto, using(crate::proofs::SizeLaws::depths))]
pub fn depth_of(expr: &Expr) -> u32
    ensures { result ≡ min (depth expr.now) (MOST_DEPTH + 1) }
{
    match expr {
        Expr::Const(_) | Expr::Attr(_) => 1,
        Expr::All(parts)
        | Expr::Any(parts)
        | Expr::Op(_, parts)
        | Expr::Over(_, _, parts)
        | Expr::Window(_, parts) => deeper(deepest_of(parts.as_slice())),
        Expr::Not(part) | Expr::Certain(part) | Expr::Known(part) | Expr::Rolling(_, _, part) => {
            deeper(depth_of(part.get()))
        }
        Expr::Table(rows, last) => deeper(deepest_row(rows.as_slice()).max(depth_of(last.get()))),
    }
}

fn deeper(depth: u32) -> u32
    ensures { result ≡ min (1 + depth) (MOST_DEPTH + 1) }
{
    capped_to(depth.saturating_add(1), MOST_DEPTH)
}

#[cycle(deep)]
fn deepest_of(parts: &[Expr]) -> u32
    ensures { result ≡ min (highest (map depth parts.now)) (MOST_DEPTH + 1) }
{
    let mut deepest = 0;
    for part in parts {
        deepest = depth_of(part).max(deepest);
    }
    deepest
}

#[cycle(deep)]
fn deepest_row(rows: &[Row]) -> u32
    ensures { result ≡ min (highest (map row_depth rows.now)) (MOST_DEPTH + 1) }
{
    let mut deepest = 0;
    for row in rows {
        deepest = deeper(depth_of(&row.cond).max(depth_of(&row.value))).max(deepest);
    }
    deepest
}

/// How many nodes, or one more than the most.
#[cycle(wide)]
#[tactic(auto, using(crate::proofs::SizeLaws::sizes))]
pub fn nodes_of(expr: &Expr) -> u32
    ensures { result ≡ min (nodes expr.now) (MOST_NODES + 1) }
{
    match expr {
        Expr::Const(_) | Expr::Attr(_) => 1,
        Expr::All(parts)
        | Expr::Any(parts)
        | Expr::Op(_, parts)
        | Expr::Over(_, _, parts)
        | Expr::Window(_, parts) => added(1, nodes_of_all(parts.as_slice())),
        Expr::Not(part) | Expr::Certain(part) | Expr::Known(part) | Expr::Rolling(_, _, part) => {
            added(1, nodes_of(part.get()))
        }
        Expr::Table(rows, last) => added(
            1,
            added(nodes_of_rows(rows.as_slice()), nodes_of(last.get())),
        ),
    }
}

fn added(some: u32, more: u32) -> u32
    ensures { result ≡ min (some + more) (MOST_NODES + 1) }
{
    capped_to(some.saturating_add(more), MOST_NODES)
}

#[cycle(wide)]
fn nodes_of_all(parts: &[Expr]) -> u32
    ensures { result ≡ min (total (map nodes parts.now)) (MOST_NODES + 1) }
{
    let mut count = 0;
    for part in parts {
        count = added(count, nodes_of(part));
    }
    count
}

#[cycle(wide)]
fn nodes_of_rows(rows: &[Row]) -> u32
    ensures { result ≡ min (total (map row_nodes rows.now)) (MOST_NODES + 1) }
{
    let mut count = 0;
    for row in rows {
        count = added(
            count,
            added(1, added(nodes_of(&row.cond), nodes_of(&row.value))),
        );
    }
    count
}
