// From a tree to its nodes.
ghost use Rattle.std.specs.Prelude.{◌≡◌, ◌++◌, ◌∷◌, ◌<◌, [], List as Seq, flat_map, length, map, reverse, drop, OnOk};
ghost use Rattle.std.specs.Prelude.{replicate, IfOk};
ghost use Rattle.opa_case.specs.Shapes.{shape_of};
ghost use Rattle.opa_code.specs.Codes.{code, row_code, chosen_rows, deciding, leaving};
ghost use Rattle.opa_code.specs.declared.node.Decider.TheVariants as deciders;
ghost use Rattle.opa_code.specs.declared.node.Node.{Node as ANode};
ghost use Rattle.opa_code.specs.declared.node.Node.TheVariants as nodes_of;

use crate::constant::Constant;
use crate::node::{Decider, Node};
use opa_io::{List, NoMemory};
use opa_mean::{owner_of, source_of, target_of};
use opa_model::Model;
use opa_tree::{Expr, Row};
use std::alloc::Global;

/// The nodes of a tree.
pub(crate) fn nodes_in(alloc: Global, model: &Model, tree: &Expr) -> Result<List<Node>, NoMemory>
    ensures { IfOk result (λ nodes. nodes ≡ code (shape_of model.now) tree.now) }
{
    let mut nodes = List::new(alloc);
    gather(alloc, model, &mut nodes, tree)?;
    Ok(turned(nodes))
}

/// The nodes from the last to the first.
fn turned(nodes: List<Node>) -> List<Node>
    ensures { result ≡ reverse nodes }
{
    let mut items = nodes.into_vec();
    items.reverse();
    List::from_vec(items)
}

/// Adds the nodes of a tree, the last one first, so that those that may be passed over are there when they are counted.
#[cycle(walk)]
#[tactic(auto, using(crate::proofs::CodeLaws::code_laws))]
fn gather(alloc: Global, model: &Model, nodes: &mut List<Node>, tree: &Expr) -> Result<(), NoMemory>
    ensures { OnOk result (reverse nodes.new ≡ code (shape_of model.now) tree.now ++ reverse nodes.old) }
{
    match tree {
        Expr::Const(value) => {
            let value = Constant::of(alloc, value.copy(alloc)?)?;
            nodes.push(Node::Const(value))
        }
        Expr::Attr(attr) => nodes.push(Node::Attr(*attr, owner_of(model, *attr))),
        Expr::All(parts) => {
            let behind = nodes.len();
            nodes.push(Node::All(parts.len()))?;
            let parts = parts.as_slice();
            gather_leaving(alloc, model, nodes, Decider::AtFalse, behind, parts)
        }
        Expr::Any(parts) => {
            let behind = nodes.len();
            nodes.push(Node::Any(parts.len()))?;
            let parts = parts.as_slice();
            gather_leaving(alloc, model, nodes, Decider::AtTrue, behind, parts)
        }
        Expr::Not(part) => {
            nodes.push(Node::Not)?;
            gather(alloc, model, nodes, part.get())
        }
        Expr::Op(kind, parts) => {
            nodes.push(Node::Op(*kind, parts.len()))?;
            gather_all(alloc, model, nodes, parts.as_slice())
        }
        Expr::Certain(part) => {
            nodes.push(Node::Certain)?;
            gather(alloc, model, nodes, part.get())
        }
        Expr::Known(part) => {
            nodes.push(Node::Known)?;
            gather(alloc, model, nodes, part.get())
        }
        Expr::Over(quant, rel, parts) => {
            let source = source_of(model, *rel);
            let target = target_of(model, *rel);
            let behind = nodes.len();
            gather_all(alloc, model, nodes, parts.as_slice())?;
            let count = nodes.len().saturating_sub(behind);
            nodes.push(Node::Over(*quant, *rel, source, target, count))
        }
        Expr::Window(kind, parts) => {
            nodes.push(Node::Window(*kind, parts.len()))?;
            gather_all(alloc, model, nodes, parts.as_slice())
        }
        Expr::Rolling(always, days, part) => {
            nodes.push(Node::Rolling(*always, *days))?;
            gather(alloc, model, nodes, part.get())
        }
        Expr::Table(rows, last) => {
            let behind = nodes.len();
            add_choices(nodes, rows.len())?;
            gather(alloc, model, nodes, last.get())?;
            gather_rows(alloc, model, nodes, behind, rows.as_slice())
        }
    }
}

/// Adds the nodes of several trees.
#[cycle(walk)]
fn gather_all(
    alloc: Global,
    model: &Model,
    nodes: &mut List<Node>,
    trees: &[Expr],
) -> Result<(), NoMemory>
    ensures { OnOk result (reverse nodes.new ≡ flat_map (code (shape_of model.now)) trees.now ++ reverse nodes.old) }
{
    let mut left = trees.len();
    while left > 0 {
        left -= 1;
        gather(alloc, model, nodes, &trees[left])?;
    }
    Ok(())
}

/// Adds the nodes of operands that may decide, where so many nodes stand behind the one that takes them.
#[cycle(walk)]
fn gather_leaving(
    alloc: Global,
    model: &Model,
    nodes: &mut List<Node>,
    how: Decider,
    behind: usize,
    trees: &[Expr],
) -> Result<(), NoMemory>
    ensures { OnOk result ((node : ANode) (below : Seq ANode) → length below ≡ behind → reverse nodes.old ≡ node ∷ below
        → reverse nodes.new ≡ leaving how 0 (map (code (shape_of model.now)) trees.now) (node ∷ []) ++ below) }
{
    let mut left = trees.len();
    while left > 0 {
        left -= 1;
        let count = nodes.len().saturating_sub(behind);
        nodes.push(Node::Leave(how, left, count))?;
        gather(alloc, model, nodes, &trees[left])?;
    }
    Ok(())
}

/// Adds the nodes of rows, where so many nodes stand behind the table.
#[cycle(walk)]
fn gather_rows(
    alloc: Global,
    model: &Model,
    nodes: &mut List<Node>,
    behind: usize,
    rows: &[Row],
) -> Result<(), NoMemory>
    ensures { OnOk result ((last below : Seq ANode) → length below ≡ behind
        → reverse nodes.old ≡ last ++ (replicate (length rows.now) nodes_of.Choose ++ below)
        → reverse nodes.new ≡ chosen_rows (map (row_code (shape_of model.now)) rows.now) last ++ below) }
{
    let mut left = rows.len();
    while left > 0 {
        left -= 1;
        let count = nodes.len().saturating_sub(behind).saturating_sub(left);
        gather_row(alloc, model, nodes, count, &rows[left])?;
    }
    Ok(())
}

/// Adds the nodes of a row that makes so many nodes behind it needless.
#[cycle(walk)]
fn gather_row(
    alloc: Global,
    model: &Model,
    nodes: &mut List<Node>,
    needless: usize,
    row: &Row,
) -> Result<(), NoMemory>
    ensures { OnOk result (reverse nodes.new ≡ row_code (shape_of model.now) row.now
        ++ (nodes_of.Leave deciders.Chosen 1 needless ∷ reverse nodes.old)) }
{
    let behind = nodes.len();
    nodes.push(Node::Leave(Decider::Chosen, 1, needless))?;
    gather(alloc, model, nodes, &row.value)?;
    let count = nodes.len().saturating_sub(behind);
    nodes.push(Node::Pass(count))?;
    gather(alloc, model, nodes, &row.cond)
}

/// Adds a choice for each of so many rows.
fn add_choices(nodes: &mut List<Node>, rows: usize) -> Result<(), NoMemory>
    ensures { OnOk result (reverse nodes.new ≡ replicate rows nodes_of.Choose ++ reverse nodes.old) }
{
    let mut row = 0;
    while row < rows {
        nodes.push(Node::Choose)?;
        row += 1;
    }
    Ok(())
}
