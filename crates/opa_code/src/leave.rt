// Nodes that are passed over, since what they would make is decided.
ghost use Rattle.std.specs.Prelude.{◌≡◌, ◌≤◌, ◌∷◌, ◌++◌, [], ℕ, cond, length, IfOk, IsTrue, MatchOption, List as Seq};
ghost use Rattle.opa_cells.specs.declared.instance.InstanceId.{InstanceId as Instance};
ghost use Rattle.opa_value.specs.declared.value.Value.TheVariants.{Bool as Truth};
ghost use Rattle.opa_window.specs.Days.{day_value};
ghost use Rattle.opa_mean.specs.Looks.{Look as Looked};
ghost use Rattle.opa_code.specs.Keeping.{IsEnd};
ghost use Rattle.opa_code.specs.Steps.{AreDecided, IsPutBack, IsRefuted, Keeps, leave_at, over_at, pass_at};
ghost use Rattle.opa_code.specs.declared.node.Node.TheVariants as nodes_of;

use crate::carry::{add, behind, carry_out};
use crate::node::{Decider, Node};
use crate::over_lines::{Operand, constant_of, take_newest};
use opa_case::InstanceId;
use opa_io::NoMemory;
use opa_line::Line;
use opa_mean::Look;
use opa_value::Value;
use std::alloc::Global;

/// One node that is no quantifier: the nodes that are left.
pub(crate) fn go_on<'a, 'n, K: Look>(
    alloc: Global,
    look: &'a K,
    stack: &mut Vec<Operand<'a>>,
    node: &'a Node,
    after: &'n [Node],
    enclosing: &[InstanceId],
) -> Result<&'n [Node], NoMemory>
    ensures kept { over_at node.now ≡ None → IfOk result (λ rest.
        Keeps (K.looks look.now) enclosing.now stack.old.items (node.now ∷ after.now) stack.new.items rest.now) }
    ensures ends { IfOk result (λ rest. IsEnd after.now rest.now) }
    ensures fewer { IfOk result (λ rest. length rest.now ≤ length after.now) }
{
    match leave_of(node) {
        Some((how, (dropped, count))) => leave(stack, how, dropped, count, after),
        None => go_past(alloc, look, stack, node, after, enclosing),
    }
}

/// One node that is neither a quantifier nor makes others needless.
fn go_past<'a, 'n, K: Look>(
    alloc: Global,
    look: &'a K,
    stack: &mut Vec<Operand<'a>>,
    node: &'a Node,
    after: &'n [Node],
    enclosing: &[InstanceId],
) -> Result<&'n [Node], NoMemory>
    ensures kept { over_at node.now ≡ None → leave_at node.now ≡ None → IfOk result (λ rest.
        Keeps (K.looks look.now) enclosing.now stack.old.items (node.now ∷ after.now) stack.new.items rest.now) }
    ensures ends { IfOk result (λ rest. IsEnd after.now rest.now) }
    ensures fewer { IfOk result (λ rest. length rest.now ≤ length after.now) }
{
    match pass_of(node) {
        Some(count) => pass(alloc, stack, count, after),
        None => {
            carry_out(alloc, look, stack, node, enclosing)?;
            Ok(after)
        }
    }
}

/// The nodes behind, or those that are left where they are needless.
fn leave<'n>(
    stack: &mut Vec<Operand<'_>>,
    how: Decider,
    dropped: usize,
    count: usize,
    after: &'n [Node],
) -> Result<&'n [Node], NoMemory>
    ensures kept { IfOk result (λ rest. (l : Looked) (enclosing : Seq Instance)
        → Keeps l enclosing stack.old.items (nodes_of.Leave how dropped count ∷ after.now) stack.new.items rest.now) }
    ensures ends { IfOk result (λ rest. IsEnd after.now rest.now) }
    ensures fewer { IfOk result (λ rest. length rest.now ≤ length after.now) }
{
    match take_newest(stack) {
        None => Ok(after),
        Some(newest) => {
            let settled = put_back(stack, how, dropped, newest)?;
            Ok(behind(needless(settled, count), after))
        }
    }
}

fn needless(settled: bool, count: usize) -> usize
    ensures { result ≡ cond settled count 0 }
{
    if settled { count } else { 0 }
}

/// Puts the newest line back, in place of so many before it if these decide.
fn put_back<'a>(
    stack: &mut Vec<Operand<'a>>,
    how: Decider,
    dropped: usize,
    newest: Operand<'a>,
) -> Result<bool, NoMemory>
    ensures { IfOk result (λ settled. IsPutBack how dropped settled stack.old.items newest.entry stack.new.items) }
{
    let from = stack.len().saturating_sub(dropped);
    if is_decided(how, behind(from, stack), &newest) {
        stack.truncate(from);
        add(stack, newest)?;
        return Ok(true);
    }
    add(stack, newest)?;
    Ok(false)
}

/// The nodes behind a condition, or those that are left where it is false on every day.
fn pass<'n>(
    alloc: Global,
    stack: &mut Vec<Operand<'_>>,
    count: usize,
    after: &'n [Node],
) -> Result<&'n [Node], NoMemory>
    ensures kept { IfOk result (λ rest. (l : Looked) (enclosing : Seq Instance)
        → Keeps l enclosing stack.old.items (nodes_of.Pass count ∷ after.now) stack.new.items rest.now) }
    ensures ends { IfOk result (λ rest. IsEnd after.now rest.now) }
    ensures fewer { IfOk result (λ rest. length rest.now ≤ length after.now) }
{
    if is_refuted(stack) {
        let line = Operand::constant(alloc, Value::Uncertain)?;
        add(stack, line)?;
        return Ok(behind(count, after));
    }
    Ok(after)
}

fn is_decided(how: Decider, before: &[Operand<'_>], newest: &Operand<'_>) -> bool
    ensures { IsTrue result → AreDecided how before.now newest.now }
{
    match how {
        Decider::AtFalse => is_always(newest.line(), false),
        Decider::AtTrue => is_always(newest.line(), true),
        Decider::Chosen => match before {
            [test, ..] => is_always(test.line(), true),
            [] => false,
        },
    }
}

/// Whether the newest line is false on every day.
fn is_refuted(stack: &[Operand<'_>]) -> bool
    ensures { IsTrue result → IsRefuted stack.now }
{
    match back(stack) {
        Some(parts) => is_always(parts.0.line(), false),
        None => false,
    }
}

/// The newest line, and those before it.
fn back<'a, 'b>(stack: &'b [Operand<'a>]) -> Option<(&'b Operand<'a>, &'b [Operand<'a>])>
    ensures { MatchOption result (stack.now ≡ []) (λ x. stack.now ≡ x.1.now ++ x.0.now ∷ []) }
{
    match stack {
        [before @ .., newest] => Some((newest, before)),
        [] => None,
    }
}

/// Whether a line has this truth on every day.
fn is_always(line: &Line<Value>, truth: bool) -> bool
    ensures { IsTrue result → (d : ℕ) → day_value line.now d ≡ Truth truth }
{
    match constant_of(line) {
        Some(value) => is_truth(value, truth),
        None => false,
    }
}

fn is_truth(value: &Value, truth: bool) -> bool
    ensures { IsTrue result → value.now ≡ Truth truth }
{
    match value {
        Value::Bool(held) => *held == truth,
        _ => false,
    }
}

/// What decides, how many results are dropped, and how many nodes are passed over.
fn leave_of(node: &Node) -> Option<(Decider, (usize, usize))>
    ensures { result ≡ leave_at node.now }
{
    match node {
        Node::Leave(how, dropped, count) => Some((*how, (*dropped, *count))),
        _ => None,
    }
}

/// How many nodes are passed over.
fn pass_of(node: &Node) -> Option<usize>
    ensures { result ≡ pass_at node.now }
{
    match node {
        Node::Pass(count) => Some(*count),
        _ => None,
    }
}
