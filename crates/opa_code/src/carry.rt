// A node, carried out over the lines of its operands.
ghost use Rattle.std.specs.Prelude.{◌≡◌, ◌≤◌, ◌∷◌, ◌++◌, [], None, List as Seq, map, drop, length, IfOk, IsTrue, OnOk};
ghost use Rattle.opa_cells.specs.declared.instance.InstanceId.{InstanceId as Instance};
ghost use Rattle.opa_date.specs.declared.TheConstants.{DAYS};
ghost use Rattle.opa_line.specs.Lines.{StandsFor};
ghost use Rattle.opa_mean.specs.Meaning as meant;
ghost use Rattle.opa_value.specs.Truth.{not_of};
ghost use Rattle.opa_value.specs.declared.value.Value.TheVariants.{Uncertain};
ghost use Rattle.opa_mean.specs.Places.{place};
ghost use Rattle.opa_mean.specs.Looks.{Look as Looked};
ghost use Rattle.opa_code.specs.OverLines.Lines.{Has, Stand, meaning_of};
ghost use Rattle.opa_code.specs.Running.{IsStep, node_meaning, operand_count as count_of, put, sole, chosen};
ghost use Rattle.opa_code.specs.Steps.{IsChosen, attribute_in};
ghost use Rattle.opa_code.specs.declared.node.Node.TheVariants as nodes_of;

use crate::node::Node;
use crate::over_lines::{
    Gathering, Operand, certain_line, choice_line, choice_over, gathered_over, known_line, newest,
    not_line, op_over, rolling_line, same_line, window_line,
};
use opa_case::InstanceId;
use opa_io::NoMemory;
use opa_line::Line;
use opa_mean::{Look, place_in};
use opa_model::AttrId;
use opa_value::Value;
use std::alloc::Global;

/// Adds an operand at the end.
pub(crate) fn add<'a>(operands: &mut Vec<Operand<'a>>, operand: Operand<'a>) -> Result<(), NoMemory>
    ensures { OnOk result (operands.new.items ≡ operands.old.items ++ operand.entry ∷ []) }
{
    operands.push(operand)?;
    Ok(())
}

/// Takes the operands of a node from the end, and puts there what it makes of them.
pub(crate) fn carry_out<'a, K: Look>(
    alloc: Global,
    look: &'a K,
    stack: &mut Vec<Operand<'a>>,
    node: &'a Node,
    enclosing: &[InstanceId],
) -> Result<(), NoMemory>
    ensures { OnOk result ((st : Seq meant.Meaning) → IsStep node.now → Stand enclosing.now stack.old.items st → Stand enclosing.now stack.new.items (put (K.looks look.now) node.now st)) }
{
    if can_choose(node, stack) {
        choose(alloc, stack)
    } else {
        carry(alloc, look, stack, node, enclosing)
    }
}

/// Whether a node is a choice whose operands are there.
fn can_choose(node: &Node, stack: &[Operand<'_>]) -> bool
    ensures { IsTrue result → (node.now ≡ nodes_of.Choose) × (3 ≤ length stack.now) }
{
    match node {
        Node::Choose => stack.len() >= 3,
        _ => false,
    }
}

/// Takes a condition, a value and what stands behind them from the end, and puts there what is chosen.
fn choose(alloc: Global, stack: &mut Vec<Operand<'_>>) -> Result<(), NoMemory>
    requires { 3 ≤ length stack.old.items }
    ensures { OnOk result (IsChosen stack.old.items stack.new.items) }
{
    let rest = newest(stack);
    let value = newest(stack);
    let cond = newest(stack);
    let operand = choice_over(alloc, cond, value, rest)?;
    add(stack, operand)
}

/// The same for any node, which reads its operands where they are.
fn carry<'a, K: Look>(
    alloc: Global,
    look: &'a K,
    stack: &mut Vec<Operand<'a>>,
    node: &'a Node,
    enclosing: &[InstanceId],
) -> Result<(), NoMemory>
    ensures { OnOk result ((st : Seq meant.Meaning) → IsStep node.now → Stand enclosing.now stack.old.items st → Stand enclosing.now stack.new.items (put (K.looks look.now) node.now st)) }
{
    let from = stack.len().saturating_sub(operand_count(node));
    let operands = behind(from, stack);
    let operand = node_operand(alloc, look, node, operands, enclosing)?;
    stack.truncate(from);
    add(stack, operand)
}

/// The items behind the first ones.
pub(crate) fn behind<T>(count: usize, items: &[T]) -> &[T]
    ensures { result.now ≡ drop count items.now }
{
    &items[count.min(items.len())..]
}

fn operand_count(node: &Node) -> usize
    ensures { result ≡ count_of node.now }
{
    match node {
        Node::Const(_) | Node::Attr(_, _) => 0,
        Node::Over(_, _, _, _, _) | Node::Leave(_, _, _) | Node::Pass(_) => 0,
        Node::Not | Node::Certain | Node::Known | Node::Rolling(_, _) => 1,
        Node::Choose => 3,
        Node::All(count) | Node::Any(count) | Node::Op(_, count) | Node::Window(_, count) => *count,
    }
}

/// What a node makes of its operands: the line of an attribute or of a constant stays where it is.
fn node_operand<'a, K: Look>(
    alloc: Global,
    look: &'a K,
    node: &'a Node,
    operands: &[Operand<'a>],
    enclosing: &[InstanceId],
) -> Result<Operand<'a>, NoMemory>
    ensures { IfOk result (λ line. IsStep node.now → Has (node_meaning (K.looks look.now) node.now (map meaning_of operands.now) enclosing.now) line) }
{
    match attribute_in(node) {
        Some((attr, owner)) => attr_operand(alloc, look, attr, owner, enclosing),
        None => other_operand(alloc, node, operands),
    }
}

/// The same of a node that reads no attribute: the line of a constant stays where it is.
fn other_operand<'a>(
    alloc: Global,
    node: &'a Node,
    operands: &[Operand<'a>],
) -> Result<Operand<'a>, NoMemory>
    ensures { IfOk result (λ line. (l : Looked) (enclosing : Seq Instance) → attribute_in node.now ≡ None → IsStep node.now → Has (node_meaning l node.now (map meaning_of operands.now) enclosing) line) }
{
    match node {
        Node::Const(value) => Ok(Operand::seen(value.line())),
        _ => {
            let line = made_line(alloc, node, operands)?;
            Ok(Operand::made(line))
        }
    }
}

/// The attribute that a node reads.
pub(crate) fn attribute_in(node: &Node) -> Option<(AttrId, u32)>
    ensures { result ≡ attribute_in node.now }
{
    match node {
        Node::Attr(attr, owner) => Some((*attr, *owner)),
        _ => None,
    }
}

/// The line that a node makes of its operands, uncertain on every day where it makes none: an attribute's is looked up.
#[inline(always)]
fn made_line(alloc: Global, node: &Node, operands: &[Operand<'_>]) -> Result<Line<Value>, NoMemory>
    ensures { IfOk result (λ line. (l : Looked) (enclosing : Seq Instance) → attribute_in node.now ≡ None → IsStep node.now → StandsFor DAYS (node_meaning l node.now (map meaning_of operands.now) enclosing) line) }
{
    match node {
        Node::Const(value) => same_line(alloc, value.line()),
        Node::All(_) => gathered_over(alloc, Gathering::All, operands),
        Node::Any(_) => gathered_over(alloc, Gathering::Any, operands),
        Node::Not => not_sole(alloc, operands),
        Node::Op(kind, _) => op_over(alloc, *kind, operands),
        Node::Certain => certain_sole(alloc, operands),
        Node::Known => known_sole(alloc, operands),
        Node::Window(kind, _) => window_line(alloc, *kind, operands),
        Node::Rolling(always, days) => rolling_sole(alloc, *always, *days, operands),
        Node::Choose => chosen_line(alloc, operands),
        Node::Attr(_, _) | Node::Over(_, _, _, _, _) | Node::Leave(_, _, _) | Node::Pass(_) => {
            Line::constant(alloc, Value::Uncertain)
        }
    }
}

/// The only operand's line, or another that is uncertain on every day where there isn't just one.
fn sole_line<'b>(operands: &'b [Operand<'_>], other: &'b Line<Value>) -> &'b Line<Value>
    requires { StandsFor DAYS (λ _. Uncertain) other.now }
    ensures { (enclosing : Seq Instance) → Has (sole (map meaning_of operands.now) enclosing) result.now }
{
    match operands {
        [x] => x.line(),
        _ => other,
    }
}

fn not_sole(alloc: Global, operands: &[Operand<'_>]) -> Result<Line<Value>, NoMemory>
    ensures { IfOk result (λ line. (enclosing : Seq Instance) → StandsFor DAYS (λ d. not_of (sole (map meaning_of operands.now) enclosing d)) line) }
{
    let none = Line::constant(alloc, Value::Uncertain)?;
    not_line(alloc, sole_line(operands, &none))
}

fn certain_sole(alloc: Global, operands: &[Operand<'_>]) -> Result<Line<Value>, NoMemory>
    ensures { IfOk result (λ line. (enclosing : Seq Instance) → StandsFor DAYS (λ d. meant.certain_of (sole (map meaning_of operands.now) enclosing d)) line) }
{
    let none = Line::constant(alloc, Value::Uncertain)?;
    certain_line(alloc, sole_line(operands, &none))
}

fn known_sole(alloc: Global, operands: &[Operand<'_>]) -> Result<Line<Value>, NoMemory>
    ensures { IfOk result (λ line. (enclosing : Seq Instance) → StandsFor DAYS (λ d. meant.known_of (sole (map meaning_of operands.now) enclosing d)) line) }
{
    let none = Line::constant(alloc, Value::Uncertain)?;
    known_line(alloc, sole_line(operands, &none))
}

fn rolling_sole(
    alloc: Global,
    always: bool,
    days: u32,
    operands: &[Operand<'_>],
) -> Result<Line<Value>, NoMemory>
    ensures { IfOk result (λ line. (enclosing : Seq Instance) → days ≤ 36600 → StandsFor DAYS (meant.rolling always days (sole (map meaning_of operands.now) enclosing)) line) }
{
    let none = Line::constant(alloc, Value::Uncertain)?;
    rolling_line(alloc, always, days, sole_line(operands, &none))
}

/// A condition, a value and what stands behind them.
fn chosen_line(alloc: Global, operands: &[Operand<'_>]) -> Result<Line<Value>, NoMemory>
    ensures { IfOk result (λ line. (enclosing : Seq Instance) → StandsFor DAYS (chosen (map meaning_of operands.now) enclosing) line) }
{
    match operands {
        [cond, value, rest] => { choice_line(alloc, cond.line(), value.line(), rest.line()) }
        _ => Line::constant(alloc, Value::Uncertain),
    }
}

/// The line of an attribute at its place.
fn attr_operand<'a, K: Look>(
    alloc: Global,
    look: &'a K,
    attr: AttrId,
    owner: u32,
    enclosing: &[InstanceId],
) -> Result<Operand<'a>, NoMemory>
    ensures { IfOk result (Has (λ d. meant.at_place (place (K.looks look.now).container enclosing.now owner) (λ i. (K.looks look.now).value attr i d))) }
{
    match place_in(look, enclosing, owner) {
        None => Operand::constant(alloc, Value::Uncertain),
        Some(inst) => looked_up(alloc, look, attr, inst),
    }
}

/// The line that is looked up, unknown on every day where there is none.
fn looked_up<'a, K: Look>(
    alloc: Global,
    look: &'a K,
    attr: AttrId,
    inst: &InstanceId,
) -> Result<Operand<'a>, NoMemory>
    ensures { IfOk result (Has ((K.looks look.now).value attr inst.now)) }
{
    match look.line(attr, inst) {
        None => Operand::constant(alloc, Value::Unknown),
        Some(line) => Ok(Operand::seen(line)),
    }
}
