// Nodes, run over whole lines.
ghost use Rattle.std.specs.Prelude.{◌≡◌, ◌≤◌, ◌∷◌, ◌++◌, [], List as Seq, map, length, take, drop, IfOk, OnOk};
ghost use Rattle.opa_date.specs.declared.TheConstants.{DAYS};
ghost use Rattle.opa_line.specs.Lines.{StandsFor};
ghost use Rattle.opa_mean.specs.Meaning as meant;
ghost use Rattle.opa_code.specs.OverLines.Additions.{HasRoom};
ghost use Rattle.opa_code.specs.Keeping.{AreRight, IsEnd, IsLineAmong};
ghost use Rattle.opa_code.specs.OverLines.Lines.{Stand, meaning_of, values_at};
ghost use Rattle.opa_code.specs.Steps.{IsFirst, IsGathered, IsItem, IsListed, IsOver, Keeps, Leaves};
ghost use Rattle.opa_code.specs.Steps.{attribute_at, is_count, over_at};
ghost use Rattle.opa_code.specs.declared.node.Node.{Node as OfCode};
ghost use Rattle.opa_code.specs.declared.node.Node.TheVariants as nodes_of;

use crate::carry::{add, attribute_in, behind};
use crate::kept::{Kept, keep, kept_line};
use crate::leave::go_on;
use crate::members::{add_attribute, put_first, with_room};
use crate::node::Node;
use crate::over_lines::{Gathering, Items, Operand, amount, gathering_of, item_line, same_line};
use opa_case::InstanceId;
use opa_io::{NoMemory, Txt, front};
use opa_line::Line;
use opa_mean::{Look, place_in};
use opa_model::{AttrId, RelId};
use opa_tree::Quant;
use opa_value::Value;
use std::alloc::Global;

/// How many operands a stack has room for at first.
const FIRST_ROOM: usize = 8;

/// The lines that nodes leave at enclosing instances.
#[cycle(running)]
pub(crate) fn run<'a, K: Look>(
    alloc: Global,
    look: &'a K,
    nodes: &'a [Node],
    enclosing: &[InstanceId],
) -> Result<Vec<Operand<'a>>, NoMemory>
    ensures { IfOk result (λ lines. Leaves (K.looks look.now) enclosing.now nodes.now lines.items) }
{
    let mut kept = Kept::of(alloc, None);
    run_among(alloc, look, nodes, enclosing, &mut kept)
}

/// The same for one of several members, for which lines of the nodes' quantifiers are kept.
#[cycle(running)]
pub(crate) fn run_among<'a, K: Look>(
    alloc: Global,
    look: &'a K,
    nodes: &'a [Node],
    enclosing: &[InstanceId],
    kept: &mut Kept,
) -> Result<Vec<Operand<'a>>, NoMemory>
    requires { AreRight (K.looks look.now) nodes.now kept.old.lines.items }
    ensures left { IfOk result (λ lines. Leaves (K.looks look.now) enclosing.now nodes.now lines.items) }
    ensures right { OnOk result (AreRight (K.looks look.now) nodes.now kept.new.lines.items) }
{
    let mut stack = Vec::with_capacity(alloc, nodes.len().min(FIRST_ROOM))?;
    let mut rest = nodes;
    while let Some((node, after)) = front(rest) {
        rest = step(alloc, look, &mut stack, node, after, enclosing, kept)?;
    }
    Ok(stack)
}

/// One node, or one quantifier with the nodes of its operand: the nodes that are left.
#[cycle(running)]
fn step<'a, K: Look>(
    alloc: Global,
    look: &'a K,
    stack: &mut Vec<Operand<'a>>,
    node: &'a Node,
    after: &'a [Node],
    enclosing: &[InstanceId],
    kept: &mut Kept,
) -> Result<&'a [Node], NoMemory>
    ensures kept { IfOk result (λ rest. (nodes : Seq OfCode) → IsEnd nodes (node.now ∷ after.now) → AreRight (K.looks look.now) nodes kept.old.lines.items
        → Keeps (K.looks look.now) enclosing.now stack.old.items (node.now ∷ after.now) stack.new.items rest.now) }
    ensures right { OnOk result ((nodes : Seq OfCode) → IsEnd nodes (node.now ∷ after.now) → AreRight (K.looks look.now) nodes kept.old.lines.items
        → AreRight (K.looks look.now) nodes kept.new.lines.items) }
    ensures ends { IfOk result (λ rest. IsEnd after.now rest.now) }
    ensures fewer { IfOk result (λ rest. length rest.now ≤ length after.now) }
{
    match over_of(node) {
        None => go_on(alloc, look, stack, node, after, enclosing),
        Some((quant, (rel, (source, (target, count))))) => {
            let line = over_line(
                alloc, look, quant, rel, source, target, count, after, enclosing, kept,
            )?;
            let value = Operand::made(line);
            add(stack, value)?;
            Ok(behind(count, after))
        }
    }
}

/// The line of a quantifier, of which the first nodes behind it are the operand: one that was kept, or a new one.
#[cycle(running)]
fn over_line<K: Look>(
    alloc: Global,
    look: &K,
    quant: Quant,
    rel: RelId,
    source: u32,
    target: u32,
    count: usize,
    after: &[Node],
    enclosing: &[InstanceId],
    kept: &mut Kept,
) -> Result<Line<Value>, NoMemory>
    ensures { IfOk result (λ line. (nodes : Seq OfCode) → IsEnd nodes (nodes_of.Over quant rel source target count ∷ after.now) → AreRight (K.looks look.now) nodes kept.old.lines.items
        → IsLineAmong (K.looks look.now) enclosing.now quant rel source target count after.now nodes line kept.new.lines.items) }
{
    let position = after.len();
    match kept_line(look, &kept.lines, position, enclosing) {
        Some(line) => same_line(alloc, line),
        None => {
            let operand = up_to(count, after);
            let line = made_line(alloc, look, quant, rel, source, target, operand, enclosing)?;
            keep(
                alloc, look, kept, source, target, operand, position, enclosing, &line,
            )?;
            Ok(line)
        }
    }
}

/// The line of a quantifier with the nodes of its operand.
#[cycle(running)]
fn made_line<K: Look>(
    alloc: Global,
    look: &K,
    quant: Quant,
    rel: RelId,
    source: u32,
    target: u32,
    operand: &[Node],
    enclosing: &[InstanceId],
) -> Result<Line<Value>, NoMemory>
    ensures { IfOk result (IsOver (K.looks look.now) enclosing.now operand.now quant rel source target) }
{
    match place_in(look, enclosing, source) {
        None => Line::constant(alloc, Value::Uncertain),
        Some(inst) => match look.members(rel, inst) {
            None => Line::constant(alloc, Value::Unknown),
            Some(names) => {
                let names = names.as_slice();
                listed_line(alloc, look, quant, target, names, operand, enclosing)
            }
        },
    }
}

/// A quantifier over a known list.
#[cycle(running)]
fn listed_line<K: Look>(
    alloc: Global,
    look: &K,
    quant: Quant,
    target: u32,
    names: &[Txt],
    operand: &[Node],
    enclosing: &[InstanceId],
) -> Result<Line<Value>, NoMemory>
    ensures { IfOk result (IsListed (K.looks look.now) enclosing.now operand.now quant target names.now) }
{
    if only_counts(quant) {
        return count_line(alloc, names);
    }
    match gathering_of(quant) {
        Some(gathering) => gathered_line(
            alloc, look, quant, gathering, target, names, operand, enclosing,
        ),
        None => first_item(alloc, look, quant, target, names, operand, enclosing),
    }
}

/// Whether a quantifier says how many instances are listed, whatever holds of them.
fn only_counts(quant: Quant) -> bool
    ensures { result ≡ is_count quant }
{
    matches!(quant, Quant::Count)
}

fn count_line(alloc: Global, names: &[Txt]) -> Result<Line<Value>, NoMemory>
    ensures { IfOk result (StandsFor DAYS (λ _. meant.amount (length names.now))) }
{
    Line::constant(alloc, amount(names.len() as u64))
}

/// What a quantifier makes of the instance that is listed first, uncertain on every day where none is.
#[cycle(running)]
fn first_item<K: Look>(
    alloc: Global,
    look: &K,
    quant: Quant,
    target: u32,
    names: &[Txt],
    operand: &[Node],
    enclosing: &[InstanceId],
) -> Result<Line<Value>, NoMemory>
    ensures { IfOk result (IsFirst (K.looks look.now) enclosing.now operand.now quant target names.now) }
{
    match front(names) {
        None => Line::constant(alloc, Value::Uncertain),
        Some(parts) => {
            let mut inner = with_room(alloc, enclosing)?;
            put_first(alloc, &mut inner, target, parts.0)?;
            let lines = run(alloc, look, operand, &inner)?;
            item_line(alloc, quant, &lines)
        }
    }
}

/// What a quantifier gathers from all listed instances, each in turn as the innermost enclosing one.
#[cycle(running)]
fn gathered_line<K: Look>(
    alloc: Global,
    look: &K,
    quant: Quant,
    gathering: Gathering,
    target: u32,
    names: &[Txt],
    operand: &[Node],
    enclosing: &[InstanceId],
) -> Result<Line<Value>, NoMemory>
    ensures { IfOk result (IsGathered (K.looks look.now) enclosing.now operand.now quant gathering target names.now) }
{
    let mut items = Items::new(alloc, gathering);
    let mut kept = Kept::of(alloc, Some(target));
    let mut inner = with_room(alloc, enclosing)?;
    for name in names {
        put_first(alloc, &mut inner, target, name)?;
        add_item(alloc, look, quant, operand, &inner, &mut items, &mut kept)?;
    }
    items.told(alloc)
}

/// What a quantifier makes of an operand at enclosing instances, as one item more.
#[cycle(running)]
fn add_item<'a, K: Look>(
    alloc: Global,
    look: &'a K,
    quant: Quant,
    operand: &'a [Node],
    enclosing: &[InstanceId],
    items: &mut Items<'a>,
    kept: &mut Kept,
) -> Result<(), NoMemory>
    requires room { HasRoom items.old }
    requires right { AreRight (K.looks look.now) operand.now kept.old.lines.items }
    ensures item { OnOk result (IsItem (K.looks look.now) enclosing.now operand.now quant items.old items.new) }
    ensures right { OnOk result (AreRight (K.looks look.now) operand.now kept.new.lines.items) }
{
    match attribute_of(operand) {
        Some((attr, owner)) => add_attribute(alloc, look, attr, owner, enclosing, items),
        None => {
            let lines = run_among(alloc, look, operand, enclosing, kept)?;
            items.add_item(alloc, quant, lines)
        }
    }
}

pub(crate) fn up_to(count: usize, nodes: &[Node]) -> &[Node]
    ensures { result.now ≡ take count nodes.now }
{
    &nodes[..count.min(nodes.len())]
}

/// The attribute that the only node reads.
fn attribute_of(nodes: &[Node]) -> Option<(AttrId, u32)>
    ensures { result ≡ attribute_at nodes.now }
{
    match nodes {
        [node] => attribute_in(node),
        [] | [_, _, ..] => None,
    }
}

/// What a quantifier's node says.
pub(crate) fn over_of(node: &Node) -> Option<(Quant, (RelId, (u32, (u32, usize))))>
    ensures { result ≡ over_at node.now }
{
    match node {
        Node::Over(quant, rel, source, target, count) => {
            Some((*quant, (*rel, (*source, (*target, *count)))))
        }
        _ => None,
    }
}
