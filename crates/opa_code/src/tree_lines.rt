// The line of a tree over a held case.
ghost use Rattle.std.specs.Prelude.{◌≡◌, IfOk};
ghost use Rattle.std.specs.List.{AllByRecursion, list_all};
ghost use Rattle.opa_case.specs.Cases.{IsLive};
ghost use Rattle.opa_date.specs.declared.TheConstants.{DAYS};
ghost use Rattle.opa_line.specs.Lines.{StandsFor};
ghost use Rattle.opa_code.specs.Fresh.{IsLeft, fresh_value};
ghost use Rattle.opa_code.specs.Runnable.{can_run as runs};

use crate::gather::nodes_in;
use crate::node::Node;
use crate::over_lines::taken_first;
use crate::run::run;
use opa_case::InstanceId;
use opa_io::limits::MOST_DAYS;
use opa_io::{List, NoMemory};
use opa_line::{Builder, DAYS, Line};
use opa_mean::{Held, HeldLook, Look, tree_value};
use opa_tree::Expr;
use opa_value::Value;
use std::alloc::Global;

/// The values of a tree over time at live enclosing instances, the innermost first, over the held case.
pub fn tree_line<H: Held>(
    alloc: Global,
    held: &H,
    tree: &Expr,
    enclosing: &List<InstanceId>,
) -> Result<Line<Value>, NoMemory>
    requires { AllByRecursion (IsLive (H.held held.now)) enclosing.now }
    ensures { IfOk result (StandsFor DAYS (fresh_value (H.rules held.now) (H.held held.now) tree.now enclosing.now)) }
{
    let _case = held.case();
    let nodes = nodes_in(alloc, &held.base().model, tree)?;
    if can_run(nodes.as_slice()) {
        left_line(
            alloc,
            &HeldLook { held },
            nodes.as_slice(),
            enclosing.as_slice(),
        )
    } else {
        day_by_day(alloc, held, tree, enclosing)
    }
}

/// Whether nodes can be run: those of rules can.
pub(crate) fn can_run(nodes: &[Node]) -> bool
    ensures { result ≡ list_all runs nodes.now }
{
    for node in nodes {
        if !is_within(node) {
            return false;
        }
    }
    true
}

/// A node over the last days looks back over a hundred years at most.
fn is_within(node: &Node) -> bool
    ensures { result ≡ runs node.now }
{
    match node {
        Node::Rolling(_, days) => *days <= MOST_DAYS,
        _ => true,
    }
}

/// What nodes leave, over what is looked up.
fn left_line<K: Look>(
    alloc: Global,
    look: &K,
    nodes: &[Node],
    enclosing: &[InstanceId],
) -> Result<Line<Value>, NoMemory>
    ensures { IfOk result (IsLeft (K.looks look.now) enclosing.now nodes.now) }
{
    let lines = run(alloc, look, nodes, enclosing)?;
    taken_first(alloc, lines)
}

/// The value at each day, one after another.
pub(crate) fn day_by_day<H: Held>(
    alloc: Global,
    held: &H,
    tree: &Expr,
    enclosing: &List<InstanceId>,
) -> Result<Line<Value>, NoMemory>
    requires { AllByRecursion (IsLive (H.held held.now)) enclosing.now }
    ensures { IfOk result (StandsFor DAYS (fresh_value (H.rules held.now) (H.held held.now) tree.now enclosing.now)) }
{
    let mut builder = Builder::new(alloc);
    let mut day = 0;
    while day < DAYS {
        builder.until(day + 1, tree_value(alloc, held, tree, enclosing, day)?)?;
        day += 1;
    }
    Ok(builder.finish())
}
