// The lines of a tree at one member of a list after another.
ghost use Rattle.std.specs.Prelude.{◌≡◌, IfOk, OnOk};
ghost use Rattle.std.specs.List.{AllByRecursion};
ghost use Rattle.opa_case.specs.Cases.{IsLive};
ghost use Rattle.opa_date.specs.declared.TheConstants.{DAYS};
ghost use Rattle.opa_line.specs.Lines.{StandsFor};
ghost use Rattle.opa_code.specs.Fresh.{IsLeft, fresh_value};
ghost use Rattle.opa_code.specs.Keeping.{AreRight};
ghost use Rattle.opa_code.specs.LinesOfMembers.{AreLinesOf};

use crate::gather::nodes_in;
use crate::kept::Kept;
use crate::node::Node;
use crate::over_lines::taken_first;
use crate::run::run_among;
use crate::tree_lines::{can_run, day_by_day};
use opa_case::InstanceId;
use opa_io::{List, NoMemory};
use opa_line::Line;
use opa_mean::{Held, HeldLook, Look};
use opa_tree::Expr;
use opa_value::Value;
use std::alloc::Global;

/// What the lines of one tree have in common at the members of a list: its nodes, and lines of its quantifiers that are the
/// same for each member.
#[derive(Drop)]
pub struct MemberLines {
    nodes: List<Node>,
    kept: Kept,
}

impl MemberLines {
    /// Of a tree, for the instances of an entity.
    pub fn of<H: Held>(
        alloc: Global,
        held: &H,
        tree: &Expr,
        entity: u32,
    ) -> Result<MemberLines, NoMemory>
        ensures { IfOk result (AreLinesOf (H.rules held.now) (H.held held.now) tree.now) }
    {
        let nodes = nodes_in(alloc, &held.base().model, tree)?;
        Ok(MemberLines {
            nodes,
            kept: Kept::of(alloc, Some(entity)),
        })
    }

    /// The values of the tree over time at live enclosing instances, the innermost first, over the held case.
    pub fn at<H: Held>(
        &mut self,
        alloc: Global,
        held: &H,
        tree: &Expr,
        enclosing: &[InstanceId],
    ) -> Result<Line<Value>, NoMemory>
        requires live { AllByRecursion (IsLive (H.held held.now)) enclosing.now }
        requires of { AreLinesOf (H.rules held.now) (H.held held.now) tree.now self.old }
        ensures line { IfOk result (StandsFor DAYS (fresh_value (H.rules held.now) (H.held held.now) tree.now enclosing.now)) }
        ensures stay { OnOk result (AreLinesOf (H.rules held.now) (H.held held.now) tree.now self.new) }
    {
        let _case = held.case();
        let nodes = self.nodes.as_slice();
        if can_run(nodes) {
            left_among(alloc, &HeldLook { held }, nodes, enclosing, &mut self.kept)
        } else {
            by_days(alloc, held, tree, enclosing)
        }
    }
}

/// What nodes leave at one of several members, over what is looked up.
fn left_among<K: Look>(
    alloc: Global,
    look: &K,
    nodes: &[Node],
    enclosing: &[InstanceId],
    kept: &mut Kept,
) -> Result<Line<Value>, NoMemory>
    requires { AreRight (K.looks look.now) nodes.now kept.old.lines.items }
    ensures left { IfOk result (IsLeft (K.looks look.now) enclosing.now nodes.now) }
    ensures right { OnOk result (AreRight (K.looks look.now) nodes.now kept.new.lines.items) }
{
    let lines = run_among(alloc, look, nodes, enclosing, kept)?;
    taken_first(alloc, lines)
}

/// The value at each day, for a tree whose nodes can't be run.
fn by_days<H: Held>(
    alloc: Global,
    held: &H,
    tree: &Expr,
    enclosing: &[InstanceId],
) -> Result<Line<Value>, NoMemory>
    requires { AllByRecursion (IsLive (H.held held.now)) enclosing.now }
    ensures { IfOk result (StandsFor DAYS (fresh_value (H.rules held.now) (H.held held.now) tree.now enclosing.now)) }
{
    let all = copied(alloc, enclosing)?;
    day_by_day(alloc, held, tree, &all)
}

fn copied(alloc: Global, enclosing: &[InstanceId]) -> Result<List<InstanceId>, NoMemory>
    ensures { IfOk result (λ all. all ≡ enclosing.now) }
{
    let mut all = List::new(alloc);
    for inst in enclosing {
        all.push(inst.copy(alloc)?)?;
    }
    Ok(all)
}
