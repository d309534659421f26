// A quantifier in the operand of another one is passed over where its questions are found.
ghost use Rattle.std.specs.Prelude.{◌<◌, IfOk, OnOk};
ghost use Rattle.std.specs.List.{AllByRecursion};
ghost use Rattle.opa_case.specs.Cases.{IsLive};
ghost use Rattle.opa_date.specs.declared.TheConstants.{DAYS};
ghost use Rattle.opa_need.specs.Noted.{Begins, Passes};
ghost use Rattle.opa_need.specs.declared.steps.Step.TheVariants as step;

use crate::looking::again;
use crate::noted::{NotedTree, is_inner, is_noted};
use crate::putting::take_tree;
use crate::steps::Step;
use opa_case::InstanceId;
use opa_io::{List, NoMemory};
use opa_mean::Held;
use opa_tree::Expr;
use std::alloc::Global;

/// A tree: it is passed over, or its parts take its place.
pub(crate) fn take_or_pass<'a, H: Held>(
    alloc: Global,
    held: &'a H,
    steps: &mut List<Step<'a>>,
    tree: &'a Expr,
    enclosing: &List<InstanceId>,
    day: u32,
    noted: &[NotedTree<'a>],
) -> Result<(), NoMemory>
    requires day { day < DAYS }
    requires live { AllByRecursion (IsLive (H.held held.now)) enclosing.now }
    ensures { OnOk result (Passes (H.rules held.now) (H.held held.now) (step.Tree tree.entry enclosing.now day) noted.now steps.old steps.new) }
{
    let passed = begin(alloc, held, steps, tree, enclosing, day, noted)?;
    if passed {
        return Ok(());
    }
    take_tree(alloc, held, steps, tree, enclosing, day)?;
    Ok(())
}

/// Whether a tree is passed over. If it is a quantifier in the operand of another one and isn't passed over, it is to be noted
/// behind it that its questions are found.
fn begin<'a, H: Held>(
    alloc: Global,
    held: &H,
    steps: &mut List<Step<'a>>,
    tree: &'a Expr,
    enclosing: &List<InstanceId>,
    day: u32,
    noted: &[NotedTree<'a>],
) -> Result<bool, NoMemory>
    ensures { IfOk result (Begins (H.rules held.now) (H.held held.now) (step.Tree tree.entry enclosing.now day) noted.now steps.old steps.new) }
{
    if !is_inner(tree, enclosing) {
        return Ok(false);
    }
    if is_noted(alloc, held, noted, tree, enclosing, day)? {
        return Ok(true);
    }
    let behind = again(alloc, enclosing)?;
    steps.push(Step::AfterTree(tree, behind, day))?;
    Ok(false)
}
