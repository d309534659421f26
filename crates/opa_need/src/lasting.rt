// Quantifiers, and the day below which all that they need is found. What an inner one needs depends on the enclosing
// instances only by the places of the entities that it mentions: in nested quantifiers over one list it is the same for
// each member, and going through it anew would take a power of steps.
ghost use Rattle.std.specs.Prelude.{◌≡◌, ◌<◌, length, IfOk, IfSome, IsTrue, MatchOption, OnOk, ⊤, List as Seq};
ghost use Rattle.std.specs.FinMap.{FinMap};
ghost use Rattle.opa_case.specs.Cases.{CaseView};
ghost use Rattle.opa_case.specs.declared.question.Question.{Question as Questions};
ghost use Rattle.opa_cells.specs.Keys.{cell_cmp};
ghost use Rattle.opa_need.specs.Lasting.{AreLasting, IsLasting, IsUntilAt};
ghost use Rattle.opa_need.specs.Steps.{Settles, tree_needs};
ghost use Rattle.opa_need.specs.declared.runs.Run.{Run as RunView};
ghost use Rattle.opa_tree.specs.declared.rulebase.Rulebase.{Rulebase as Rules};

use crate::alike::is_alike;
use crate::looking::again;
use opa_case::InstanceId;
use opa_io::{List, NoMemory};
use opa_mean::{Held, same_tree};
use opa_tree::Expr;
use std::alloc::Global;

/// A quantifier, and where and from which day on all that it needs is found, below which day.
#[derive(Drop)]
pub(crate) struct LastingTree<'t> {
    tree: &'t Expr,
    enclosing: List<InstanceId>,
    day: u32,
    until: u32,
}

/// The day that was noted of a tree. There may be none where one was noted.
pub(crate) fn noted_until<'t, H: Held>(
    alloc: Global,
    held: &H,
    noted: &[LastingTree<'t>],
    tree: &Expr,
    enclosing: &List<InstanceId>,
    day: u32,
) -> Result<Option<u32>, NoMemory>
    ensures { IfOk result (λ o. IfSome o (λ until. (found : Seq Questions) (runs : FinMap cell_cmp (Seq RunView)) → AreLasting (H.rules held.now) (H.held held.now) found runs noted.now → Settles (H.rules held.now) (H.held held.now) found runs (tree_needs (H.rules held.now) (H.held held.now) tree.now enclosing.now) day until)) }
{
    for one in noted {
        if is_of(one, tree, day) {
            return until_at(alloc, held, one, tree, enclosing);
        }
    }
    Ok(None)
}

/// Whether this was noted of a tree at a day.
fn is_of<'t>(one: &LastingTree<'t>, tree: &Expr, day: u32) -> bool
    ensures { IsTrue result → (one.now.tree.now ≡ tree.now) × (one.now.day ≡ day) }
{
    one.day == day && same_tree(one.tree, tree)
}

/// What was noted, if the tree needs the same here.
fn until_at<'t, H: Held>(
    alloc: Global,
    held: &H,
    one: &LastingTree<'t>,
    tree: &Expr,
    enclosing: &List<InstanceId>,
) -> Result<Option<u32>, NoMemory>
    ensures { IfOk result (λ o. IfSome o (IsUntilAt (H.rules held.now) (H.held held.now) one.now tree.now enclosing.now)) }
{
    let there = one.enclosing.as_slice();
    let here = enclosing.as_slice();
    let alike = is_alike(alloc, held, tree, there, here)?;
    if alike { Ok(Some(one.until)) } else { Ok(None) }
}

/// Notes the day of a tree, in the place of what was noted of it before.
pub(crate) fn note_until<'t>(
    alloc: Global,
    noted: &mut Vec<LastingTree<'t>>,
    tree: &'t Expr,
    enclosing: &List<InstanceId>,
    day: u32,
    until: u32,
) -> Result<(), NoMemory>
    ensures { OnOk result ((r : Rules) (c : CaseView) (found : Seq Questions) (runs : FinMap cell_cmp (Seq RunView)) → Settles r c found runs (tree_needs r c tree.now enclosing.now) day until → AreLasting r c found runs noted.old.items → AreLasting r c found runs noted.new.items) }
{
    let enclosing = again(alloc, enclosing)?;
    let one = LastingTree {
        tree,
        enclosing,
        day,
        until,
    };
    put(noted, one)
}

fn put<'t>(noted: &mut Vec<LastingTree<'t>>, one: LastingTree<'t>) -> Result<(), NoMemory>
    ensures { OnOk result ((r : Rules) (c : CaseView) (found : Seq Questions) (runs : FinMap cell_cmp (Seq RunView)) → IsLasting r c found runs one.entry → AreLasting r c found runs noted.old.items → AreLasting r c found runs noted.new.items) }
{
    match index_of(noted, one.tree) {
        Some(index) => {
            noted[index] = one;
            Ok(())
        }
        None => {
            noted.push(one)?;
            Ok(())
        }
    }
}

fn index_of<'t>(noted: &[LastingTree<'t>], tree: &Expr) -> Option<usize>
    ensures { MatchOption result ⊤ (λ index. index < length noted.now) }
{
    noted.iter().position(|one| same_tree(one.tree, tree))
}
