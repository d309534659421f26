// Quantifiers whose questions at a day are found. What an inner one asks for depends on the enclosing instances only by the
// places of the entities that it mentions: in nested quantifiers over one list it is the same for each member, and going
// through it anew would take a power of steps.
ghost use Rattle.std.specs.Prelude.{◌≡◌, ◌∷◌, ◌<◌, [], length, IfOk, IsTrue, MatchOption, OnOk, ⊤, List as Seq};
ghost use Rattle.opa_case.specs.Cases.{CaseView};
ghost use Rattle.opa_case.specs.declared.question.Question.{Question as Questions};
ghost use Rattle.opa_need.specs.Finding.{AreFound};
ghost use Rattle.opa_need.specs.Noted.{AreNoted, IsNoted};
ghost use Rattle.opa_need.specs.Steps.{tree_needs};
ghost use Rattle.opa_tree.specs.declared.rulebase.Rulebase.{Rulebase as Rules};

use crate::alike::is_alike;
use crate::looking::again;
use opa_case::InstanceId;
use opa_io::{List, NoMemory};
use opa_mean::{Held, same_tree};
use opa_tree::Expr;
use std::alloc::Global;

/// A quantifier, and where and on which day its questions are found.
#[derive(Drop)]
pub(crate) struct NotedTree<'t> {
    tree: &'t Expr,
    enclosing: List<InstanceId>,
    day: u32,
}

/// Whether a tree is a quantifier in the operand of another one.
pub(crate) fn is_inner(tree: &Expr, enclosing: &List<InstanceId>) -> bool {
    enclosing.len() > 1 && matches!(tree, Expr::Over(_, _, _))
}

/// Whether the questions of a tree at a day are those of one that is noted. It may say no where they are.
pub(crate) fn is_noted<'t, H: Held>(
    alloc: Global,
    held: &H,
    noted: &[NotedTree<'t>],
    tree: &Expr,
    enclosing: &List<InstanceId>,
    day: u32,
) -> Result<bool, NoMemory>
    ensures { IfOk result (λ is. IsTrue is → (found : Seq Questions) → AreNoted (H.rules held.now) (H.held held.now) found noted.now → AreFound found (tree_needs (H.rules held.now) (H.held held.now) tree.now enclosing.now day)) }
{
    for one in noted {
        if is_of(one, tree, day) {
            return is_alike(
                alloc,
                held,
                tree,
                one.enclosing.as_slice(),
                enclosing.as_slice(),
            );
        }
    }
    Ok(false)
}

/// Whether this was noted of a tree at a day.
fn is_of<'t>(one: &NotedTree<'t>, tree: &Expr, day: u32) -> bool
    ensures { IsTrue result → (one.now.tree.now ≡ tree.now) × (one.now.day ≡ day) }
{
    one.day == day && same_tree(one.tree, tree)
}

/// Notes that the questions of a tree at a day are found, in the place of what was noted of it before.
pub(crate) fn note_tree<'t>(
    alloc: Global,
    noted: &mut Vec<NotedTree<'t>>,
    tree: &'t Expr,
    enclosing: &List<InstanceId>,
    day: u32,
) -> Result<(), NoMemory>
    ensures { OnOk result ((r : Rules) (c : CaseView) (found : Seq Questions) → AreFound found (tree_needs r c tree.now enclosing.now day) → AreNoted r c found noted.old.items → AreNoted r c found noted.new.items) }
{
    let enclosing = again(alloc, enclosing)?;
    let one = NotedTree {
        tree,
        enclosing,
        day,
    };
    put(noted, one)
}

fn put<'t>(noted: &mut Vec<NotedTree<'t>>, one: NotedTree<'t>) -> Result<(), NoMemory>
    ensures { OnOk result ((r : Rules) (c : CaseView) (found : Seq Questions) → IsNoted r c found one.entry → AreNoted r c found noted.old.items → AreNoted r c found noted.new.items) }
{
    match index_of(noted, one.tree) {
        Some(index) => {
            noted[index] = one;
            Ok(())
        }
        None => {
            noted.push(one)?;
            Ok(())
        }
    }
}

fn index_of<'t>(noted: &[NotedTree<'t>], tree: &Expr) -> Option<usize>
    ensures { MatchOption result ⊤ (λ index. index < length noted.now) }
{
    noted.iter().position(|one| same_tree(one.tree, tree))
}
