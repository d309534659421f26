// Quantifiers in the operand of another that were spread, kept while its members are gone through. What such a quantifier
// uses depends on the enclosing instances only by the places of the entities that it mentions: in nested quantifiers over
// one list it is the same for each member, and going through it anew would take a power of steps.
ghost use Rattle.std.specs.Prelude.{◌≡◌, ◌<◌, ◌∷◌, [], length, IfOk, MatchOption, OnOk, ⊤};
ghost use Rattle.opa_case.specs.Shapes.{Shape};
ghost use Rattle.opa_mean.specs.Looks.{Look};
ghost use Rattle.opa_report.specs.Keeping.{AreFound, AreKept, IsFound, IsMissing};
ghost use Rattle.opa_report.specs.declared.found.Found.{Found as OfFound};

use crate::Sight;
use crate::alike::is_alike;
use crate::day_sets::{both, without};
use crate::kept_lines::KeptLine;
use opa_case::InstanceId;
use opa_io::{List, NoMemory};
use opa_line::Line;
use opa_mean::same_tree;
use opa_tree::Expr;
use std::alloc::Global;

/// A quantifier, and where and on which days it was spread.
#[derive(Drop)]
pub(crate) struct SpreadTree<'t> {
    tree: &'t Expr,
    enclosing: List<InstanceId>,
    days: Line<bool>,
}

/// What is kept, and lines that are; where no members are gone through, nothing is.
#[derive(Drop)]
pub(crate) struct Kept<'t> {
    among: bool,
    pub trees: Vec<SpreadTree<'t>>,
    pub lines: Vec<KeptLine<'t>>,
}

impl<'t> Kept<'t> {
    pub(crate) fn of(alloc: Global, among: bool) -> Kept<'t>
        ensures trees { result.trees.items ≡ [] }
        ensures lines { result.lines.items ≡ [] }
    {
        Kept {
            among,
            trees: Vec::new(alloc),
            lines: Vec::new(alloc),
        }
    }

    pub(crate) fn is_among(&self) -> bool {
        self.among
    }

    /// Whether a tree is kept once it is spread.
    pub(crate) fn takes(&self, tree: &Expr) -> bool {
        self.among && matches!(tree, Expr::Over(_, _, _))
    }
}

/// The days of a set on which a tree still has to be spread.
pub(crate) fn missing_days<'t, S: Sight>(
    alloc: Global,
    sight: &S,
    kept: &[SpreadTree<'t>],
    tree: &Expr,
    enclosing: &[InstanceId],
    days: &Line<bool>,
) -> Result<Line<bool>, NoMemory>
    ensures { IfOk result (λ missing. IsMissing (S.shape sight.now) (S.look sight.now) kept.now tree.now enclosing.now days.now missing) }
{
    for one in kept {
        if same_tree(one.tree, tree) {
            return missing_of(alloc, sight, one, tree, enclosing, days);
        }
    }
    both(alloc, days, days)
}

fn missing_of<'t, S: Sight>(
    alloc: Global,
    sight: &S,
    one: &SpreadTree<'t>,
    tree: &Expr,
    enclosing: &[InstanceId],
    days: &Line<bool>,
) -> Result<Line<bool>, NoMemory>
    ensures { IfOk result (λ missing. one.now.tree.now ≡ tree.now → IsMissing (S.shape sight.now) (S.look sight.now) (one.now ∷ []) tree.now enclosing.now days.now missing) }
{
    if is_alike(alloc, sight, tree, &[], one.enclosing.as_slice(), enclosing)? {
        without(alloc, days, &one.days)
    } else {
        both(alloc, days, days)
    }
}

/// Keeps that a tree was spread, in the place of what was kept of it before.
pub(crate) fn note<'t>(
    alloc: Global,
    kept: &mut Kept<'t>,
    tree: &'t Expr,
    enclosing: &[InstanceId],
    days: &Line<bool>,
) -> Result<(), NoMemory>
    ensures { OnOk result ((s : Shape) (l : Look) (found : OfFound) → IsFound s l found tree.now enclosing.now days.now → AreKept s l found kept.old → AreKept s l found kept.new) }
{
    let made = made_of(alloc, tree, enclosing, days)?;
    put(&mut kept.trees, made)
}

fn made_of<'t>(
    alloc: Global,
    tree: &'t Expr,
    enclosing: &[InstanceId],
    days: &Line<bool>,
) -> Result<SpreadTree<'t>, NoMemory>
    ensures { IfOk result (λ made. (s : Shape) (l : Look) (found : OfFound) → IsFound s l found tree.now enclosing.now days.now → IsFound s l found made.tree.now made.enclosing made.days) }
{
    let mut copied = List::new(alloc);
    for inst in enclosing {
        copied.push(inst.copy(alloc)?)?;
    }
    Ok(SpreadTree {
        tree,
        enclosing: copied,
        days: both(alloc, days, days)?,
    })
}

fn put<'t>(trees: &mut Vec<SpreadTree<'t>>, made: SpreadTree<'t>) -> Result<(), NoMemory>
    ensures { OnOk result ((s : Shape) (l : Look) (found : OfFound) → AreFound s l found trees.old.items → IsFound s l found made.entry.tree.now made.entry.enclosing made.entry.days → AreFound s l found trees.new.items) }
{
    match index_of(trees, made.tree) {
        Some(index) => {
            trees[index] = made;
            Ok(())
        }
        None => {
            trees.push(made)?;
            Ok(())
        }
    }
}

fn index_of<'t>(trees: &[SpreadTree<'t>], tree: &Expr) -> Option<usize>
    ensures { MatchOption result ⊤ (λ index. index < length trees.now) }
{
    trees.iter().position(|one| same_tree(one.tree, tree))
}
