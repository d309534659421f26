// Quantifiers whose lines are kept while a tree is gone through. What a quantifier is seen as depends on the enclosing
// instances only by the places of the entities that it mentions: in nested quantifiers over one list it is the same for
// each member, and going through it anew would take a power of steps.
ghost use Rattle.std.specs.Prelude.{◌≡◌, ◌<◌, length, IfOk, IfSome, MatchOption, OnOk, ⊤};
ghost use Rattle.opa_case.specs.Shapes.{Shape};
ghost use Rattle.opa_date.specs.declared.TheConstants.{DAYS};
ghost use Rattle.opa_line.specs.Lines.{StandsFor};
ghost use Rattle.opa_verify.specs.Listed.Keeping.{AreKept, IsKept};
ghost use Rattle.opa_verify.specs.Listed.Listings.{Listing};
ghost use Rattle.opa_verify.specs.Listed.Shades.{shade};

use crate::listed::alike::is_alike;
use crate::listed::members::same_shades;
use crate::listed::shade::Shade;
use crate::listed::sheet::Sheet;
use opa_case::InstanceId;
use opa_io::{List, NoMemory};
use opa_line::Line;
use opa_mean::same_tree;
use opa_tree::Expr;
use std::alloc::Global;

/// A quantifier, where it was seen, and as what.
#[derive(Drop)]
pub(crate) struct SeenTree<'t> {
    tree: &'t Expr,
    enclosing: List<InstanceId>,
    line: Line<Shade>,
}

/// What is seen of a tree, if it is kept from the same places.
pub(crate) fn kept_line<'t, K: Sheet>(
    alloc: Global,
    sheet: &K,
    kept: &[SeenTree<'t>],
    tree: &Expr,
    enclosing: &[InstanceId],
) -> Result<Option<Line<Shade>>, NoMemory>
    ensures { IfOk result (λ found. AreKept (K.shape sheet.now) (K.listing sheet.now) kept.now → IfSome found (StandsFor DAYS (shade (K.shape sheet.now) (K.listing sheet.now) tree.now enclosing.now))) }
{
    for one in kept {
        if same_tree(one.tree, tree) {
            return line_again(alloc, sheet, one, tree, enclosing);
        }
    }
    Ok(None)
}

fn line_again<'t, K: Sheet>(
    alloc: Global,
    sheet: &K,
    one: &SeenTree<'t>,
    tree: &Expr,
    enclosing: &[InstanceId],
) -> Result<Option<Line<Shade>>, NoMemory>
    ensures { IfOk result (λ found. one.now.tree.now ≡ tree.now → IsKept (K.shape sheet.now) (K.listing sheet.now) one.now → IfSome found (StandsFor DAYS (shade (K.shape sheet.now) (K.listing sheet.now) tree.now enclosing.now))) }
{
    if is_alike(alloc, sheet, tree, &[], one.enclosing.as_slice(), enclosing)? {
        let line = same_shades(alloc, &one.line)?;
        Ok(Some(line))
    } else {
        Ok(None)
    }
}

/// Keeps what is seen of a tree, in the place of what was kept of it before.
pub(crate) fn note<'t>(
    alloc: Global,
    kept: &mut Vec<SeenTree<'t>>,
    tree: &'t Expr,
    enclosing: &[InstanceId],
    line: &Line<Shade>,
) -> Result<(), NoMemory>
    ensures { OnOk result ((s : Shape) (k : Listing) → StandsFor DAYS (shade s k tree.now enclosing.now) line.now → AreKept s k kept.old.items → AreKept s k kept.new.items) }
{
    let made = seen_tree(alloc, tree, enclosing, line)?;
    put(kept, made)
}

fn seen_tree<'t>(
    alloc: Global,
    tree: &'t Expr,
    enclosing: &[InstanceId],
    line: &Line<Shade>,
) -> Result<SeenTree<'t>, NoMemory>
    ensures { IfOk result (λ made. (s : Shape) (k : Listing) → StandsFor DAYS (shade s k tree.now enclosing.now) line.now → IsKept s k made) }
{
    let mut copied = List::new(alloc);
    for inst in enclosing {
        copied.push(inst.copy(alloc)?)?;
    }
    let line = same_shades(alloc, line)?;
    Ok(SeenTree {
        tree,
        enclosing: copied,
        line,
    })
}

fn put<'t>(kept: &mut Vec<SeenTree<'t>>, made: SeenTree<'t>) -> Result<(), NoMemory>
    ensures { OnOk result ((s : Shape) (k : Listing) → AreKept s k kept.old.items → IsKept s k made.entry → AreKept s k kept.new.items) }
{
    match index_of(kept, made.tree) {
        Some(index) => {
            kept[index] = made;
            Ok(())
        }
        None => {
            kept.push(made)?;
            Ok(())
        }
    }
}

fn index_of<'t>(kept: &[SeenTree<'t>], tree: &Expr) -> Option<usize>
    ensures { MatchOption result ⊤ (λ index. index < length kept.now) }
{
    kept.iter().position(|one| same_tree(one.tree, tree))
}
