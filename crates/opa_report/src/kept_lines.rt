// Lines of trees that hold a quantifier, kept while the members of a list are gone through. Such a line depends on the
// enclosing instances only by the places of the entities that the tree mentions: where they are those of an earlier
// member, making it anew would go through the inner list once more for each.
ghost use Rattle.std.specs.Prelude.{◌≡◌, ◌<◌, length, IfOk, IfSome, MatchOption, OnOk, ⊤};
ghost use Rattle.std.specs.List.{AllByRecursion};
ghost use Rattle.opa_case.specs.Shapes.{Shape};
ghost use Rattle.opa_date.specs.declared.TheConstants.{DAYS};
ghost use Rattle.opa_line.specs.Lines.{StandsFor};
ghost use Rattle.opa_mean.specs.Looks.{Look};
ghost use Rattle.opa_mean.specs.Meaning.{value};
ghost use Rattle.opa_report.specs.Keeping.{AreKept, AreKeptLines, IsLine, StayKept};
ghost use Rattle.opa_report.specs.declared.found.Found.{Found as OfFound};

use crate::Sight;
use crate::alike::is_alike;
use crate::held::same_line;
use crate::kept::Kept;
use crate::quantified::has_quantifier;
use opa_case::InstanceId;
use opa_io::{List, NoMemory};
use opa_line::Line;
use opa_mean::same_tree;
use opa_tree::Expr;
use opa_value::Value;
use std::alloc::Global;

/// The line of a tree, and where it was made.
#[derive(Drop)]
pub(crate) struct KeptLine<'t> {
    tree: &'t Expr,
    enclosing: List<InstanceId>,
    line: Line<Value>,
}

/// The line of a tree for one of several members.
pub(crate) fn line_of<'t, S: Sight>(
    alloc: Global,
    sight: &S,
    kept: &mut Kept<'t>,
    tree: &'t Expr,
    enclosing: &[InstanceId],
) -> Result<Line<Value>, NoMemory>
    ensures line { IfOk result (λ line. AllByRecursion (S.live sight.now) enclosing.now → AreKeptLines (S.shape sight.now) (S.look sight.now) kept.old.lines.items → StandsFor DAYS (value (S.shape sight.now) (S.look sight.now) tree.now enclosing.now) line) }
    ensures stay { OnOk result (AllByRecursion (S.live sight.now) enclosing.now → StayKept (S.shape sight.now) (S.look sight.now) kept.old kept.new) }
{
    if !kept.is_among() || !has_quantifier(tree) {
        return sight.tree_line(alloc, tree, enclosing);
    }
    let found = kept_line(alloc, sight, &kept.lines, tree, enclosing)?;
    match found {
        Some(line) => Ok(line),
        None => new_line(alloc, sight, kept, tree, enclosing),
    }
}

/// The line that is kept of a tree, if what it mentions has the same places.
fn kept_line<'t, S: Sight>(
    alloc: Global,
    sight: &S,
    kept: &[KeptLine<'t>],
    tree: &Expr,
    enclosing: &[InstanceId],
) -> Result<Option<Line<Value>>, NoMemory>
    ensures { IfOk result (λ found. IfSome found (λ line. AreKeptLines (S.shape sight.now) (S.look sight.now) kept.now → StandsFor DAYS (value (S.shape sight.now) (S.look sight.now) tree.now enclosing.now) line)) }
{
    for one in kept {
        if same_tree(one.tree, tree) {
            return line_if_alike(alloc, sight, one, tree, enclosing);
        }
    }
    Ok(None)
}

fn line_if_alike<'t, S: Sight>(
    alloc: Global,
    sight: &S,
    one: &KeptLine<'t>,
    tree: &Expr,
    enclosing: &[InstanceId],
) -> Result<Option<Line<Value>>, NoMemory>
    ensures { IfOk result (λ found. IfSome found (λ line. one.now.tree.now ≡ tree.now → IsLine (S.shape sight.now) (S.look sight.now) one.now → StandsFor DAYS (value (S.shape sight.now) (S.look sight.now) tree.now enclosing.now) line)) }
{
    if is_alike(alloc, sight, tree, &[], one.enclosing.as_slice(), enclosing)? {
        let line = same_line(alloc, &one.line)?;
        Ok(Some(line))
    } else {
        Ok(None)
    }
}

/// Makes a line, and keeps it.
fn new_line<'t, S: Sight>(
    alloc: Global,
    sight: &S,
    kept: &mut Kept<'t>,
    tree: &'t Expr,
    enclosing: &[InstanceId],
) -> Result<Line<Value>, NoMemory>
    ensures line { IfOk result (λ line. AllByRecursion (S.live sight.now) enclosing.now → StandsFor DAYS (value (S.shape sight.now) (S.look sight.now) tree.now enclosing.now) line) }
    ensures stay { OnOk result (AllByRecursion (S.live sight.now) enclosing.now → StayKept (S.shape sight.now) (S.look sight.now) kept.old kept.new) }
{
    let line = sight.tree_line(alloc, tree, enclosing)?;
    let made = made_of(alloc, tree, enclosing, &line)?;
    put(&mut kept.lines, made)?;
    Ok(line)
}

fn made_of<'t>(
    alloc: Global,
    tree: &'t Expr,
    enclosing: &[InstanceId],
    line: &Line<Value>,
) -> Result<KeptLine<'t>, NoMemory>
    ensures { IfOk result (λ made. (s : Shape) (l : Look) → StandsFor DAYS (value s l tree.now enclosing.now) line.now → IsLine s l made) }
{
    let mut copied = List::new(alloc);
    for inst in enclosing {
        copied.push(inst.copy(alloc)?)?;
    }
    let line = same_line(alloc, line)?;
    Ok(KeptLine {
        tree,
        enclosing: copied,
        line,
    })
}

/// Puts a line in the place of what was kept of its tree before.
fn put<'t>(lines: &mut Vec<KeptLine<'t>>, made: KeptLine<'t>) -> Result<(), NoMemory>
    ensures { OnOk result ((s : Shape) (l : Look) → AreKeptLines s l lines.old.items → IsLine s l made.entry → AreKeptLines s l lines.new.items) }
{
    match index_of(lines, made.tree) {
        Some(index) => {
            lines[index] = made;
            Ok(())
        }
        None => {
            lines.push(made)?;
            Ok(())
        }
    }
}

fn index_of<'t>(lines: &[KeptLine<'t>], tree: &Expr) -> Option<usize>
    ensures { MatchOption result ⊤ (λ index. index < length lines.now) }
{
    lines.iter().position(|one| same_tree(one.tree, tree))
}
