// The lines of the parts of a tree, each made once.
ghost use Rattle.std.specs.Prelude.{◌≡◌, ◌&&◌, length, not, IfOk, OnOk};
ghost use Rattle.std.specs.List.{AllByRecursion, list_any};
ghost use Rattle.opa_date.specs.declared.TheConstants.{DAYS};
ghost use Rattle.opa_line.specs.Lines.{StandsFor};
ghost use Rattle.opa_report.specs.DaySets.Sets.{on};
ghost use Rattle.opa_report.specs.Keeping.{AreKept, StayKept};
ghost use Rattle.opa_report.specs.Spreading as meant;
ghost use Rattle.opa_report.specs.declared.found.Found.{Found as OfFound};
ghost use Rattle.opa_window.specs.Days.{day_value};

use crate::Sight;
use crate::choices::without_truth;
use crate::day_sets::both;
use crate::kept::Kept;
use crate::kept_lines::line_of;
use opa_case::InstanceId;
use opa_io::{List, NoMemory};
use opa_line::Line;
use opa_tree::Expr;
use opa_value::Value;
use std::alloc::Global;

/// The lines of several trees.
pub(crate) fn lines_of<'t, S: Sight>(
    alloc: Global,
    sight: &S,
    trees: &'t [Expr],
    enclosing: &[InstanceId],
    kept: &mut Kept<'t>,
) -> Result<List<Line<Value>>, NoMemory>
    ensures many { IfOk result (λ lines. length lines ≡ length trees.now) }
    ensures lines { IfOk result (λ lines. AllByRecursion (S.live sight.now) enclosing.now → (found : OfFound) → AreKept (S.shape sight.now) (S.look sight.now) found kept.old → meant.AreLines (S.shape sight.now) (S.look sight.now) enclosing.now trees.now lines) }
    ensures stay { OnOk result (AllByRecursion (S.live sight.now) enclosing.now → StayKept (S.shape sight.now) (S.look sight.now) kept.old kept.new) }
{
    let mut lines = List::new(alloc);
    for tree in trees {
        let line = line_of(alloc, sight, kept, tree, enclosing)?;
        lines.push(line)?;
    }
    Ok(lines)
}

/// The days of a set on which none of several lines has a truth value.
pub(crate) fn undecided_days(
    alloc: Global,
    lines: &[Line<Value>],
    truth: bool,
    days: &Line<bool>,
) -> Result<Line<bool>, NoMemory>
    ensures { IfOk result (StandsFor DAYS (λ d. on days.now d && not (list_any (λ line. meant.is_truth truth (day_value line d)) lines.now))) }
{
    let mut undecided = both(alloc, days, days)?;
    for line in lines {
        undecided = without_truth(alloc, &undecided, line, truth)?;
    }
    Ok(undecided)
}
