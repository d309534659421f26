// Rows of tables that are never reached.
ghost use Rattle.std.specs.Prelude.{◌≡◌, ◌+◌, ◌++◌, ◌<◌, ◌≤◌, length, take, IfSome, OnOk};
ghost use Rattle.std.specs.HashMap.{get};
ghost use Rattle.opa_rules.specs.Reviewing.Earlier.{AreKnown};
ghost use Rattle.opa_rules.specs.Reviewing.Rows as meant;
ghost use Rattle.opa_rules.specs.Reviewing.Trees.{same_tree};

use crate::reviewing::earlier::{Earlier, is_always};
use crate::reviewing::finding::{Finding, UnreachedRow};
use crate::same_trees::is_same;
use opa_io::{List, NoMemory};
use opa_tree::{Expr, Row, Rule};
use std::alloc::Global;

/// Whether the row at a place is always true.
fn is_always_at(rows: &[Row], place: usize) -> bool
    ensures { result ≡ meant.is_always_at rows.now place }
{
    match rows.get(place) {
        Some(row) => is_always(&row.cond),
        None => false,
    }
}

/// Whether an earlier row with the same condition has another value.
fn differs(earlier: &Row, row: &Row) -> bool
    ensures { result ≡ meant.differs earlier.now row.now }
{
    !is_always(&earlier.cond) && !is_same(&earlier.value, &row.value)
}

/// Whether the row at a place has another value.
fn differs_at(rows: &[Row], place: usize, row: &Row) -> bool
    ensures { result ≡ meant.differs_at rows.now place row.now }
{
    match rows.get(place) {
        Some(earlier) => differs(earlier, row),
        None => false,
    }
}

/// Adds the row behind others, if one of these leaves nothing to its condition.
fn push_behind(
    findings: &mut List<Finding>,
    rule: &Rule,
    earlier: &[Row],
    row: &Row,
    covering: Option<usize>,
) -> Result<(), NoMemory>
    requires covering { covering ≡ meant.covering earlier.now row.now.cond }
    requires within { IfSome covering (λ n. n < length earlier.now) }
    ensures { OnOk result (findings.new ≡ findings.old ++ meant.of_row rule.now earlier.now row.now) }
{
    match covering {
        None => Ok(()),
        Some(place) => findings.push(Finding::Row(UnreachedRow {
            attr: rule.attr,
            file: rule.file,
            line: rule.line,
            row: earlier.len() + 1,
            earlier: place + 1,
            always: is_always_at(earlier, place),
            differs: differs_at(earlier, place, row),
        })),
    }
}

/// Adds what is found of the row at a place.
fn push_row<'a>(
    findings: &mut List<Finding>,
    known: &mut Earlier<'a>,
    rule: &Rule,
    rows: &'a [Row],
    place: usize,
) -> Result<(), NoMemory>
    requires place { place ≤ length rows.now }
    requires known { AreKnown (take place rows.now) (get same_tree known.old.places) known.old.always }
    ensures found { OnOk result (findings.new ≡ findings.old ++ meant.of_place rule.now rows.now place) }
    ensures known { OnOk result (place < length rows.now → AreKnown (take (place + 1) rows.now) (get same_tree known.new.places) known.new.always) }
{
    match rows.get(place) {
        Some(row) => {
            let covering = known.next(&rows[..place], row)?;
            push_behind(findings, rule, &rows[..place], row, covering)
        }
        None => Ok(()),
    }
}

/// Adds what is found of the rows of a rule.
fn push_rows(
    alloc: Global,
    findings: &mut List<Finding>,
    rule: &Rule,
    rows: &[Row],
) -> Result<(), NoMemory>
    ensures { OnOk result (findings.new ≡ findings.old ++ meant.of_rows rule.now rows.now (length rows.now)) }
{
    let mut known = Earlier::new(alloc);
    for place in 0..rows.len() {
        push_row(findings, &mut known, rule, rows, place)?;
    }
    Ok(())
}

/// The rows of a table; another tree has none.
#[tactic(auto, using(crate::proofs::reviewing::RowLaws::rows_laws))]
fn rows_of(expr: &Expr) -> &[Row]
    ensures { result.now ≡ meant.rows_of expr.now }
{
    match expr {
        Expr::Table(rows, _) => rows.as_slice(),
        Expr::Const(_)
        | Expr::Attr(_)
        | Expr::All(_)
        | Expr::Any(_)
        | Expr::Not(_)
        | Expr::Op(_, _)
        | Expr::Certain(_)
        | Expr::Known(_)
        | Expr::Over(_, _, _)
        | Expr::Window(_, _)
        | Expr::Rolling(_, _, _) => &[],
    }
}

/// Adds the rows of a rule that are never reached.
pub(crate) fn push_rule(
    alloc: Global,
    findings: &mut List<Finding>,
    rule: &Rule,
) -> Result<(), NoMemory>
    ensures { OnOk result (findings.new ≡ findings.old ++ meant.of_rule rule.now) }
{
    push_rows(alloc, findings, rule, rows_of(&rule.expr))
}
