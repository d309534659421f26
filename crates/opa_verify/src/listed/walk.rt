//! What is seen of a tree on each day, part by part, over what is listed.
ghost use Rattle.std.specs.Prelude.{◌≡◌, ◌<◌, ◌++◌, ◌∷◌, [], ℕ, IfOk, OnOk, map};
ghost use Rattle.opa_cells.specs.Instances.{named};
ghost use Rattle.opa_date.specs.declared.TheConstants.{DAYS};
ghost use Rattle.opa_line.specs.Lines.{StandsFor};
ghost use Rattle.opa_verify.specs.Listed.Keeping.{Keeps};
ghost use Rattle.opa_verify.specs.Listed.Shades.{Shading as Shadings, shade, table_shade, there, window_shade};
ghost use Rattle.opa_verify.specs.Listed.ShadeLines.{shades_at, shading_of};
ghost use Rattle.opa_mean.specs.Spans as spans;
ghost use Rattle.opa_verify.specs.Listed.Walks.{item_shades_at, over_seen_at, row_shading, tree_shades};

use crate::listed::joins::{decided_line, strict_line, taken_line};
use crate::listed::kept::{SeenTree, kept_line, note};
use crate::listed::members::{item_shades, quantified_shades, same_shades};
use crate::listed::ones::{certain_shades, dated_shades, known_shades, not_shades};
use crate::listed::shade::Shade;
use crate::listed::sheet::{Listed, Sheet};
use crate::listed::windows::{date_shades, rolling_shades, span_shades};
use opa_case::InstanceId;
use opa_io::{List, NoMemory, Txt};
use opa_line::Line;
use opa_model::{EntityId, RelId};
use opa_tree::{Expr, Quant, Row, WinKind};
use opa_value::Value;
use std::alloc::Global;

/// What is seen of a tree.
pub fn shade_line<K: Sheet>(
    alloc: Global,
    sheet: &K,
    tree: &Expr,
    enclosing: &[InstanceId],
) -> Result<Line<Shade>, NoMemory>
    ensures { IfOk result (StandsFor DAYS (shade (K.shape sheet.now) (K.listing sheet.now) tree.now enclosing.now)) }
{
    let mut kept = Vec::new(alloc);
    let line = shade_among(alloc, sheet, tree, enclosing, &mut kept)?;
    Ok(line)
}

/// The same, with the quantifiers that were seen and are kept.
#[cycle(down)]
fn shade_among<'t, K: Sheet>(
    alloc: Global,
    sheet: &K,
    tree: &'t Expr,
    enclosing: &[InstanceId],
    kept: &mut Vec<SeenTree<'t>>,
) -> Result<Line<Shade>, NoMemory>
    ensures { IfOk result (λ l. Keeps (K.shape sheet.now) (K.listing sheet.now) kept.old.items kept.new.items (StandsFor DAYS (shade (K.shape sheet.now) (K.listing sheet.now) tree.now enclosing.now) l)) }
{
    if !is_quantifier(tree) {
        return shade_tree(alloc, sheet, tree, enclosing, kept);
    }
    match kept_line(alloc, sheet, kept, tree, enclosing)? {
        Some(line) => Ok(line),
        None => {
            let line = shade_tree(alloc, sheet, tree, enclosing, kept)?;
            note(alloc, kept, tree, enclosing, &line)?;
            Ok(line)
        }
    }
}

fn is_quantifier(tree: &Expr) -> bool {
    matches!(tree, Expr::Over(_, _, _))
}

/// What is seen of a tree by its parts.
#[cycle(down)]
fn shade_tree<'t, K: Sheet>(
    alloc: Global,
    sheet: &K,
    tree: &'t Expr,
    enclosing: &[InstanceId],
    kept: &mut Vec<SeenTree<'t>>,
) -> Result<Line<Shade>, NoMemory>
    ensures { IfOk result (λ l. Keeps (K.shape sheet.now) (K.listing sheet.now) kept.old.items kept.new.items (StandsFor DAYS (shade (K.shape sheet.now) (K.listing sheet.now) tree.now enclosing.now) l)) }
{
    match tree {
        Expr::Const(value) => there_line(alloc, value),
        Expr::Attr(attr) => sheet.attribute(alloc, *attr, enclosing),
        Expr::All(parts) => {
            let lines = shade_lines(alloc, sheet, parts.as_slice(), enclosing, kept)?;
            decided_line(alloc, true, &lines)
        }
        Expr::Any(parts) => {
            let lines = shade_lines(alloc, sheet, parts.as_slice(), enclosing, kept)?;
            decided_line(alloc, false, &lines)
        }
        Expr::Not(part) => {
            let line = shade_among(alloc, sheet, part.get(), enclosing, kept)?;
            not_shades(alloc, &line)
        }
        Expr::Op(kind, parts) => {
            let lines = shade_lines(alloc, sheet, parts.as_slice(), enclosing, kept)?;
            strict_line(alloc, *kind, &lines)
        }
        Expr::Certain(part) => {
            let line = shade_among(alloc, sheet, part.get(), enclosing, kept)?;
            certain_shades(alloc, &line)
        }
        Expr::Known(part) => {
            let line = shade_among(alloc, sheet, part.get(), enclosing, kept)?;
            known_shades(alloc, &line)
        }
        Expr::Over(quant, rel, parts) => {
            shade_over(
                alloc,
                sheet,
                *quant,
                *rel,
                parts.as_slice(),
                enclosing,
                kept,
            )
        }
        Expr::Window(kind, parts) => {
            let lines = shade_lines(alloc, sheet, parts.as_slice(), enclosing, kept)?;
            window_shades(alloc, *kind, &lines)
        }
        Expr::Rolling(always, count, part) => {
            let line = shade_among(alloc, sheet, part.get(), enclosing, kept)?;
            rolling_shades(alloc, *always, *count, &line)
        }
        Expr::Table(rows, last) => {
            let line = shade_among(alloc, sheet, last.get(), enclosing, kept)?;
            shade_rows(alloc, sheet, rows.as_slice(), &line, enclosing, kept)
        }
    }
}

/// What is seen of several trees.
#[cycle(down)]
fn shade_lines<'t, K: Sheet>(
    alloc: Global,
    sheet: &K,
    trees: &'t [Expr],
    enclosing: &[InstanceId],
    kept: &mut Vec<SeenTree<'t>>,
) -> Result<Vec<Line<Shade>>, NoMemory>
    ensures { IfOk result (λ ls. Keeps (K.shape sheet.now) (K.listing sheet.now) kept.old.items kept.new.items ((d : ℕ) → d < DAYS → shades_at ls.items d ≡ tree_shades (K.shape sheet.now) (K.listing sheet.now) trees.now enclosing.now d)) }
{
    let mut lines = Vec::new(alloc);
    for tree in trees {
        let line = shade_among(alloc, sheet, tree, enclosing, kept)?;
        add(&mut lines, line)?;
    }
    Ok(lines)
}

/// What is seen of a quantifier.
#[cycle(down)]
fn shade_over<'t, K: Sheet>(
    alloc: Global,
    sheet: &K,
    quant: Quant,
    rel: RelId,
    trees: &'t [Expr],
    enclosing: &[InstanceId],
    kept: &mut Vec<SeenTree<'t>>,
) -> Result<Line<Shade>, NoMemory>
    ensures { IfOk result (λ l. Keeps (K.shape sheet.now) (K.listing sheet.now) kept.old.items kept.new.items (StandsFor DAYS (λ d. over_seen_at (K.shape sheet.now) (K.listing sheet.now) quant rel trees.now enclosing.now d) l)) }
{
    match sheet.members(alloc, rel, enclosing)? {
        Listed::Missing => Line::constant(alloc, Shade::gone()),
        Listed::Nowhere => Line::constant(alloc, Shade::there(Value::Uncertain)),
        Listed::Unknown => Line::constant(alloc, Shade::there(Value::Unknown)),
        Listed::Known(names) => {
            let target = sheet.target(rel);
            let lines = shade_items(
                alloc,
                sheet,
                quant,
                target,
                names.as_slice(),
                trees,
                enclosing,
                kept,
            )?;
            quantified_shades(alloc, quant, &lines)
        }
    }
}

/// What a quantifier makes of each listed instance, with it as the innermost enclosing one.
#[cycle(down)]
fn shade_items<'t, K: Sheet>(
    alloc: Global,
    sheet: &K,
    quant: Quant,
    target: u32,
    names: &[Txt],
    trees: &'t [Expr],
    enclosing: &[InstanceId],
    kept: &mut Vec<SeenTree<'t>>,
) -> Result<Vec<Line<Shade>>, NoMemory>
    ensures { IfOk result (λ ls. Keeps (K.shape sheet.now) (K.listing sheet.now) kept.old.items kept.new.items ((d : ℕ) → d < DAYS → shades_at ls.items d ≡ item_shades_at (K.shape sheet.now) (K.listing sheet.now) quant target names.now trees.now enclosing.now d)) }
{
    let mut items = Vec::new(alloc);
    for name in names {
        let inner = within(alloc, target, name, enclosing)?;
        let lines = shade_lines(alloc, sheet, trees, inner.as_slice(), kept)?;
        let item = item_shades(alloc, quant, &lines)?;
        add(&mut items, item)?;
    }
    Ok(items)
}

/// What is seen of the rows of a table before what stands behind them.
#[cycle(down)]
fn shade_rows<'t, K: Sheet>(
    alloc: Global,
    sheet: &K,
    rows: &'t [Row],
    behind: &Line<Shade>,
    enclosing: &[InstanceId],
    kept: &mut Vec<SeenTree<'t>>,
) -> Result<Line<Shade>, NoMemory>
    ensures { IfOk result (λ l. Keeps (K.shape sheet.now) (K.listing sheet.now) kept.old.items kept.new.items ((last : Shadings) → StandsFor DAYS (last enclosing.now) behind.now → StandsFor DAYS (table_shade (map (row_shading (K.shape sheet.now) (K.listing sheet.now)) rows.now) last enclosing.now) l)) }
{
    let mut line = same_shades(alloc, behind)?;
    let mut place = rows.len();
    while place > 0 {
        place -= 1;
        let row = &rows[place];
        let cond = shade_among(alloc, sheet, &row.cond, enclosing, kept)?;
        let value = shade_among(alloc, sheet, &row.value, enclosing, kept)?;
        line = taken_line(alloc, &cond, &value, &line)?;
    }
    Ok(line)
}

fn there_line(alloc: Global, value: &Value) -> Result<Line<Shade>, NoMemory>
    ensures { IfOk result (StandsFor DAYS (λ d. there value.now)) }
{
    Line::constant(alloc, Shade::there(value.copy(alloc)?))
}

/// A function over time.
fn window_shades(
    alloc: Global,
    kind: WinKind,
    lines: &[Line<Shade>],
) -> Result<Line<Shade>, NoMemory>
    ensures { IfOk result (StandsFor DAYS (window_shade kind (map shading_of lines.now) [])) }
{
    match lines {
        [date] => dated_shades(alloc, kind, date),
        [date, x] => {
            if kind == WinKind::ValueAt {
                date_shades(alloc, date, x)
            } else {
                Line::constant(alloc, Shade::there(Value::Uncertain))
            }
        }
        [start, end, x] => {
            if has_span(kind) {
                span_shades(alloc, kind, start, end, x)
            } else {
                Line::constant(alloc, Shade::there(Value::Uncertain))
            }
        }
        [] => Line::constant(alloc, Shade::there(Value::Uncertain)),
        [_, _, _, _, ..] => Line::constant(alloc, Shade::there(Value::Uncertain)),
    }
}

fn has_span(kind: WinKind) -> bool
    ensures { result ≡ spans.has_span kind }
{
    match kind {
        WinKind::Always
        | WinKind::Sometimes
        | WinKind::DailySum
        | WinKind::Maximum
        | WinKind::Minimum
        | WinKind::ConsecutiveDays => true,
        WinKind::Before | WinKind::OnOrAfter | WinKind::YearsSince | WinKind::ValueAt => false,
    }
}

/// An instance before the enclosing ones.
fn within(
    alloc: Global,
    entity: u32,
    name: &Txt,
    enclosing: &[InstanceId],
) -> Result<List<InstanceId>, NoMemory>
    ensures { IfOk result (λ all. all ≡ named entity name.now ∷ enclosing.now) }
{
    let mut all = List::new(alloc);
    all.push(InstanceId {
        entity: EntityId(entity),
        name: name.copy(alloc)?,
    })?;
    for inst in enclosing {
        all.push(inst.copy(alloc)?)?;
    }
    Ok(all)
}

fn add(lines: &mut Vec<Line<Shade>>, line: Line<Shade>) -> Result<(), NoMemory>
    ensures { OnOk result (lines.new.items ≡ lines.old.items ++ line ∷ []) }
{
    lines.push(line)?;
    Ok(())
}
