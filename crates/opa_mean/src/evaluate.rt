//! A tree's value at one day, part by part, over what is looked up.
ghost use Rattle.std.specs.Prelude.{◌≡◌, ◌∷◌, ◌++◌, [], IfOk, OnOk, map, unwrap_or, Some};
ghost use Rattle.opa_case.specs.Shapes.{shape_of};
ghost use Rattle.opa_cells.specs.Instances.{named};
ghost use Rattle.opa_window.specs.Days.{over_days};
ghost use Rattle.opa_mean.specs.Meaning.{Meaning, value, each, item as item_of, over, window, table, row_meaning, certain_of, known_of};
ghost use Rattle.opa_mean.specs.Operations.{op_of};
ghost use Rattle.opa_value.specs.Truth.{strict};
ghost use Rattle.opa_window.specs.Windows.{value_at, in_window};
ghost use Rattle.opa_mean.specs.Spans.{span_fold};

use crate::Look;
use crate::calendar_day::CalendarDay;
use crate::declared::{owner_of, source_of, target_of};
use crate::folds::{all_of, any_of, unless_open};
use crate::look::looked_up;
use crate::operations::op;
use crate::places::place_in;
use crate::quantifiers::{item, quantified};
use crate::spans::{Dates, Span, between};
use crate::windows::{dated, folded, has_span};
use opa_case::InstanceId;
use opa_date::DAYS;
use opa_io::{List, NoMemory, Txt};
use opa_model::{EntityId, Model};
use opa_tree::{Expr, OpKind, Quant, Row, WinKind};
use opa_value::Value;
use std::alloc::Global;

/// The value of a tree.
#[cycle(down)]
#[tactic(auto, using(crate::proofs::Values::values))]
pub(crate) fn evaluate<K: Look>(
    alloc: Global,
    model: &Model,
    look: &K,
    tree: &Expr,
    enclosing: &[InstanceId],
    day: CalendarDay,
) -> Result<Value, NoMemory>
    ensures { IfOk result (λ v. v ≡ value (shape_of model.now) (K.looks look.now) tree.now enclosing.now day) }
{
    match tree {
        Expr::Const(value) => value.copy(alloc),
        Expr::Attr(attr) => match place_in(look, enclosing, owner_of(model, *attr)) {
            None => Ok(Value::Uncertain),
            Some(inst) => looked_up(alloc, look, *attr, inst, day),
        },
        Expr::All(parts) => {
            let values = evaluate_each(alloc, model, look, parts.as_slice(), enclosing, day)?;
            Ok(all_of(&values))
        }
        Expr::Any(parts) => {
            let values = evaluate_each(alloc, model, look, parts.as_slice(), enclosing, day)?;
            Ok(any_of(&values))
        }
        Expr::Not(part) => {
            let value = evaluate(alloc, model, look, part.get(), enclosing, day)?;
            Ok(Value::not(&value))
        }
        Expr::Op(kind, parts) => {
            let values = evaluate_each(alloc, model, look, parts.as_slice(), enclosing, day)?;
            operated(alloc, *kind, &values)
        }
        Expr::Certain(part) => {
            let value = evaluate(alloc, model, look, part.get(), enclosing, day)?;
            Ok(certain(&value))
        }
        Expr::Known(part) => {
            let value = evaluate(alloc, model, look, part.get(), enclosing, day)?;
            Ok(known(&value))
        }
        Expr::Over(quant, rel, parts) => {
            match place_in(look, enclosing, source_of(model, *rel)) {
                None => Ok(Value::Uncertain),
                Some(inst) => match look.members(*rel, inst) {
                    None => Ok(Value::Unknown),
                    Some(names) => {
                        let target = target_of(model, *rel);
                        evaluate_over(
                            alloc,
                            model,
                            look,
                            *quant,
                            target,
                            names.as_slice(),
                            parts.as_slice(),
                            enclosing,
                            day,
                        )
                    }
                },
            }
        }
        Expr::Window(kind, parts) => {
            evaluate_window(alloc, model, look, *kind, parts.as_slice(), enclosing, day)
        }
        Expr::Rolling(always, count, part) => {
            let span = Span::last_days(*count, day);
            let values = evaluate_days(alloc, model, look, part.get(), enclosing, span)?;
            Ok(if *always {
                all_of(&values)
            } else {
                any_of(&values)
            })
        }
        Expr::Table(rows, last) => {
            match evaluate_rows(alloc, model, look, rows.as_slice(), enclosing, day)? {
                Some(value) => Ok(value),
                None => evaluate(alloc, model, look, last.get(), enclosing, day),
            }
        }
    }
}

/// The values of several trees.
#[cycle(down)]
fn evaluate_each<K: Look>(
    alloc: Global,
    model: &Model,
    look: &K,
    trees: &[Expr],
    enclosing: &[InstanceId],
    day: CalendarDay,
) -> Result<Vec<Value>, NoMemory>
    ensures { IfOk result (λ vs. vs.items ≡ map (λ e. value (shape_of model.now) (K.looks look.now) e enclosing.now day) trees.now) }
{
    let mut values = Vec::new(alloc);
    for tree in trees {
        let value = evaluate(alloc, model, look, tree, enclosing, day)?;
        add(&mut values, value)?;
    }
    Ok(values)
}

/// A quantifier over a known list.
#[cycle(down)]
fn evaluate_over<K: Look>(
    alloc: Global,
    model: &Model,
    look: &K,
    quant: Quant,
    target: u32,
    names: &[Txt],
    trees: &[Expr],
    enclosing: &[InstanceId],
    day: CalendarDay,
) -> Result<Value, NoMemory>
    ensures { IfOk result (λ v. v ≡ over quant target (Some names.now) (map (value (shape_of model.now) (K.looks look.now)) trees.now) enclosing.now day) }
{
    let items = evaluate_items(
        alloc, model, look, quant, target, names, trees, enclosing, day,
    )?;
    quantified(alloc, quant, &items)
}

/// What a quantifier makes of each listed instance, with it as the innermost enclosing one.
#[cycle(down)]
fn evaluate_items<K: Look>(
    alloc: Global,
    model: &Model,
    look: &K,
    quant: Quant,
    target: u32,
    names: &[Txt],
    trees: &[Expr],
    enclosing: &[InstanceId],
    day: CalendarDay,
) -> Result<Vec<Value>, NoMemory>
    ensures { IfOk result (λ vs. vs.items ≡ map (λ n. item_of quant (each (map (value (shape_of model.now) (K.looks look.now)) trees.now) (named target n ∷ enclosing.now) day)) names.now) }
{
    let mut items = Vec::new(alloc);
    for name in names {
        let inner = within(alloc, target, name, enclosing)?;
        let values = evaluate_each(alloc, model, look, trees, inner.as_slice(), day)?;
        add(&mut items, item(alloc, quant, &values)?)?;
    }
    Ok(items)
}

/// The values of a tree on the days of a span.
#[cycle(down)]
fn evaluate_days<K: Look>(
    alloc: Global,
    model: &Model,
    look: &K,
    tree: &Expr,
    enclosing: &[InstanceId],
    span: Span,
) -> Result<Vec<Value>, NoMemory>
    ensures { IfOk result (λ vs. vs.items ≡ over_days (value (shape_of model.now) (K.looks look.now) tree.now enclosing.now) span.0 span.1) }
{
    let mut values = Vec::new(alloc);
    let mut day = span.first();
    while day < span.end() {
        let value = evaluate(alloc, model, look, tree, enclosing, CalendarDay::new(day))?;
        add(&mut values, value)?;
        day += 1;
    }
    Ok(values)
}

/// A function over time.
#[cycle(down)]
fn evaluate_window<K: Look>(
    alloc: Global,
    model: &Model,
    look: &K,
    kind: WinKind,
    trees: &[Expr],
    enclosing: &[InstanceId],
    day: CalendarDay,
) -> Result<Value, NoMemory>
    ensures { IfOk result (λ v. v ≡ window kind (map (value (shape_of model.now) (K.looks look.now)) trees.now) enclosing.now day) }
{
    match trees {
        [date] => {
            let date = evaluate(alloc, model, look, date, enclosing, day)?;
            Ok(dated(kind, &date, day))
        }
        [date, x] if kind == WinKind::ValueAt => {
            let date = evaluate(alloc, model, look, date, enclosing, day)?;
            evaluate_at(alloc, model, look, &date, x, enclosing)
        }
        [start, end, x] if has_span(kind) => {
            let start = evaluate(alloc, model, look, start, enclosing, day)?;
            let end = evaluate(alloc, model, look, end, enclosing, day)?;
            evaluate_between(alloc, model, look, kind, &start, &end, x, enclosing)
        }
        _ => Ok(Value::Uncertain),
    }
}

/// What a function makes of a tree's values between two dates.
#[cycle(down)]
fn evaluate_between<K: Look>(
    alloc: Global,
    model: &Model,
    look: &K,
    kind: WinKind,
    start: &Value,
    end: &Value,
    tree: &Expr,
    enclosing: &[InstanceId],
) -> Result<Value, NoMemory>
    ensures { IfOk result (λ v. v ≡ in_window (span_fold kind) (value (shape_of model.now) (K.looks look.now) tree.now enclosing.now) start.now end.now) }
{
    match between(start, end) {
        Dates::Open(value) => Ok(value),
        Dates::Between(span) => {
            let values = evaluate_days(alloc, model, look, tree, enclosing, span)?;
            folded(alloc, kind, &values)
        }
    }
}

/// A tree's value at a date.
#[cycle(down)]
fn evaluate_at<K: Look>(
    alloc: Global,
    model: &Model,
    look: &K,
    date: &Value,
    tree: &Expr,
    enclosing: &[InstanceId],
) -> Result<Value, NoMemory>
    ensures { IfOk result (λ v. v ≡ value_at (value (shape_of model.now) (K.looks look.now) tree.now enclosing.now) date.now) }
{
    match date {
        Value::Unknown => Ok(Value::Unknown),
        Value::Day(day) if *day < DAYS => {
            evaluate(alloc, model, look, tree, enclosing, CalendarDay::new(*day))
        }
        _ => Ok(Value::Uncertain),
    }
}

/// The value that the rows of a table give; none where each condition is false. The rows are tried in order.
#[cycle(down)]
fn evaluate_rows<K: Look>(
    alloc: Global,
    model: &Model,
    look: &K,
    rows: &[Row],
    enclosing: &[InstanceId],
    day: CalendarDay,
) -> Result<Option<Value>, NoMemory>
    ensures { IfOk result (λ taken. (last : Meaning) → table (map (row_meaning (shape_of model.now) (K.looks look.now)) rows.now) last enclosing.now day ≡ unwrap_or taken (last enclosing.now day)) }
{
    for row in rows {
        match evaluate(alloc, model, look, &row.cond, enclosing, day)? {
            Value::Bool(true) => {
                return Ok(Some(evaluate(alloc, model, look, &row.value, enclosing, day)?));
            }
            Value::Bool(false) => {}
            Value::Unknown => return Ok(Some(Value::Unknown)),
            _ => return Ok(Some(Value::Uncertain)),
        }
    }
    Ok(None)
}

/// An instance before the enclosing ones.
pub fn within(
    alloc: Global,
    entity: u32,
    name: &Txt,
    enclosing: &[InstanceId],
) -> Result<List<InstanceId>, NoMemory>
    ensures { IfOk result (λ all. all ≡ named entity name.now ∷ enclosing.now) }
{
    let mut all = List::new(alloc);
    all.push(InstanceId {
        entity: EntityId(entity),
        name: name.copy(alloc)?,
    })?;
    for inst in enclosing {
        all.push(inst.copy(alloc)?)?;
    }
    Ok(all)
}

fn add(values: &mut Vec<Value>, value: Value) -> Result<(), NoMemory>
    ensures { OnOk result (values.new.items ≡ values.old.items ++ value ∷ []) }
{
    values.push(value)?;
    Ok(())
}

/// A strict operation.
fn operated(alloc: Global, kind: OpKind, values: &[Value]) -> Result<Value, NoMemory>
    ensures { IfOk result (λ v. v ≡ strict (op_of kind) values.now) }
{
    let plain = op(alloc, kind, values)?;
    Ok(unless_open(values, plain))
}

fn certain(value: &Value) -> Value
    ensures { result ≡ certain_of value.now }
{
    match value {
        Value::Unknown => Value::Unknown,
        Value::Uncertain => Value::Bool(false),
        _ => Value::Bool(true),
    }
}

fn known(value: &Value) -> Value
    ensures { result ≡ known_of value.now }
{
    match value {
        Value::Unknown => Value::Bool(false),
        _ => Value::Bool(true),
    }
}
