// What a rule can look at, each of it at least once. What a quantifier in the operand of another looks at depends on the
// member by the places of what it mentions: where it has them at the member before, it was gathered there.
ghost use Rattle.std.specs.Prelude.{[], IfOk, IsTrue, OnOk};
ghost use Rattle.opa_case.specs.Shapes.{shape_of};
ghost use Rattle.opa_mean.specs.Gathering.{Gathers, IsGathered, inst_reads, names_reads, over_reads};
ghost use Rattle.opa_mean.specs.Reads.{reads as reads_at, trees_reads, rows_reads};

use crate::alike::over_is_alike;
use crate::declared::{owner_of, source_of, target_of};
use crate::evaluate::within;
use crate::look::Look;
use crate::places::place_in;
use crate::read::{ask_line, ask_list};
use opa_case::{InstanceId, Question};
use opa_io::{List, NoMemory, Txt};
use opa_model::{Model, RelId};
use opa_tree::{Expr, Row};
use std::alloc::Global;

/// Adds what a tree can look at, where it was gathered among the instances that were passed, if there are any.
#[cycle(gathering)]
#[tactic(auto, using(crate::proofs::Gathered::gather_laws))]
pub(crate) fn gather_once<K: Look>(
    alloc: Global,
    model: &Model,
    look: &K,
    found: &mut List<Question>,
    tree: &Expr,
    enclosing: &[InstanceId],
    passed: &[InstanceId],
) -> Result<(), NoMemory>
    ensures { OnOk result (Gathers (reads_at (shape_of model.now) (K.looks look.now).members (K.looks look.now).container tree.now) enclosing.now passed.now found.old found.new) }
{
    match tree {
        Expr::Const(_) => Ok(()),
        Expr::Attr(attr) => match place_in(look, enclosing, owner_of(model, *attr)) {
            None => Ok(()),
            Some(inst) => ask_line(alloc, found, *attr, inst),
        },
        Expr::Over(_, rel, parts) => {
            let operands = parts.as_slice();
            gather_over(alloc, model, look, found, *rel, operands, enclosing, passed)
        }
        Expr::All(parts) | Expr::Any(parts) | Expr::Op(_, parts) | Expr::Window(_, parts) => {
            gather_all(
                alloc,
                model,
                look,
                found,
                parts.as_slice(),
                enclosing,
                passed,
            )
        }
        Expr::Not(part) | Expr::Certain(part) | Expr::Known(part) | Expr::Rolling(_, _, part) => {
            gather_once(alloc, model, look, found, part.get(), enclosing, passed)
        }
        Expr::Table(rows, last) => {
            gather_rows(
                alloc,
                model,
                look,
                found,
                rows.as_slice(),
                enclosing,
                passed,
            )?;
            gather_once(alloc, model, look, found, last.get(), enclosing, passed)
        }
    }
}

/// Adds what each of several trees can look at.
#[cycle(gathering)]
fn gather_all<K: Look>(
    alloc: Global,
    model: &Model,
    look: &K,
    found: &mut List<Question>,
    trees: &[Expr],
    enclosing: &[InstanceId],
    passed: &[InstanceId],
) -> Result<(), NoMemory>
    ensures { OnOk result (Gathers (trees_reads (shape_of model.now) (K.looks look.now).members (K.looks look.now).container trees.now) enclosing.now passed.now found.old found.new) }
{
    for tree in trees {
        gather_once(alloc, model, look, found, tree, enclosing, passed)?;
    }
    Ok(())
}

/// Adds what a quantifier can look at, unless it was gathered.
#[cycle(gathering)]
fn gather_over<K: Look>(
    alloc: Global,
    model: &Model,
    look: &K,
    found: &mut List<Question>,
    rel: RelId,
    parts: &[Expr],
    enclosing: &[InstanceId],
    passed: &[InstanceId],
) -> Result<(), NoMemory>
    ensures { OnOk result (Gathers (over_reads (shape_of model.now) (K.looks look.now).members (K.looks look.now).container rel parts.now) enclosing.now passed.now found.old found.new) }
{
    if was_gathered(alloc, model, look, rel, parts, enclosing, passed)? {
        return Ok(());
    }
    match place_in(look, enclosing, source_of(model, rel)) {
        None => Ok(()),
        Some(inst) => gather_at(alloc, model, look, found, rel, inst, parts, enclosing),
    }
}

/// Whether a quantifier looks at what was gathered.
fn was_gathered<K: Look>(
    alloc: Global,
    model: &Model,
    look: &K,
    rel: RelId,
    parts: &[Expr],
    enclosing: &[InstanceId],
    passed: &[InstanceId],
) -> Result<bool, NoMemory>
    ensures { IfOk result (λ was. IsTrue was → IsGathered (over_reads (shape_of model.now) (K.looks look.now).members (K.looks look.now).container rel parts.now) enclosing.now passed.now) }
{
    if passed.is_empty() {
        return Ok(false);
    }
    over_is_alike(alloc, model, look, rel, parts, enclosing, passed, &[])
}

/// Adds what a quantifier can look at for an instance of its source.
#[cycle(gathering)]
fn gather_at<K: Look>(
    alloc: Global,
    model: &Model,
    look: &K,
    found: &mut List<Question>,
    rel: RelId,
    inst: &InstanceId,
    parts: &[Expr],
    enclosing: &[InstanceId],
) -> Result<(), NoMemory>
    ensures { OnOk result (Gathers (inst_reads (shape_of model.now) (K.looks look.now).members (K.looks look.now).container rel parts.now inst.now) enclosing.now [] found.old found.new) }
{
    ask_list(alloc, found, rel, inst)?;
    match look.members(rel, inst) {
        None => Ok(()),
        Some(names) => {
            let target = target_of(model, rel);
            let listed = names.as_slice();
            gather_listed(alloc, model, look, found, target, listed, parts, enclosing)
        }
    }
}

/// Adds what several trees can look at for each listed instance. Where there is no tree, no instance is looked at.
#[cycle(gathering)]
fn gather_listed<K: Look>(
    alloc: Global,
    model: &Model,
    look: &K,
    found: &mut List<Question>,
    target: u32,
    names: &[Txt],
    trees: &[Expr],
    enclosing: &[InstanceId],
) -> Result<(), NoMemory>
    ensures { OnOk result (Gathers (names_reads (shape_of model.now) (K.looks look.now).members (K.looks look.now).container target trees.now names.now) enclosing.now [] found.old found.new) }
{
    if trees.is_empty() {
        return Ok(());
    }
    let mut last = List::new(alloc);
    for name in names {
        let inner = within(alloc, target, name, enclosing)?;
        gather_all(
            alloc,
            model,
            look,
            found,
            trees,
            inner.as_slice(),
            last.as_slice(),
        )?;
        last = inner;
    }
    Ok(())
}

/// Adds what each of several rows can look at.
#[cycle(gathering)]
fn gather_rows<K: Look>(
    alloc: Global,
    model: &Model,
    look: &K,
    found: &mut List<Question>,
    rows: &[Row],
    enclosing: &[InstanceId],
    passed: &[InstanceId],
) -> Result<(), NoMemory>
    ensures { OnOk result (Gathers (rows_reads (shape_of model.now) (K.looks look.now).members (K.looks look.now).container rows.now) enclosing.now passed.now found.old found.new) }
{
    for row in rows {
        gather_once(alloc, model, look, found, &row.cond, enclosing, passed)?;
        gather_once(alloc, model, look, found, &row.value, enclosing, passed)?;
    }
    Ok(())
}
