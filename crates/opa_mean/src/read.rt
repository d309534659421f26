// What a rule can look at.
ghost use Rattle.std.specs.Prelude.{◌≡◌, ◌++◌, ◌∷◌, [], flat_map, IfOk, OnOk};
ghost use Rattle.opa_cells.specs.Instances.{named};
ghost use Rattle.opa_case.specs.Shapes.{shape_of};
ghost use Rattle.opa_case.specs.declared.question.Question.TheVariants as questions;
ghost use Rattle.opa_mean.specs.Reads.{reads as reads_at, trees_reads, rows_reads};

use crate::declared::{owner_of, source_of, target_of};
use crate::evaluate::within;
use crate::look::Look;
use crate::places::place_in;
use opa_case::{InstanceId, Question};
use opa_io::{List, NoMemory, Txt};
use opa_model::{AttrId, Model, RelId};
use opa_tree::{Expr, Row};
use std::alloc::Global;

/// Adds what a tree can look at.
#[cycle(walk)]
#[tactic(auto, using(crate::proofs::ReadLaws::read_laws))]
pub(crate) fn gather<K: Look>(
    alloc: Global,
    model: &Model,
    look: &K,
    found: &mut List<Question>,
    tree: &Expr,
    enclosing: &[InstanceId],
) -> Result<(), NoMemory>
    ensures { OnOk result (found.new ≡ found.old ++ reads_at (shape_of model.now) (K.looks look.now).members (K.looks look.now).container tree.now enclosing.now) }
{
    match tree {
        Expr::Const(_) => Ok(()),
        Expr::Attr(attr) => match place_in(look, enclosing, owner_of(model, *attr)) {
            None => Ok(()),
            Some(inst) => ask_line(alloc, found, *attr, inst),
        },
        Expr::Over(_, rel, parts) => match place_in(look, enclosing, source_of(model, *rel)) {
            None => Ok(()),
            Some(inst) => {
                ask_list(alloc, found, *rel, inst)?;
                match look.members(*rel, inst) {
                    None => Ok(()),
                    Some(names) => {
                        let target = target_of(model, *rel);
                        gather_listed(
                            alloc,
                            model,
                            look,
                            found,
                            target,
                            names.as_slice(),
                            parts.as_slice(),
                            enclosing,
                        )
                    }
                }
            }
        },
        Expr::All(parts) | Expr::Any(parts) | Expr::Op(_, parts) | Expr::Window(_, parts) => {
            gather_all(alloc, model, look, found, parts.as_slice(), enclosing)
        }
        Expr::Not(part) | Expr::Certain(part) | Expr::Known(part) | Expr::Rolling(_, _, part) => {
            gather(alloc, model, look, found, part.get(), enclosing)
        }
        Expr::Table(rows, last) => {
            gather_rows(alloc, model, look, found, rows.as_slice(), enclosing)?;
            gather(alloc, model, look, found, last.get(), enclosing)
        }
    }
}

/// Adds what each of several trees can look at.
#[cycle(walk)]
fn gather_all<K: Look>(
    alloc: Global,
    model: &Model,
    look: &K,
    found: &mut List<Question>,
    trees: &[Expr],
    enclosing: &[InstanceId],
) -> Result<(), NoMemory>
    ensures { OnOk result (found.new ≡ found.old ++ trees_reads (shape_of model.now) (K.looks look.now).members (K.looks look.now).container trees.now enclosing.now) }
{
    for tree in trees {
        gather(alloc, model, look, found, tree, enclosing)?;
    }
    Ok(())
}

/// Adds what several trees can look at for each listed instance. Where there is no tree, no instance is looked at.
#[cycle(walk)]
fn gather_listed<K: Look>(
    alloc: Global,
    model: &Model,
    look: &K,
    found: &mut List<Question>,
    target: u32,
    names: &[Txt],
    trees: &[Expr],
    enclosing: &[InstanceId],
) -> Result<(), NoMemory>
    ensures { OnOk result (found.new ≡ found.old ++ flat_map (λ n. trees_reads (shape_of model.now) (K.looks look.now).members (K.looks look.now).container trees.now (named target n ∷ enclosing.now)) names.now) }
{
    if trees.is_empty() {
        return Ok(());
    }
    for name in names {
        let inner = within(alloc, target, name, enclosing)?;
        gather_all(alloc, model, look, found, trees, inner.as_slice())?;
    }
    Ok(())
}

/// Adds what each of several rows can look at.
#[cycle(walk)]
fn gather_rows<K: Look>(
    alloc: Global,
    model: &Model,
    look: &K,
    found: &mut List<Question>,
    rows: &[Row],
    enclosing: &[InstanceId],
) -> Result<(), NoMemory>
    ensures { OnOk result (found.new ≡ found.old ++ rows_reads (shape_of model.now) (K.looks look.now).members (K.looks look.now).container rows.now enclosing.now) }
{
    for row in rows {
        gather(alloc, model, look, found, &row.cond, enclosing)?;
        gather(alloc, model, look, found, &row.value, enclosing)?;
    }
    Ok(())
}

pub(crate) fn ask_line(
    alloc: Global,
    found: &mut List<Question>,
    attr: AttrId,
    inst: &InstanceId,
) -> Result<(), NoMemory>
    ensures { OnOk result (found.new ≡ found.old ++ questions.Attr attr inst.now ∷ []) }
{
    found.push(Question::Attr(attr, inst.copy(alloc)?))
}

pub(crate) fn ask_list(
    alloc: Global,
    found: &mut List<Question>,
    rel: RelId,
    inst: &InstanceId,
) -> Result<(), NoMemory>
    ensures { OnOk result (found.new ≡ found.old ++ questions.Members rel inst.now ∷ []) }
{
    found.push(Question::Members(rel, inst.copy(alloc)?))
}
