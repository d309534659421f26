// The relations that a tree goes over.
ghost use Rattle.std.specs.Prelude.{◌≡◌, ◌++◌, ◌∷◌, [], flat_map, IfOk, OnOk};
ghost use Rattle.opa_tree.specs.FirstOnes.{first_ones, with_new};
ghost use Rattle.opa_rules.specs.Describing.Ranges.{is_rel, ranged, row_ranged, ranges as ranges_of};

use opa_io::{List, NoMemory};
use opa_model::RelId;
use opa_tree::{Expr, Row};
use std::alloc::Global;

/// The relations that a tree goes over, in written order, each once. A row's condition comes before its value, and the last
/// value of a table last.
pub(crate) fn ranges(alloc: Global, expr: &Expr) -> Result<List<RelId>, NoMemory>
    ensures { IfOk result (λ rels. rels ≡ ranges_of expr.now) }
{
    let mut all = List::new(alloc);
    gather(&mut all, expr)?;
    each_once(alloc, all.as_slice())
}

/// The relations in their order, each where it stands first.
fn each_once(alloc: Global, rels: &[RelId]) -> Result<List<RelId>, NoMemory>
    ensures { IfOk result (λ once. once ≡ first_ones is_rel rels.now) }
{
    let mut once = List::new(alloc);
    for rel in rels {
        add_new(&mut once, *rel)?;
    }
    Ok(once)
}

/// Adds a relation that isn't there yet.
fn add_new(rels: &mut List<RelId>, rel: RelId) -> Result<(), NoMemory>
    ensures { OnOk result (rels.new ≡ with_new is_rel rels.old rel) }
{
    if rels.as_slice().contains(&rel) {
        return Ok(());
    }
    rels.push(rel)
}

/// Adds what a tree goes over.
#[cycle(walk)]
#[tactic(auto, using(crate::proofs::describing::RangeLaws::ranged_laws))]
fn gather(rels: &mut List<RelId>, expr: &Expr) -> Result<(), NoMemory>
    ensures { OnOk result (rels.new ≡ rels.old ++ ranged expr.now) }
{
    match expr {
        Expr::Const(_) => Ok(()),
        Expr::Attr(_) => Ok(()),
        Expr::All(parts) | Expr::Any(parts) | Expr::Op(_, parts) | Expr::Window(_, parts) =>
            gather_all(rels, parts.as_slice()),
        Expr::Over(_, rel, parts) => gather_over(rels, *rel, parts.as_slice()),
        Expr::Not(part) | Expr::Certain(part) | Expr::Known(part) | Expr::Rolling(_, _, part) => {
            gather(rels, part.get())
        }
        Expr::Table(rows, last) => {
            gather_rows(rels, rows.as_slice())?;
            gather(rels, last.get())
        }
    }
}

/// Adds a relation, and what each of several trees goes over.
#[cycle(walk)]
fn gather_over(rels: &mut List<RelId>, rel: RelId, parts: &[Expr]) -> Result<(), NoMemory>
    ensures { OnOk result (rels.new ≡ rels.old ++ rel ∷ flat_map ranged parts.now) }
{
    rels.push(rel)?;
    gather_all(rels, parts)?;
    Ok(())
}

/// Adds what each of several trees goes over.
#[cycle(walk)]
fn gather_all(rels: &mut List<RelId>, parts: &[Expr]) -> Result<(), NoMemory>
    ensures { OnOk result (rels.new ≡ rels.old ++ flat_map ranged parts.now) }
{
    for part in parts {
        gather(rels, part)?;
    }
    Ok(())
}

/// Adds what each of several rows goes over.
#[cycle(walk)]
fn gather_rows(rels: &mut List<RelId>, rows: &[Row]) -> Result<(), NoMemory>
    ensures { OnOk result (rels.new ≡ rels.old ++ flat_map row_ranged rows.now) }
{
    for row in rows {
        gather(rels, &row.cond)?;
        gather(rels, &row.value)?;
    }
    Ok(())
}
