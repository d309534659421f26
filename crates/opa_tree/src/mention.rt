// The attributes that a tree mentions.
ghost use Rattle.std.specs.Prelude.{◌≡◌, ◌++◌, ◌∷◌, [], flat_map, IfOk, OnOk};
ghost use Rattle.opa_tree.specs.FirstOnes.{first_ones, with_new};
ghost use Rattle.opa_tree.specs.Mentions.{is_attr, mentioned, row_mentioned, mentions as mentions_of};

use crate::{Expr, Row};
use opa_io::{List, NoMemory};
use opa_model::AttrId;
use std::alloc::Global;

/// The attributes that a tree mentions, in written order, each once. A row's condition comes before its value, and the
/// last value of a table last.
pub fn mentions(alloc: Global, expr: &Expr) -> Result<List<AttrId>, NoMemory>
    ensures { IfOk result (λ attrs. attrs ≡ mentions_of expr.now) }
{
    let mut all = List::new(alloc);
    gather(&mut all, expr)?;
    each_once(alloc, all.as_slice())
}

/// The attributes in their order, each where it stands first.
fn each_once(alloc: Global, attrs: &[AttrId]) -> Result<List<AttrId>, NoMemory>
    ensures { IfOk result (λ once. once ≡ first_ones is_attr attrs.now) }
{
    let mut once = List::new(alloc);
    for attr in attrs {
        add_new(&mut once, *attr)?;
    }
    Ok(once)
}

/// Adds an attribute that isn't there yet.
fn add_new(attrs: &mut List<AttrId>, attr: AttrId) -> Result<(), NoMemory>
    ensures { OnOk result (attrs.new ≡ with_new is_attr attrs.old attr) }
{
    if attrs.as_slice().contains(&attr) {
        return Ok(());
    }
    attrs.push(attr)
}

/// Adds what a tree mentions.
#[cycle(walk)]
#[tactic(auto, using(crate::proofs::MentionLaws::mentioned_laws))]
fn gather(attrs: &mut List<AttrId>, expr: &Expr) -> Result<(), NoMemory>
    ensures { OnOk result (attrs.new ≡ attrs.old ++ mentioned expr.now) }
{
    match expr {
        Expr::Const(_) => Ok(()),
        Expr::Attr(attr) => attrs.push(*attr),
        Expr::All(parts)
        | Expr::Any(parts)
        | Expr::Op(_, parts)
        | Expr::Over(_, _, parts)
        | Expr::Window(_, parts) => gather_all(attrs, parts.as_slice()),
        Expr::Not(part) | Expr::Certain(part) | Expr::Known(part) | Expr::Rolling(_, _, part) => {
            gather(attrs, part.get())
        }
        Expr::Table(rows, last) => {
            gather_rows(attrs, rows.as_slice())?;
            gather(attrs, last.get())
        }
    }
}

/// Adds what each of several trees mentions.
#[cycle(walk)]
fn gather_all(attrs: &mut List<AttrId>, parts: &[Expr]) -> Result<(), NoMemory>
    ensures { OnOk result (attrs.new ≡ attrs.old ++ flat_map mentioned parts.now) }
{
    for part in parts {
        gather(attrs, part)?;
    }
    Ok(())
}

/// Adds what each of several rows mentions.
#[cycle(walk)]
fn gather_rows(attrs: &mut List<AttrId>, rows: &[Row]) -> Result<(), NoMemory>
    ensures { OnOk result (attrs.new ≡ attrs.old ++ flat_map row_mentioned rows.now) }
{
    for row in rows {
        gather(attrs, &row.cond)?;
        gather(attrs, &row.value)?;
    }
    Ok(())
}
