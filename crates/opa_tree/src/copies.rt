// Equal trees.
ghost use Rattle.std.specs.Prelude.{◌≡◌, IfOk};

use crate::{Expr, Row};
use opa_io::{Boxed, List, NoMemory};
use std::alloc::Global;

impl Expr {
    /// An equal tree.
    pub fn copy(&self, alloc: Global) -> Result<Expr, NoMemory>
        ensures { IfOk result (λ e. e ≡ self.now) }
    {
        copy_of(alloc, self)
    }
}

#[cycle(copy)]
fn copy_of(alloc: Global, expr: &Expr) -> Result<Expr, NoMemory>
    ensures { IfOk result (λ e. e ≡ expr.now) }
{
    match expr {
        Expr::Const(value) => Ok(Expr::Const(value.copy(alloc)?)),
        Expr::Attr(attr) => Ok(Expr::Attr(*attr)),
        Expr::All(parts) => Ok(Expr::All(copies_of(alloc, parts.as_slice())?)),
        Expr::Any(parts) => Ok(Expr::Any(copies_of(alloc, parts.as_slice())?)),
        Expr::Not(part) => Ok(Expr::Not(boxed_copy(alloc, part.get())?)),
        Expr::Op(kind, parts) => Ok(Expr::Op(*kind, copies_of(alloc, parts.as_slice())?)),
        Expr::Certain(part) => Ok(Expr::Certain(boxed_copy(alloc, part.get())?)),
        Expr::Known(part) => Ok(Expr::Known(boxed_copy(alloc, part.get())?)),
        Expr::Over(quant, rel, parts) => {
            Ok(Expr::Over(*quant, *rel, copies_of(alloc, parts.as_slice())?))
        }
        Expr::Window(kind, parts) => Ok(Expr::Window(*kind, copies_of(alloc, parts.as_slice())?)),
        Expr::Rolling(always, days, part) => {
            Ok(Expr::Rolling(*always, *days, boxed_copy(alloc, part.get())?))
        }
        Expr::Table(rows, last) => Ok(Expr::Table(
            copies_of_rows(alloc, rows.as_slice())?,
            boxed_copy(alloc, last.get())?,
        )),
    }
}

#[cycle(copy)]
fn boxed_copy(alloc: Global, expr: &Expr) -> Result<Boxed<Expr>, NoMemory>
    ensures { IfOk result (λ e. e ≡ expr.now) }
{
    Boxed::new(alloc, copy_of(alloc, expr)?)
}

#[cycle(copy)]
fn copies_of(alloc: Global, parts: &[Expr]) -> Result<List<Expr>, NoMemory>
    ensures { IfOk result (λ es. es ≡ parts.now) }
{
    let mut copies = List::new(alloc);
    for part in parts {
        copies.push(copy_of(alloc, part)?)?;
    }
    Ok(copies)
}

#[cycle(copy)]
fn copies_of_rows(alloc: Global, rows: &[Row]) -> Result<List<Row>, NoMemory>
    ensures { IfOk result (λ rs. rs ≡ rows.now) }
{
    let mut copies = List::new(alloc);
    for row in rows {
        copies.push(Row {
            cond: copy_of(alloc, &row.cond)?,
            value: copy_of(alloc, &row.value)?,
        })?;
    }
    Ok(copies)
}
