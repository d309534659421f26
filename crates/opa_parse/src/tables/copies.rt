// What is read, once more.
ghost use Rattle.std.specs.Prelude.{◌≡◌, IfOk};

use opa_io::NoMemory;
use opa_sentence::Reading;
use opa_tree::Expr;
use std::alloc::Global;

fn copy_of_tree(alloc: Global, tree: &Option<Expr>) -> Result<Option<Expr>, NoMemory>
    ensures { IfOk result (λ t. t ≡ tree.now) }
{
    match tree {
        None => Ok(None),
        Some(expr) => Ok(Some(expr.copy(alloc)?)),
    }
}

/// The same once more.
pub fn again(alloc: Global, reading: &Reading) -> Result<Reading, NoMemory>
    ensures { IfOk result (λ r. r ≡ reading.now) }
{
    Ok(Reading {
        tree: copy_of_tree(alloc, &reading.tree)?,
        measure: reading.measure,
    })
}
