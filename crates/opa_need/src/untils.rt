// On how many days from one on all that is needed is found, of a tree or a part by itself: nothing is noted before.
ghost use Rattle.std.specs.Prelude.{IfOk};
ghost use Rattle.opa_need.specs.Steps.{Settles, part_needs, tree_needs};

use crate::found::Found;
use crate::runs::Runs;
use crate::stretches;
use opa_case::InstanceId;
use opa_io::{List, NoMemory};
use opa_mean::Held;
use opa_tree::Expr;
use std::alloc::Global;

/// The day below which all that a tree needs is found, from a day on which it is. It may be that day itself.
pub(crate) fn settled<H: Held>(
    alloc: Global,
    held: &H,
    found: &Found,
    runs: &Runs,
    tree: &Expr,
    enclosing: &List<InstanceId>,
    day: u32,
) -> Result<u32, NoMemory>
    ensures { IfOk result (Settles (H.rules held.now) (H.held held.now) found.now runs.now (tree_needs (H.rules held.now) (H.held held.now) tree.now enclosing.now) day) }
{
    let mut noted = Vec::new(alloc);
    let until = stretches::settled(alloc, held, found, runs, &mut noted, tree, enclosing, day)?;
    Ok(until)
}

/// The same of a part, which needs nothing where it is known.
pub(crate) fn settled_part<H: Held>(
    alloc: Global,
    held: &H,
    found: &Found,
    runs: &Runs,
    part: &Expr,
    enclosing: &List<InstanceId>,
    day: u32,
) -> Result<u32, NoMemory>
    ensures { IfOk result (Settles (H.rules held.now) (H.held held.now) found.now runs.now (part_needs (H.rules held.now) (H.held held.now) part.now enclosing.now) day) }
{
    let mut noted = Vec::new(alloc);
    let until = stretches::settled_part(
        alloc, held, found, runs, &mut noted, part, enclosing, day,
    )?;
    Ok(until)
}
