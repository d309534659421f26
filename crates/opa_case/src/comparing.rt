// What two cases are compared by: known lists, and what is answered.
ghost use Rattle.std.specs.Prelude.{map as items, ◌≡◌, true, IfOk};
ghost use Rattle.opa_cells.specs.Rows.{seen};
ghost use Rattle.opa_cells.specs.Unordered.{AreCells};

use crate::case::Case;
use crate::listed::Listed;
use opa_cells::InstanceId;
use opa_io::{List, NoMemory, Same, Txt};
use opa_line::Line;
use opa_value::Value;
use std::alloc::Global;

impl Case {
    /// Whether another case has the same known lists, which say what is live.
    pub fn has_lists_of(&self, alloc: Global, other: &Case) -> Result<bool, NoMemory>
        ensures { IfOk result (λ same. same ≡ true → self.now.lists ≡ other.now.lists) }
    {
        let same = are_same(alloc, self.stored(), other.stored())?;
        Ok(same)
    }

    /// What is answered, each answer once, in no order.
    pub fn answered(&self, alloc: Global) -> Result<Vec<(u32, &InstanceId, &Line<Value>)>, NoMemory>
        ensures { IfOk result (λ cells. AreCells self.now.answers (items seen cells.items)) }
    {
        let cells = self.answers.unordered(alloc)?;
        Ok(cells)
    }
}

/// Whether the same lists are known.
fn are_same(alloc: Global, one: &Listed, other: &Listed) -> Result<bool, NoMemory>
    ensures { IfOk result (λ same. same ≡ true → one.now ≡ other.now) }
{
    if one.len() != other.len() {
        return Ok(false);
    }
    let cells = one.each(alloc)?;
    let others = other.each(alloc)?;
    let same = are_cells(cells.as_slice(), others.as_slice());
    Ok(same)
}

/// Whether these are the same lists at the same places, one by one.
fn are_cells(
    cells: &[(u32, &InstanceId, &List<Txt>)],
    others: &[(u32, &InstanceId, &List<Txt>)],
) -> bool
    ensures { result ≡ true → items seen cells.now ≡ items seen others.now }
{
    if cells.len() != others.len() {
        return false;
    }
    for place in 0..cells.len() {
        if !is_cell(&cells[place], &others[place]) {
            return false;
        }
    }
    true
}

fn is_cell(cell: &(u32, &InstanceId, &List<Txt>), other: &(u32, &InstanceId, &List<Txt>)) -> bool
    ensures { result ≡ true → seen cell.now ≡ seen other.now }
{
    let (number, inst, names) = cell;
    let (its, at, others) = other;
    if *number != *its {
        return false;
    }
    if !inst.equals(at) {
        return false;
    }
    names.same(others)
}
