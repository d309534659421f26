// The heading that a batch writes.
ghost use Rattle.std.specs.Prelude.{◌≡◌, ◌<◌, length, codes, Some, IfOk};
ghost use Rattle.csv.specs.Records.{fields_of};
ghost use Rattle.opa_batch.specs.Batches as meant;
ghost use Rattle.opa_batch.specs.Numbered.{IsGoalCell};

use crate::rows::{add_cell, begin_row};
use csv::ByteRecord;
use opa_io::{NoMemory, Txt};
use opa_tree::Rulebase;

/// The phrase of the goal with a number.
fn goal_phrase(base: &Rulebase, goal: u32) -> &Txt
    requires { goal < length base.now.model.goals }
    ensures { IsGoalCell (meant.goal_phrase base.now) base.now.model.goals goal result.now }
{
    // The count shows the model's form.
    let _count = base.model.goal_count();
    let attr = base.model.goal(goal);
    &base.model.attribute(attr).phrase
}

/// The heading: the number of a row, each goal, and the fault.
pub(crate) fn fill_heading(base: &Rulebase, row: &mut ByteRecord) -> Result<(), NoMemory>
    ensures { IfOk result (λ _. fields_of row.new ≡ meant.heading base.now) }
{
    begin_row(row, b"row")?;
    let count = base.model.goal_count();
    for goal in 0..count {
        add_cell(row, goal_phrase(base, goal).as_str().as_bytes())?;
    }
    add_cell(row, b"fault")?;
    Ok(())
}
