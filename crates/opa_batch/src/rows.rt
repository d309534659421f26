// The cells of a row.
ghost use Rattle.std.specs.Prelude.{◌≡◌, ◌<◌, ◌++◌, ◌∷◌, [], true, drop, length, Some, Ok, Err, IfOk};
ghost use Rattle.std.specs.Fmt.{decimal};
ghost use Rattle.csv.specs.Records.{fields_of, partial_of};
ghost use Rattle.opa_case.specs.Shapes.{attribute_or};
ghost use Rattle.opa_cells.specs.Instances.{global as global_one};
ghost use Rattle.opa_date.specs.declared.TheConstants.{DAYS};
ghost use Rattle.opa_line.specs.Lines.{StandsFor};
ghost use Rattle.opa_mean.specs.Rulebases.{value_at};
ghost use Rattle.opa_mean.specs.Slots.{has_place as has_place_at};
ghost use Rattle.opa_model.specs.Lookups.{goal_at};
ghost use Rattle.opa_model.specs.Models.{HasAttribute};
ghost use Rattle.opa_text.specs.Texts.{HasDays};
ghost use Rattle.opa_reply.specs.Reporting.Shown.{told_line as told_line_of};
ghost use Rattle.opa_batch.specs.Rows as meant;
ghost use Rattle.opa_batch.specs.Numbered.{IsGoalCell, left_by};

use csv::ByteRecord;
use itoa::Buffer;
use opa_case::InstanceId;
use opa_io::{NoMemory, Txt};
use opa_line::Line;
use opa_mean::{Held, line_is_one, values_have_kinds};
use opa_model::{AttrId, Kind};
use opa_text::line_text;
use opa_tree::Rulebase;
use opa_value::Value;
use std::alloc::Global;

/// The days that a line of an attribute has as values are of the calendar.
fn has_days<H: Held>(held: &H, attr: AttrId, inst: &InstanceId, line: &Line<Value>)
    requires { StandsFor DAYS (value_at (H.rules held.now) (H.held held.now) attr inst.now) line.now }
    ensures { HasDays line.now }
{
    values_have_kinds();
    // The case fits the rulebase.
    let _case = held.case();
}

fn kind_of<H: Held>(held: &H, attr: AttrId) -> Kind
    requires { HasAttribute (H.rules held.now).model attr }
    ensures { result ≡ (attribute_or (H.rules held.now).model attr).kind }
{
    held.base().model.attribute(attr).kind
}

/// The text of a line that has the attribute's values.
fn text_of_line<H: Held>(
    alloc: Global,
    held: &H,
    attr: AttrId,
    inst: &InstanceId,
    line: &Line<Value>,
) -> Result<Txt, NoMemory>
    requires declared { HasAttribute (H.rules held.now).model attr }
    requires stands { StandsFor DAYS (value_at (H.rules held.now) (H.held held.now) attr inst.now) line.now }
    ensures { IfOk result (λ t. t ≡ told_line_of (H.rules held.now) (H.held held.now) attr inst.now) }
{
    line_is_one();
    has_days(held, attr, inst, line);
    let _form = line.segments();
    let kind = kind_of(held, attr);
    let text = line_text(alloc, kind, line)?;
    Ok(text)
}

/// The text of the line of an attribute that the instance has. Where there is neither a rule nor an answer, it is unknown.
fn told_line<H: Held>(
    alloc: Global,
    held: &H,
    attr: AttrId,
    inst: &InstanceId,
) -> Result<Txt, NoMemory>
    requires declared { HasAttribute (H.rules held.now).model attr }
    requires place { has_place_at (H.rules held.now) (H.held held.now) attr inst.now ≡ true }
    ensures { IfOk result (λ t. t ≡ told_line_of (H.rules held.now) (H.held held.now) attr inst.now) }
{
    // The case fits the rulebase.
    let _case = held.case();
    match held.line(attr, inst) {
        None => {
            let line = Line::constant(alloc, Value::Unknown)?;
            let text = text_of_line(alloc, held, attr, inst, &line)?;
            Ok(text)
        }
        Some(line) => {
            let text = text_of_line(alloc, held, attr, inst, line)?;
            Ok(text)
        }
    }
}

/// The goal with a number: the global instance has it.
fn goal_of<H: Held>(held: &H, goal: u32) -> AttrId
    requires { goal < length (H.rules held.now).model.goals }
    ensures goal { goal_at (H.rules held.now).model goal ≡ Some result }
    ensures declared { HasAttribute (H.rules held.now).model result }
    ensures place { has_place_at (H.rules held.now) (H.held held.now) result global_one ≡ true }
{
    let model = &held.base().model;
    let _count = model.goal_count();
    let attr = model.goal(goal);
    attr
}

/// The values of the goal with a number over all days.
fn goal_cell<H: Held>(
    alloc: Global,
    held: &H,
    goal: u32,
    inst: &InstanceId,
) -> Result<Txt, NoMemory>
    requires goal { goal < length (H.rules held.now).model.goals }
    requires global { inst.now ≡ global_one }
    ensures { IfOk result (IsGoalCell (meant.goal_cell (H.rules held.now) (H.held held.now)) (H.rules held.now).model.goals goal) }
{
    let attr = goal_of(held, goal);
    let text = told_line(alloc, held, attr, inst)?;
    Ok(text)
}

/// A further cell behind those of a row.
pub(crate) fn add_cell(row: &mut ByteRecord, cell: &[u8]) -> Result<(), NoMemory>
    requires { partial_of row.old ≡ [] }
    ensures cells { IfOk result (λ _. fields_of row.new ≡ fields_of row.old ++ cell.now ∷ []) }
    ensures whole { IfOk result (λ _. partial_of row.new ≡ []) }
{
    row.push_field(cell)?;
    Ok(())
}

/// A row with one cell, in the place of the one before.
pub(crate) fn begin_row(row: &mut ByteRecord, cell: &[u8]) -> Result<(), NoMemory>
    ensures cells { IfOk result (λ _. fields_of row.new ≡ cell.now ∷ []) }
    ensures whole { IfOk result (λ _. partial_of row.new ≡ []) }
{
    row.clear();
    add_cell(row, cell)?;
    Ok(())
}

/// A row that begins with a number.
fn begin_numbered(row: &mut ByteRecord, number: usize) -> Result<(), NoMemory>
    ensures cells { IfOk result (λ _. fields_of row.new ≡ decimal number ∷ []) }
    ensures whole { IfOk result (λ _. partial_of row.new ≡ []) }
{
    let mut buffer = Buffer::new();
    begin_row(row, buffer.format(number).as_bytes())?;
    Ok(())
}

/// The row of a record whose case is held.
fn goals_row<H: Held>(
    alloc: Global,
    held: &H,
    number: usize,
    row: &mut ByteRecord,
) -> Result<(), NoMemory>
    ensures { IfOk result (λ _. fields_of row.new ≡ meant.row_of (H.rules held.now) number (Ok (H.held held.now))) }
{
    let inst = InstanceId::global(alloc)?;
    begin_numbered(row, number)?;
    let count = held.base().model.goal_count();
    for goal in 0..count {
        let cell = goal_cell(alloc, held, goal, &inst)?;
        add_cell(row, cell.as_str().as_bytes())?;
    }
    add_cell(row, b"")?;
    Ok(())
}

/// The row of a record with a fault.
fn fault_row(
    base: &Rulebase,
    number: usize,
    fault: &Txt,
    row: &mut ByteRecord,
) -> Result<(), NoMemory>
    ensures { IfOk result (λ _. fields_of row.new ≡ meant.row_of base.now number (Err fault.now)) }
{
    begin_numbered(row, number)?;
    let count = base.model.goal_count();
    for goal in 0..count {
        let _goal = goal;
        add_cell(row, b"")?;
    }
    add_cell(row, fault.as_str().as_bytes())?;
    Ok(())
}

/// A row with another number than the one that is known.
pub(crate) fn fill_again(
    row: &mut ByteRecord,
    number: usize,
    known: &ByteRecord,
) -> Result<(), NoMemory>
    ensures { IfOk result (λ _. fields_of row.new ≡ decimal number ∷ drop 1 (fields_of known.now)) }
{
    begin_numbered(row, number)?;
    for place in 1..known.len() {
        let Some(cell) = known.get(place) else {
            return Ok(());
        };
        add_cell(row, cell)?;
    }
    Ok(())
}

/// The row of a record: of the case that is held, or of its fault.
pub(crate) fn fill_row<H: Held>(
    alloc: Global,
    held: &H,
    number: usize,
    fault: &Option<Txt>,
    row: &mut ByteRecord,
) -> Result<(), NoMemory>
    ensures { IfOk result (λ _. fields_of row.new ≡ meant.row_of (H.rules held.now) number (left_by fault.now (H.held held.now))) }
{
    match fault {
        None => {
            goals_row(alloc, held, number, row)?;
            Ok(())
        }
        Some(fault) => {
            fault_row(held.base(), number, fault, row)?;
            Ok(())
        }
    }
}
