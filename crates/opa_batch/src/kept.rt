// Records that were decided, with their rows, so that a record of the same cells needn't be decided again.
ghost use Rattle.std.specs.Prelude.{◌≡◌, ◌<◌, false, Some, length, IfOk, IfSome};
ghost use Rattle.csv.specs.Records.{fields_of};
ghost use Rattle.opa_batch.specs.Batches.{written_row};
ghost use Rattle.opa_batch.specs.Gathered.{AddsText};
ghost use Rattle.opa_batch.specs.Known.{AddsKnown, AreNone, IsKnown, Keeps};
ghost use Rattle.opa_batch.specs.Numbered.{left_by};
ghost use Rattle.opa_batch.specs.Rows.{row_of};

use crate::csv_rows::add_row;
use crate::rows::{fill_again, fill_row};
use crate::same::is_same;
use csv::{ByteRecord, Writer};
use opa_io::{NoMemory, Txt};
use opa_mean::Held;
use std::alloc::Global;
use std::mem;

/// A record that was decided, and its row; or neither yet.
#[derive(Drop)]
pub(crate) struct Kept {
    pub(crate) cells: ByteRecord,
    pub(crate) row: ByteRecord,
    pub(crate) is_full: bool,
}

/// How many decided records are kept with their rows.
const SLOTS: usize = 4_096;

/// A slot with no record.
fn empty_slot(alloc: Global) -> Kept
    ensures { result.is_full ≡ false }
{
    Kept {
        cells: ByteRecord::new(alloc),
        row: ByteRecord::new(alloc),
        is_full: false,
    }
}

/// Slots for records, all empty.
pub(crate) fn none_kept(alloc: Global) -> Result<Vec<Kept>, NoMemory>
    ensures none { IfOk result (λ v. AreNone v.items) }
    ensures slots { IfOk result (λ v. 0 < length v.items) }
{
    let mut kept = Vec::new(alloc);
    for slot in 0..SLOTS {
        let _slot = slot;
        let empty = empty_slot(alloc);
        kept.push(empty)?;
    }
    Ok(kept)
}

/// The row of a record of the same cells, if it is kept.
fn known_row<'k>(kept: &'k [Kept], slot: usize, cells: &ByteRecord) -> Option<&'k ByteRecord>
    requires { slot < length kept.now }
    ensures { IfSome result (λ row. IsKnown kept.now (fields_of cells.now) row.now) }
{
    let known = &kept[slot];
    if !known.is_full {
        return None;
    }
    if is_same(&known.cells, cells) {
        return Some(&known.row);
    }
    None
}

/// Adds the row of a record of which an equal one is kept, and answers whether it was.
pub(crate) fn add_known(
    kept: &[Kept],
    slot: usize,
    number: usize,
    row: &mut ByteRecord,
    out: &mut Writer<Vec<u8>>,
) -> Result<bool, NoMemory>
    requires { slot < length kept.now }
    ensures { IfOk result (λ found. AddsKnown (λ v. Some v.items) kept.now found out.old out.new row.old row.new number) }
{
    let Some(known) = known_row(kept, slot, row) else {
        return Ok(false);
    };
    fill_again(row, number, known)?;
    add_row(out, row)?;
    Ok(true)
}

/// Fills a slot with a record and its row. The buffers that it had before serve again.
fn fill_slot<H: Held>(
    alloc: Global,
    held: &H,
    number: usize,
    fault: &Option<Txt>,
    cells: &mut ByteRecord,
    slot: &mut Kept,
) -> Result<(), NoMemory>
    ensures cells { IfOk result (λ _. fields_of slot.new.cells ≡ fields_of cells.old) }
    ensures row { IfOk result (λ _. fields_of slot.new.row ≡ row_of (H.rules held.now) number (left_by fault.now (H.held held.now))) }
{
    mem::swap(&mut slot.cells, cells);
    fill_row(alloc, held, number, fault, &mut slot.row)?;
    slot.is_full = true;
    Ok(())
}

/// Keeps a record with its row, and adds the row.
pub(crate) fn add_kept<H: Held>(
    alloc: Global,
    held: &H,
    number: usize,
    fault: &Option<Txt>,
    cells: &mut ByteRecord,
    kept: &mut Vec<Kept>,
    slot: usize,
    out: &mut Writer<Vec<u8>>,
) -> Result<(), NoMemory>
    requires { slot < length kept.old.items }
    ensures adds { IfOk result (λ _. AddsText (λ v. Some v.items) out.old out.new (written_row (row_of (H.rules held.now) number (left_by fault.now (H.held held.now))))) }
    ensures keeps { IfOk result (λ _. Keeps kept.old.items kept.new.items (fields_of cells.old) (row_of (H.rules held.now) number (left_by fault.now (H.held held.now)))) }
    ensures slots { IfOk result (λ _. length kept.new.items ≡ length kept.old.items) }
{
    fill_slot(alloc, held, number, fault, cells, &mut kept[slot])?;
    add_row(out, &kept[slot].row)?;
    Ok(())
}
