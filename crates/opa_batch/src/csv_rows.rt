// Rows are gathered as they are written.
ghost use Rattle.std.specs.Prelude.{◌≡◌, [], ℕ, List, Some, IfOk, OnOk};
ghost use Rattle.csv.specs.Records.{fields_of};
ghost use Rattle.opa_batch.specs.Batches as meant;
ghost use Rattle.opa_batch.specs.Gathered.{AddsText, HoldsText};

use csv::{ByteRecord, Writer};
use opa_io::NoMemory;
use std::alloc::Global;

/// A writer into memory that holds no row.
pub(crate) fn no_rows(alloc: Global) -> Writer<Vec<u8>>
    ensures { HoldsText (λ v. Some v.items) result [] }
{
    Writer::from_writer(Vec::new(alloc))
}

/// Adds the text of a row. Into memory `csv` fails for want of memory alone.
pub(crate) fn add_row(rows: &mut Writer<Vec<u8>>, row: &ByteRecord) -> Result<(), NoMemory>
    ensures { OnOk result (AddsText (λ v. Some v.items) rows.old rows.new (meant.written_row (fields_of row.now))) }
{
    let Ok(()) = rows.write_byte_record(row) else {
        return Err(NoMemory);
    };
    Ok(())
}

/// The text that a writer holds.
pub(crate) fn text_of(rows: Writer<Vec<u8>>) -> Result<Vec<u8>, NoMemory>
    ensures { IfOk result (λ v. (text : List ℕ) → HoldsText (λ w. Some w.items) rows text → v.items ≡ text) }
{
    match rows.into_inner() {
        Ok(text) => Ok(text),
        Err(_) => Err(NoMemory),
    }
}
