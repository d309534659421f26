// The bytes of a table are cut into records.
ghost use Rattle.std.specs.Prelude.{◌≡◌, [], ◌∷◌, IfOk, map};
ghost use Rattle.csv.specs.Reading.{AreRecords, default_config, strip_bom};
ghost use Rattle.csv.specs.Records.{fields_of};
ghost use Rattle.csv.specs.declared.parser.State.TheVariants as state;
ghost use Rattle.opa_words.specs.Layout.Lines.{without_mark as without_mark_of};
ghost use Rattle.opa_parse.specs.Tables.Records.{csv_records, table_records};

use csv::{ByteRecord, Error, ReaderBuilder};
use opa_io::{List, NoMemory};
use std::alloc::Global;

fn all_records(alloc: Global, bytes: &[u8]) -> Result<Vec<ByteRecord>, Error>
    ensures { IfOk result (λ v. AreRecords default_config state.StartRecord (strip_bom bytes.now) (map fields_of v.items)) }
{
    let reader = ReaderBuilder::new()
        .has_headers(false)
        .flexible(true)
        .from_reader(alloc, bytes);
    let mut records = Vec::new(alloc);
    for row in reader.into_byte_records() {
        if records.push(row?).is_err() {
            return Err(Error::out_of_memory());
        }
    }
    Ok(records)
}

/// The records of these bytes. Over bytes in memory `csv` fails for want of memory alone.
fn csv_records_of(alloc: Global, bytes: &[u8]) -> Result<Vec<ByteRecord>, NoMemory>
    ensures { IfOk result (λ v. map fields_of v.items ≡ csv_records bytes.now) }
{
    match all_records(alloc, bytes) {
        Ok(records) => Ok(records),
        Err(_) => Err(NoMemory),
    }
}

/// Without the byte order mark at the start.
fn without_mark(bytes: &[u8]) -> &[u8]
    ensures { result.now ≡ without_mark_of bytes.now }
{
    match bytes {
        [239, 187, 191, rest @ ..] => rest,
        _ => bytes,
    }
}

/// The records of a table.
pub fn records_of(alloc: Global, bytes: &[u8]) -> Result<Vec<ByteRecord>, NoMemory>
    ensures { IfOk result (λ v. map fields_of v.items ≡ table_records bytes.now) }
{
    csv_records_of(alloc, without_mark(bytes))
}

/// The cells of a record.
pub fn cells_of(alloc: Global, row: &ByteRecord) -> Result<List<List<u8>>, NoMemory>
    ensures { IfOk result (λ cells. cells ≡ fields_of row.now) }
{
    let mut cells = List::new(alloc);
    for place in 0..row.len() {
        match row.get(place) {
            None => return Ok(cells),
            Some(cell) => cells.push(List::from_vec(cell.to_vec(alloc)?))?,
        }
    }
    Ok(cells)
}
