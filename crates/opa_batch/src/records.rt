// The bytes of an input are cut into records, one after another.
ghost use Rattle.std.specs.Prelude.{◌≡◌, IfOk};
ghost use Rattle.csv.specs.Records.{fields_of};
ghost use Rattle.opa_words.specs.Layout.Lines.{without_mark as without_mark_of};
ghost use Rattle.opa_parse.specs.Tables.Records.{csv_records, table_records};
ghost use Rattle.opa_batch.specs.Cutting.{CutsOne, HasLeft};

use csv::{ByteRecord, Reader, ReaderBuilder};
use opa_io::NoMemory;
use std::alloc::Global;

/// Without the byte order mark at the start.
fn without_mark(bytes: &[u8]) -> &[u8]
    ensures { result.now ≡ without_mark_of bytes.now }
{
    match bytes {
        [239, 187, 191, rest @ ..] => rest,
        _ => bytes,
    }
}

/// The reader of these bytes.
fn plain_reader(alloc: Global, bytes: &[u8]) -> Reader<&[u8]>
    ensures { HasLeft result (csv_records bytes.now) }
{
    ReaderBuilder::new()
        .has_headers(false)
        .flexible(true)
        .from_reader(alloc, bytes)
}

/// The reader of an input, of which nothing is cut yet.
pub(crate) fn reader_of(alloc: Global, bytes: &[u8]) -> Reader<&[u8]>
    ensures { HasLeft result (table_records bytes.now) }
{
    plain_reader(alloc, without_mark(bytes))
}

/// Cuts the next record, and answers whether there was one. Over bytes in memory `csv` fails for want of memory alone.
pub(crate) fn cut_next(reader: &mut Reader<&[u8]>, row: &mut ByteRecord) -> Result<bool, NoMemory>
    ensures { IfOk result (λ found. CutsOne found (fields_of row.new) reader.old reader.new) }
{
    let Ok(found) = reader.read_byte_record(row) else {
        return Err(NoMemory);
    };
    Ok(found)
}
