// What an input gives over a rulebase is made.
ghost use Rattle.std.specs.Prelude.{◌≡◌, ◌+◌, ◌<◌, ◌∷◌, ◌^◌, length, Some, IfOk, OnOk};
ghost use Rattle.csv.specs.Records.{fields_of};
ghost use Rattle.opa_case.specs.Cases.{no_case};
ghost use Rattle.opa_session.specs.Infer.Sessions.{rules_of, held_of, first_slots};
ghost use Rattle.opa_io.specs.declared.fault.Status.TheVariants as statuses;
ghost use Rattle.opa_parse.specs.Tables.Records.{table_records};
ghost use Rattle.opa_batch.specs.Aims.{AreAimed};
ghost use Rattle.opa_batch.specs.Batches.{Gives, GivesOf, no_heading, written_row as written_row_of, heading as heading_of};
ghost use Rattle.opa_batch.specs.Counting.{CountsAtMost, RecordReaches, RecordsReach, MayCount, due};
ghost use Rattle.opa_batch.specs.Cutting.{HasLeft, IsAt, below};
ghost use Rattle.opa_batch.specs.Gathered.{AddsRow, AddsRows, HoldsText};
ghost use Rattle.opa_batch.specs.Known.{AreKept};
ghost use Rattle.opa_batch.specs.Numbered.{HasRows};

use crate::aim::{Aim, aims_of};
use crate::cells::take_record;
use crate::columns::heads_of;
use crate::csv_rows::{add_row, no_rows, text_of};
use crate::head::Head;
use crate::heading::fill_heading;
use crate::kept::{Kept, add_kept, add_known, none_kept};
use crate::records::{cut_next, reader_of};
use crate::same::slot_of;
use csv::{ByteRecord, Reader, Writer};
use opa_io::{NoMemory, Status, Steps, Txt};
use opa_session::Session;
use opa_tree::Rulebase;
use std::alloc::Global;
use std::sync::ledger::Ledger;

/// How a batch ends if nothing fails, and what is written then.
#[derive(Drop)]
pub(crate) struct Made {
    pub(crate) good: Status,
    pub(crate) text: Vec<u8>,
}

/// Decides the record at a place, keeps it with its row, and adds the row.
fn add_decided<L: Ledger>(
    alloc: Global,
    session: &mut Session<L>,
    heads: &[Head],
    aims: &[Option<Aim>],
    place: usize,
    row: &mut ByteRecord,
    kept: &mut Vec<Kept>,
    slot: usize,
    out: &mut Writer<Vec<u8>>,
    steps: &mut Steps<L>,
) -> Result<(), NoMemory>
    requires aimed { AreAimed (rules_of session.old).model heads.now aims.now }
    requires first { place ≡ 0 → held_of session.old ≡ no_case }
    requires few { place + 1 < 2 ^ 64 }
    requires slot { slot < length kept.old.items }
    ensures ok { OnOk result (AddsRow (λ v. Some v.items) out.old out.new (rules_of session.old) heads.now (place + 1) (fields_of row.old)) }
    ensures base { rules_of session.new ≡ rules_of session.old }
    ensures kept { OnOk result (AreKept (rules_of session.old) heads.now kept.old.items → AreKept (rules_of session.old) heads.now kept.new.items) }
    ensures slots { OnOk result (length kept.new.items ≡ length kept.old.items) }
    ensures counts { CountsAtMost (RecordReaches (rules_of session.old) heads.now (fields_of row.old)) (steps.old + due (rules_of session.old) place) steps.new }
{
    let fault = take_record(alloc, session, heads, aims, row, steps)?;
    add_kept(alloc, session, place + 1, &fault, row, kept, slot, out)?;
    Ok(())
}

/// Adds the row of the record at a place, as it is known, or as it is decided now.
fn add_record<L: Ledger>(
    alloc: Global,
    session: &mut Session<L>,
    heads: &[Head],
    aims: &[Option<Aim>],
    place: usize,
    row: &mut ByteRecord,
    kept: &mut Vec<Kept>,
    out: &mut Writer<Vec<u8>>,
    steps: &mut Steps<L>,
) -> Result<(), NoMemory>
    requires aimed { AreAimed (rules_of session.old).model heads.now aims.now }
    requires first { place ≡ 0 → held_of session.old ≡ no_case }
    requires few { place + 1 < 2 ^ 64 }
    requires kept { AreKept (rules_of session.old) heads.now kept.old.items }
    requires slots { 0 < length kept.old.items }
    ensures ok { OnOk result (AddsRow (λ v. Some v.items) out.old out.new (rules_of session.old) heads.now (place + 1) (fields_of row.old)) }
    ensures base { rules_of session.new ≡ rules_of session.old }
    ensures kept { OnOk result (AreKept (rules_of session.old) heads.now kept.new.items) }
    ensures slots { OnOk result (0 < length kept.new.items) }
    ensures counts { CountsAtMost (RecordReaches (rules_of session.old) heads.now (fields_of row.old)) (steps.old + due (rules_of session.old) place) steps.new }
{
    let slot = slot_of(row, kept.len());
    let found = add_known(kept.as_slice(), slot, place + 1, row, out)?;
    if found {
        return Ok(());
    }
    add_decided(
        alloc, session, heads, aims, place, row, kept, slot, out, steps,
    )?;
    Ok(())
}

/// Adds the row of the record that was cut, and of each one behind it as it is cut.
fn add_rows<L: Ledger>(
    alloc: Global,
    session: &mut Session<L>,
    heads: &[Head],
    aims: &[Option<Aim>],
    bytes: &[u8],
    reader: &mut Reader<&[u8]>,
    row: &mut ByteRecord,
    out: &mut Writer<Vec<u8>>,
    steps: &mut Steps<L>,
) -> Result<(), NoMemory>
    requires aimed { AreAimed (rules_of session.old).model heads.now aims.now }
    requires first { held_of session.old ≡ no_case }
    requires at { IsAt bytes.now 0 (fields_of row.old) reader.old }
    ensures rows { OnOk result (AddsRows (λ v. Some v.items) out.old out.new (rules_of session.old) heads.now (below bytes.now)) }
    ensures counts { CountsAtMost (RecordsReach (rules_of session.old) heads.now (below bytes.now)) steps.old (steps.new + first_slots (rules_of session.old)) }
{
    let mut kept = none_kept(alloc)?;
    // An input has no more records below its heading than bytes.
    for place in 0..bytes.len() {
        add_record(
            alloc, session, heads, aims, place, row, &mut kept, out, steps,
        )?;
        let found = cut_next(reader, row)?;
        if !found {
            return Ok(());
        }
    }
    Ok(())
}

/// Adds the rows of the records from the first one on, which was cut, over a session of their own.
fn determined<L: Ledger>(
    alloc: Global,
    base: Rulebase,
    heads: &[Head],
    bytes: &[u8],
    reader: &mut Reader<&[u8]>,
    row: &mut ByteRecord,
    out: &mut Writer<Vec<u8>>,
    steps: &mut Steps<L>,
) -> Result<(), NoMemory>
    requires at { IsAt bytes.now 0 (fields_of row.old) reader.old }
    ensures rows { OnOk result (AddsRows (λ v. Some v.items) out.old out.new base heads.now (below bytes.now)) }
    ensures counts { CountsAtMost (RecordsReach base heads.now (below bytes.now)) steps.old steps.new }
{
    // A rulebase has many parts: here and below, no exit lets them go one by one.
    let Ok(aims) = aims_of(alloc, &base.model, heads) else {
        drop(base);
        return Err(NoMemory);
    };
    let mut session = Session::start(alloc, base, steps)?;
    let added = add_rows(
        alloc,
        &mut session,
        heads,
        &aims,
        bytes,
        reader,
        row,
        out,
        steps,
    );
    drop(session);
    added
}

/// Adds the rows of the records below the heading; without a record nothing is determined.
fn with_rows<L: Ledger>(
    alloc: Global,
    base: Rulebase,
    heads: &[Head],
    bytes: &[u8],
    reader: &mut Reader<&[u8]>,
    row: &mut ByteRecord,
    out: &mut Writer<Vec<u8>>,
    steps: &mut Steps<L>,
) -> Result<(), NoMemory>
    requires left { HasLeft reader.old (below bytes.now) }
    ensures rows { OnOk result (AddsRows (λ v. Some v.items) out.old out.new base heads.now (below bytes.now)) }
    ensures counts { CountsAtMost (RecordsReach base heads.now (below bytes.now)) steps.old steps.new }
{
    let Ok(found) = cut_next(reader, row) else {
        drop(base);
        return Err(NoMemory);
    };
    if !found {
        drop(base);
        return Ok(());
    }
    determined(alloc, base, heads, bytes, reader, row, out, steps)?;
    Ok(())
}

/// The heading, as a batch writes it.
fn begun(alloc: Global, base: &Rulebase, row: &mut ByteRecord) -> Result<Writer<Vec<u8>>, NoMemory>
    ensures { IfOk result (λ w. HoldsText (λ v. Some v.items) w (written_row_of (heading_of base.now))) }
{
    fill_heading(base, row)?;
    let mut out = no_rows(alloc);
    add_row(&mut out, row)?;
    Ok(out)
}

/// The text of a heading and of the rows of the records below heads.
fn filled<L: Ledger>(
    alloc: Global,
    base: Rulebase,
    heads: &[Head],
    bytes: &[u8],
    reader: &mut Reader<&[u8]>,
    row: &mut ByteRecord,
    mut out: Writer<Vec<u8>>,
    steps: &mut Steps<L>,
) -> Result<Vec<u8>, NoMemory>
    requires left { HasLeft reader.old (below bytes.now) }
    requires begun { HoldsText (λ v. Some v.items) out (written_row_of (heading_of base)) }
    ensures rows { IfOk result (λ t. HasRows base heads.now (below bytes.now) (written_row_of (heading_of base)) t.items) }
    ensures counts { CountsAtMost (RecordsReach base heads.now (below bytes.now)) steps.old steps.new }
{
    with_rows(alloc, base, heads, bytes, reader, row, &mut out, steps)?;
    let text = text_of(out)?;
    Ok(text)
}

/// The heading and the rows of the records below heads.
fn decided<L: Ledger>(
    alloc: Global,
    base: Rulebase,
    heads: &[Head],
    bytes: &[u8],
    reader: &mut Reader<&[u8]>,
    row: &mut ByteRecord,
    steps: &mut Steps<L>,
) -> Result<Vec<u8>, NoMemory>
    requires left { HasLeft reader.old (below bytes.now) }
    ensures rows { IfOk result (λ t. HasRows base heads.now (below bytes.now) (written_row_of (heading_of base)) t.items) }
    ensures counts { CountsAtMost (RecordsReach base heads.now (below bytes.now)) steps.old steps.new }
{
    let Ok(out) = begun(alloc, &base, row) else {
        drop(base);
        return Err(NoMemory);
    };
    filled(alloc, base, heads, bytes, reader, row, out, steps)
}

/// What the heads of an input that are none give.
fn refused(alloc: Global, text: &Txt) -> Result<Made, NoMemory>
    ensures good { IfOk result (λ m. m.good ≡ statuses.Refused) }
    ensures text { IfOk result (λ m. m.text.items ≡ text.now) }
{
    let text = text.as_str().as_bytes().to_vec(alloc)?;
    Ok(Made {
        good: Status::Refused,
        text,
    })
}

/// What the heading of an input, which was cut, and the records below it give.
fn headed<L: Ledger>(
    alloc: Global,
    base: Rulebase,
    bytes: &[u8],
    reader: &mut Reader<&[u8]>,
    row: &mut ByteRecord,
    steps: &mut Steps<L>,
) -> Result<Made, NoMemory>
    requires left { HasLeft reader.old (below bytes.now) }
    ensures gives { IfOk result (λ m. GivesOf base (fields_of row.old ∷ below bytes.now) m.good m.text.items) }
    ensures counts { MayCount base (fields_of row.old ∷ below bytes.now) steps.old steps.new }
{
    let Ok(columns) = heads_of(alloc, &base.model, row) else {
        drop(base);
        return Err(NoMemory);
    };
    match columns {
        Err(text) => {
            drop(base);
            let made = refused(alloc, &text)?;
            Ok(made)
        }
        Ok(heads) => {
            let text = decided(alloc, base, heads.as_slice(), bytes, reader, row, steps)?;
            Ok(Made {
                good: Status::Done,
                text,
            })
        }
    }
}

/// What an input without a record gives.
fn without_heading(alloc: Global) -> Result<Made, NoMemory>
    ensures good { IfOk result (λ m. m.good ≡ statuses.Refused) }
    ensures text { IfOk result (λ m. m.text.items ≡ no_heading) }
{
    let text = b"refused: no heading\n".to_vec(alloc)?;
    Ok(Made {
        good: Status::Refused,
        text,
    })
}

/// What the records of an input give, of which none was cut yet.
fn given<L: Ledger>(
    alloc: Global,
    base: Rulebase,
    bytes: &[u8],
    reader: &mut Reader<&[u8]>,
    row: &mut ByteRecord,
    steps: &mut Steps<L>,
) -> Result<Made, NoMemory>
    requires left { HasLeft reader.old (table_records bytes.now) }
    ensures gives { IfOk result (λ m. Gives base bytes.now m.good m.text.items) }
    ensures counts { MayCount base (table_records bytes.now) steps.old steps.new }
{
    let Ok(found) = cut_next(reader, row) else {
        drop(base);
        return Err(NoMemory);
    };
    if !found {
        drop(base);
        let made = without_heading(alloc)?;
        return Ok(made);
    }
    let made = headed(alloc, base, bytes, reader, row, steps)?;
    Ok(made)
}

/// What an input gives.
pub(crate) fn make<L: Ledger>(
    alloc: Global,
    base: Rulebase,
    bytes: &[u8],
    steps: &mut Steps<L>,
) -> Result<Made, NoMemory>
    ensures gives { IfOk result (λ m. Gives base bytes.now m.good m.text.items) }
    ensures counts { MayCount base (table_records bytes.now) steps.old steps.new }
{
    let mut reader = reader_of(alloc, bytes);
    let mut row = ByteRecord::new(alloc);
    let made = given(alloc, base, bytes, &mut reader, &mut row, steps);
    made
}
