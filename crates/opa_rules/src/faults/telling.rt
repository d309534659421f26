// The mode `faults`.
ghost use Rattle.std.specs.Prelude.{◌≡◌, ◌≤◌, ◌⊎◌, [], None, length, All, IfOk, IfErr, IfSome, MatchOption};
ghost use Rattle.std.specs.Option.{option_map};
ghost use Rattle.std.specs.String.{string_bytes};
ghost use Rattle.opa_io.specs.Outside.{Rose};
ghost use Rattle.opa_io.specs.declared.fault.Status.TheVariants as status;
ghost use Rattle.opa_parse.specs.Fronts.{AreShort};
ghost use Rattle.opa_rulebase.specs.Loading.{AreBlocks, IsRefused};
ghost use Rattle.opa_rulebase.specs.declared.files.source.SourceFile.{SourceFile as FileView};
ghost use Rattle.opa_rules.specs.Faults.Finding.{AreAccepted, Finds};
ghost use Rattle.opa_rules.specs.Faults.Listing.{AreErrors};
ghost use Rattle.opa_rules.specs.Faults.Printed.{error_in, error_text};
ghost use Rattle.opa_rules.specs.Faults.Marks.{plain as plain_of};
ghost use Rattle.opa_rules.specs.Promises.{outside, Faults};

use crate::faults::known::known_of;
use crate::faults::listing::{most_listed, push_from};
use crate::faults::marks::plain;
use crate::faults::printed::{file_name, push_error};
use opa_io::{List, NoMemory, Shelf, Sink, Status};
use opa_rulebase::{
    Refusal, SourceFile, TakeError, Unaccepted, Unread, accept, lay_out, tables_of, take_files,
};
use opa_talk::tell;
use opa_tree::RbError;
use opa_words::Block;
use std::alloc::Global;

/// The text of the errors of files that are laid out, of which the first is known.
fn errors_of_blocks(
    alloc: Global,
    files: &[SourceFile],
    blocks: List<Block>,
    wrong: &Refusal,
) -> Result<String, NoMemory>
    requires texts { All (λ (f : FileView). length f.text ≤ 8388608) files.now }
    requires few { length files.now ≤ 101 }
    requires blocks { AreBlocks files.now blocks }
    requires short { All (λ b. AreShort b.lines) blocks }
    requires first { IsRefused files.now wrong.now.fault wrong.now.circle }
    ensures { IfOk result (λ text. AreErrors files.now (string_bytes text)) }
{
    let tables = tables_of(alloc, files)?;
    let known = known_of(alloc, files)?;
    let most = most_listed(files);
    let mut out = String::new(alloc);
    push_from(
        alloc,
        &mut out,
        files,
        tables.as_slice(),
        &known,
        blocks,
        most,
        wrong,
    )?;
    Ok(out)
}

/// The text of an error of the layout of files.
fn error_of_layout(alloc: Global, files: &[SourceFile], wrong: &Refusal) -> Result<String, NoMemory>
    ensures { IfOk result (λ text. string_bytes text ≡ error_in files.now [] wrong.now (plain_of wrong.now.fault.line wrong.now.fault.kind None)) }
{
    let mut out = String::new(alloc);
    let name = file_name(files, wrong.fault.file);
    let told = plain(alloc, wrong.fault.line, wrong.fault.kind, None)?;
    push_error(alloc, &mut out, name, wrong, None, &told)?;
    Ok(out)
}

/// The text of the errors of files, of which the first is known.
fn errors_of(alloc: Global, files: &[SourceFile], wrong: &Refusal) -> Result<String, NoMemory>
    requires texts { All (λ (f : FileView). length f.text ≤ 8388608) files.now }
    requires few { length files.now ≤ 101 }
    requires first { IsRefused files.now wrong.now.fault wrong.now.circle }
    ensures { IfOk result (λ text. AreErrors files.now (string_bytes text)) }
{
    match lay_out(alloc, files) {
        Ok(blocks) => errors_of_blocks(alloc, files, blocks, wrong),
        Err(RbError::Refused(_)) => error_of_layout(alloc, files, wrong),
        Err(RbError::NoMemory) => Err(NoMemory),
    }
}

/// The text of the errors of files, unless they are accepted.
fn found_in(alloc: Global, files: &[SourceFile]) -> Result<Option<String>, NoMemory>
    requires texts { All (λ (f : FileView). length f.text ≤ 8388608) files.now }
    requires few { length files.now ≤ 101 }
    ensures { IfOk result (λ r. MatchOption r (AreAccepted files.now) (λ text. AreErrors files.now (string_bytes text))) }
{
    match accept(alloc, files) {
        Ok(_) => Ok(None),
        Err(Unaccepted::Refused(wrong)) => Ok(Some(errors_of(alloc, files, &wrong)?)),
        Err(Unaccepted::NoMemory) => Err(NoMemory),
    }
}

/// The text of what is wrong with files that can't be taken.
fn unread_text(alloc: Global, unread: Unread) -> Result<String, NoMemory>
    ensures { IfOk result (λ text. string_bytes text ≡ error_text unread.name [] None (plain_of unread.fault.line unread.fault.kind None)) }
{
    let Unread { fault, name } = unread;
    let wrong = Refusal {
        fault,
        circle: List::new(alloc),
    };
    let mut out = String::new(alloc);
    let told = plain(alloc, wrong.fault.line, wrong.fault.kind, None)?;
    push_error(alloc, &mut out, name.as_str(), &wrong, None, &told)?;
    Ok(out)
}

/// The text of the errors of the rulebase of this name, unless it is accepted; or the status with which all ends.
fn find<F: Shelf>(alloc: Global, shelf: &mut F, name: &str) -> Result<Option<String>, Status>
    ensures found { IfSome (F.files shelf.old) (λ files. IfOk result (λ r. Finds files name.now (option_map (λ text. string_bytes text) r))) }
    ensures failed { IfErr result (λ s. ((s ≡ status.ReadFault) × Rose (F.take_faults shelf.old) (F.take_faults shelf.new)) ⊎ (s ≡ status.NoMemory)) }
    ensures files { F.files shelf.new ≡ F.files shelf.old }
{
    match take_files(alloc, shelf, name) {
        Ok(files) => match found_in(alloc, files.as_slice()) {
            Ok(found) => Ok(found),
            Err(_) => Err(Status::NoMemory),
        },
        Err(TakeError::Refused(unread)) => match unread_text(alloc, unread) {
            Ok(text) => Ok(Some(text)),
            Err(_) => Err(Status::NoMemory),
        },
        Err(TakeError::ReadFault) => Err(Status::ReadFault),
        Err(TakeError::NoMemory) => Err(Status::NoMemory),
    }
}

/// Writes the errors of the rulebase of this name.
pub(crate) fn faults<F: Shelf, K: Sink>(
    alloc: Global,
    name: &str,
    shelf: &mut F,
    out: &mut K,
) -> Status
    ensures faults { Faults name.now (outside F.files F.take_faults K.written K.faults shelf.old out.old)
        (outside F.files F.take_faults K.written K.faults shelf.new out.new) result }
    ensures files { F.files shelf.new ≡ F.files shelf.old }
{
    match find(alloc, shelf, name) {
        Ok(None) => Status::Done,
        Ok(Some(text)) => tell(Status::Refused, out, text.as_bytes()),
        Err(status) => status,
    }
}
