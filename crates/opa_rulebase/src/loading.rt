// A rulebase is loaded from a shelf.
ghost use Rattle.std.specs.Prelude.{◌≡◌, ◌≤◌, length, Ok, All, IfOk, IfErr, IfSome};
ghost use Rattle.opa_verbs.specs.Phrasing.{IsReadable};
ghost use Rattle.opa_rulebase.specs.declared.files.source.SourceFile.{SourceFile as FileView};
ghost use Rattle.opa_mean.specs.Kinds.Memberships.{MembershipsCount};
ghost use Rattle.opa_rulebase.specs.Loading.{Opens, HasLoadError, IsUntaken, IsUnacceptedAs, IsRefusedAs, IsAccepted, name_at};

use crate::accepting::accept;
use crate::fault::{LoadError, Refusal, Unaccepted};
use crate::files::{SourceFile, TakeError, take_files};
use crate::printed::refusal_text;
use opa_io::Shelf;
use opa_mean::memberships_count;
use opa_tree::Rulebase;
use std::alloc::Global;

/// The printed refusal of files that couldn't be taken.
fn untaken(alloc: Global, error: TakeError) -> LoadError
    ensures { IsUntaken error result }
{
    match error {
        TakeError::Refused(unread) => {
            let fault = unread.fault;
            match refusal_text(alloc, fault.kind, unread.name.as_str(), fault.line, &[]) {
                Ok(text) => LoadError::Refused { fault, text },
                Err(_) => LoadError::NoMemory,
            }
        }
        TakeError::ReadFault => LoadError::ReadFault,
        TakeError::NoMemory => LoadError::NoMemory,
    }
}

/// The name of the file that has this place.
fn file_name(files: &[SourceFile], place: u32) -> &str
    ensures { result.now ≡ name_at files.now place }
{
    match files.get(place as usize) {
        Some(file) => file.name.as_str(),
        None => "",
    }
}

/// The printed refusal of files that aren't accepted.
fn unaccepted(alloc: Global, files: &[SourceFile], error: Unaccepted) -> LoadError
    ensures { IsUnacceptedAs files.now error result }
{
    match error {
        Unaccepted::Refused(refusal) => {
            let Refusal { fault, circle } = refusal;
            let name = file_name(files, fault.file);
            match refusal_text(alloc, fault.kind, name, fault.line, circle.as_slice()) {
                Ok(text) => LoadError::Refused { fault, text },
                Err(_) => LoadError::NoMemory,
            }
        }
        Unaccepted::NoMemory => LoadError::NoMemory,
    }
}

/// The rulebase of the files that were taken.
fn load_files(alloc: Global, files: &[SourceFile]) -> Result<Rulebase, LoadError>
    requires texts { All (λ (f : FileView). length f.text ≤ 8388608) files.now }
    requires few { length files.now ≤ 101 }
    ensures accepted { IfOk result (IsAccepted files.now) }
    ensures readable { IfOk result (λ base. IsReadable base.model) }
    ensures refused { IfErr result (IsRefusedAs files.now) }
{
    match accept(alloc, files) {
        Ok(base) => Ok(base),
        Err(error) => Err(unaccepted(alloc, files, error)),
    }
}

/// The rulebase whose main file has this name: the main file and those that it names are taken from the shelf, laid out, and
/// read. A refusal has the first fault, and its text as it is printed.
pub fn load_rulebase<F: Shelf>(
    alloc: Global,
    shelf: &mut F,
    name: &str,
) -> Result<Rulebase, LoadError>
    // The rulebase that the files spell, or the cause of the refusal, where the shelf tells its files.
    ensures accepted { IfSome (F.files shelf.old) (λ files. IfOk result (λ base. Opens files name.now (Ok base))) }
    ensures refused { IfErr result (HasLoadError (F.files shelf.old) name.now (F.take_faults shelf.old)
        (F.take_faults shelf.new)) }

    // In what is accepted, over every case, trees that stand for quantifiers over an inferred relationship count its members alone.
    ensures memberships { IfOk result MembershipsCount }

    // Phrases are phrases, what denies an attribute is worded, and all of these differ, so that rules can read the model.
    ensures readable { IfOk result (λ base. IsReadable base.model) }

    // The shelf is as it was.
    ensures files { F.files shelf.new ≡ F.files shelf.old }
    ensures later { F.take_faults shelf.old ≤ F.take_faults shelf.new }
    ensures kept { F.keep_faults shelf.new ≡ F.keep_faults shelf.old }
{
    memberships_count();
    match take_files(alloc, shelf, name) {
        Ok(files) => load_files(alloc, files.as_slice()),
        Err(error) => Err(untaken(alloc, error)),
    }
}
