// The files of a rulebase are taken from a shelf.
ghost use Rattle.std.specs.Prelude.{◌≡◌, ◌+◌, ◌<◌, ◌≤◌, ◌∷◌, [], false, length, All, Ok, Err, Some, IfOk, IfSome, IfErr, MatchOption, slice_get};
ghost use Rattle.opa_rulebase.specs.Files.Files.{text_under, files_from, unread as unread_of, source, with_more, AreFiles, HasTakeError, RefusesFile};
ghost use Rattle.opa_rulebase.specs.declared.files.source.FileLine.{FileLine as LineView};
ghost use Rattle.opa_rulebase.specs.declared.files.source.SourceFile.{SourceFile as FileView};

use crate::files::lines::file_lines;
use crate::files::{FileLine, SourceFile, TakeError, Unread};
use opa_io::limits::{MOST_FILE, MOST_FILE_LINES};
use opa_io::{List, NoMemory, Shelf, TakeFault, Txt, front};
use opa_tree::{RbFault, RbKind};
use std::alloc::Global;

/// A fault of a file that has this place and this name.
fn unread(alloc: Global, file: u32, line: u32, kind: RbKind, name: &str) -> Result<Unread, NoMemory>
    ensures { IfOk result (λ u. u ≡ unread_of file line kind name.now) }
{
    Ok(Unread {
        fault: RbFault {
            file,
            line,
            kind,
            cycle: List::new(alloc),
        },
        name: Txt::from_str(alloc, name)?,
    })
}

/// The text of a file that has this place.
fn take_text<F: Shelf>(
    alloc: Global,
    shelf: &mut F,
    file: u32,
    name: &str,
) -> Result<Txt, TakeError>
    ensures text { IfSome (F.files shelf.old) (λ files. IfOk result (λ text. text_under files name.now ≡ Ok text)) }
    ensures short { IfOk result (λ text. length text ≤ 8388608) }
    ensures fault { IfErr result (HasTakeError (F.files shelf.old) (RefusesFile file name.now) (F.take_faults shelf.old) (F.take_faults shelf.new)) }
    ensures files { F.files shelf.new ≡ F.files shelf.old }
    ensures later { F.take_faults shelf.old ≤ F.take_faults shelf.new }
    ensures kept { F.keep_faults shelf.new ≡ F.keep_faults shelf.old }
{
    let kind = match shelf.take(alloc, name, MOST_FILE) {
        Ok(bytes) => match Txt::from_bytes(alloc, &bytes)? {
            Some(text) => return Ok(text),
            None => RbKind::Bytes,
        },
        Err(TakeFault::Missing) => RbKind::Missing,
        Err(TakeFault::TooLong) => RbKind::Limit,
        Err(TakeFault::Failed) => return Err(TakeError::ReadFault),
        Err(TakeFault::NoMemory) => return Err(TakeError::NoMemory),
    };
    Err(TakeError::Refused(unread(alloc, file, 0, kind, name)?))
}

/// The file that a line names, which has this place.
fn take_named<F: Shelf>(
    alloc: Global,
    shelf: &mut F,
    file: u32,
    line: &FileLine,
) -> Result<SourceFile, TakeError>
    ensures taken { IfSome (F.files shelf.old) (λ files. IfOk result (λ f. (text_under files line.now.name ≡ Ok f.text) × (f ≡ source line.now.name line.now.is_table f.text))) }
    ensures short { IfOk result (λ f. length f.text ≤ 8388608) }
    ensures fault { IfErr result (HasTakeError (F.files shelf.old) (RefusesFile file line.now.name) (F.take_faults shelf.old) (F.take_faults shelf.new)) }
    ensures files { F.files shelf.new ≡ F.files shelf.old }
    ensures later { F.take_faults shelf.old ≤ F.take_faults shelf.new }
    ensures kept { F.keep_faults shelf.new ≡ F.keep_faults shelf.old }
{
    let text = take_text(alloc, shelf, file, line.name.as_str())?;
    Ok(SourceFile {
        name: line.name.copy(alloc)?,
        is_table: line.is_table,
        text,
    })
}

/// The main file, and the files that these lines name.
fn take_all<F: Shelf>(
    alloc: Global,
    shelf: &mut F,
    main: SourceFile,
    lines: &[FileLine],
) -> Result<List<SourceFile>, TakeError>
    requires few { length lines.now ≤ 100 }
    requires short { length main.text ≤ 8388608 }
    ensures taken { IfSome (F.files shelf.old) (λ files. IfOk result (λ all. with_more (main ∷ []) (files_from files 1 lines.now) ≡ Ok all)) }
    ensures short { IfOk result (All (λ (f : FileView). length f.text ≤ 8388608)) }
    ensures few { IfOk result (λ all. length all ≡ 1 + length lines.now) }
    ensures fault { IfErr result (HasTakeError (F.files shelf.old) (λ files u. files_from files 1 lines.now ≡ Err u) (F.take_faults shelf.old) (F.take_faults shelf.new)) }
    ensures files { F.files shelf.new ≡ F.files shelf.old }
    ensures later { F.take_faults shelf.old ≤ F.take_faults shelf.new }
    ensures kept { F.keep_faults shelf.new ≡ F.keep_faults shelf.old }
{
    let mut taken = List::new(alloc);
    taken.push(main)?;
    let mut place = 1;
    let mut rest = lines;
    while let Some((line, later)) = front(rest) {
        let file = take_named(alloc, shelf, place, line)?;
        taken.push(file)?;
        place += 1;
        rest = later;
    }
    Ok(taken)
}

/// Where the first line stands that is one too many.
fn first_over(lines: &[FileLine]) -> Option<u32>
    ensures { MatchOption result (length lines.now ≤ 100) (λ n. (over : LineView) × (slice_get lines.now 100 ≡ Some over) × (n ≡ over.line)) }
{
    match lines.get(MOST_FILE_LINES) {
        None => None,
        Some(over) => Some(over.line),
    }
}

/// The files of the rulebase whose main file has this name: the main file, and those that its lines name.
pub fn take_files<F: Shelf>(
    alloc: Global,
    shelf: &mut F,
    name: &str,
) -> Result<List<SourceFile>, TakeError>
    // The files, or the first fault, where the shelf tells its files.
    ensures taken { IfSome (F.files shelf.old) (λ files. IfOk result (λ all. AreFiles files name.now (Ok all))) }
    ensures fault { IfErr result (HasTakeError (F.files shelf.old)
        (λ files u. AreFiles files name.now (Err u)) (F.take_faults shelf.old) (F.take_faults shelf.new)) }

    // The main file comes first, and there are few and short ones.
    ensures short { IfOk result (All (λ (f : FileView). length f.text ≤ 8388608)) }
    ensures few { IfOk result (λ all. length all ≤ 101) }

    // The shelf is as it was.
    ensures files { F.files shelf.new ≡ F.files shelf.old }
    ensures later { F.take_faults shelf.old ≤ F.take_faults shelf.new }
    ensures kept { F.keep_faults shelf.new ≡ F.keep_faults shelf.old }
{
    let text = take_text(alloc, shelf, 0, name)?;
    let lines = file_lines(alloc, text.as_str())?;
    if let Some(line) = first_over(lines.as_slice()) {
        return Err(TakeError::Refused(unread(alloc, 0, line, RbKind::Limit, name)?));
    }
    let main = SourceFile {
        name: Txt::from_str(alloc, name)?,
        is_table: false,
        text,
    };
    take_all(alloc, shelf, main, lines.as_slice())
}
