// The errors of blocks, one after another.
ghost use Rattle.std.specs.Prelude.{◌≡◌, ◌<◌, ◌++◌, ℕ, All, OnOk, List as Seq};
ghost use Rattle.std.specs.String.{string_bytes};
ghost use Rattle.opa_parse.specs.Fronts.{AreShort};
ghost use Rattle.opa_rulebase.specs.Loading.{table_files};
ghost use Rattle.opa_rules.specs.Faults.Listing.{AreLater, AreListed, goes_on as goes_on_from, are_short as are_short_files, most_listed as most_listed_of, most_text};
ghost use Rattle.opa_rules.specs.Faults.Printed.{error_in};
ghost use Rattle.opa_rules.specs.Faults.Told.{IsToldIn};
ghost use Rattle.opa_rules.specs.declared.faults.marks.Told.{Told as View};

use crate::faults::blocks::{block_with, declares, without};
use crate::faults::finding::first_fault;
use crate::faults::known::Known;
use crate::faults::printed::push_error_in;
use opa_io::{List, NoMemory};
use opa_parse::TableFile;
use opa_rulebase::{Refusal, SourceFile, Unaccepted};
use opa_words::Block;
use std::alloc::Global;

/// How many errors are listed at most behind the first: fewer where a file is long, since all is read anew for each.
pub(crate) fn most_listed(files: &[SourceFile]) -> usize
    ensures most { result ≡ most_listed_of files.now }
    ensures few { result < 100 }
{
    if are_short(files) { 99 } else { 2 }
}

fn are_short(files: &[SourceFile]) -> bool
    ensures { result ≡ are_short_files files.now }
{
    files.iter().all(|file| file.text.as_str().len() <= 1048576)
}

/// Puts behind a text how many errors were listed.
fn push_most(alloc: Global, out: &mut String, files: &[SourceFile]) -> Result<(), NoMemory>
    ensures { OnOk result (string_bytes out.new ≡ string_bytes out.old ++ most_text files.now) }
{
    let listed = most_listed(files) + 1;
    let text = format!(in alloc; "{listed} errors are listed: there may be more\n")?;
    out.push_str(text.as_str())?;
    Ok(())
}

/// Whether the block in which an error is can be left out.
fn goes_on(blocks: &[Block], wrong: &Refusal) -> bool
    ensures { result ≡ goes_on_from blocks.now wrong.now }
{
    match block_with(blocks, wrong.fault.file, wrong.fault.line) {
        None => false,
        Some(block) => !declares(block),
    }
}

/// Puts the errors of blocks behind a text, at most so many.
fn push_errors(
    alloc: Global,
    out: &mut String,
    files: &[SourceFile],
    tables: &[TableFile],
    known: &Known,
    blocks: List<Block>,
    most: usize,
) -> Result<(), NoMemory>
    requires short { All (λ b. AreShort b.lines) blocks }
    requires tables { tables.now ≡ table_files 0 files.now }
    ensures { OnOk result ((more : Seq ℕ) × (string_bytes out.new ≡ string_bytes out.old ++ more) × AreListed files.now known.now.texts most blocks more) }
{
    if most == 0 {
        return push_most(alloc, out, files);
    }
    match first_fault(alloc, blocks.as_slice(), tables) {
        Ok(()) => Ok(()),
        Err(Unaccepted::NoMemory) => Err(NoMemory),
        Err(Unaccepted::Refused(wrong)) => {
            push_error_in(alloc, out, files, known, blocks.as_slice(), &wrong)?;
            if goes_on(blocks.as_slice(), &wrong) {
                let left = without(blocks, wrong.fault.file, wrong.fault.line);
                push_errors(alloc, out, files, tables, known, left, most - 1)
            } else {
                Ok(())
            }
        }
    }
}

/// Puts an error of blocks behind a text, and then at most so many of what is left without its block.
pub(crate) fn push_from(
    alloc: Global,
    out: &mut String,
    files: &[SourceFile],
    tables: &[TableFile],
    known: &Known,
    blocks: List<Block>,
    most: usize,
    wrong: &Refusal,
) -> Result<(), NoMemory>
    requires short { All (λ b. AreShort b.lines) blocks }
    requires tables { tables.now ≡ table_files 0 files.now }
    ensures { OnOk result ((told : View) × (more : Seq ℕ) × IsToldIn known.now.texts blocks wrong.now.fault told
        × (string_bytes out.new ≡ (string_bytes out.old ++ error_in files.now blocks wrong.now told) ++ more) × AreLater files.now known.now.texts most blocks wrong.now more) }
{
    push_error_in(alloc, out, files, known, blocks.as_slice(), wrong)?;
    if goes_on(blocks.as_slice(), wrong) {
        let left = without(blocks, wrong.fault.file, wrong.fault.line);
        push_errors(alloc, out, files, tables, known, left, most)
    } else {
        Ok(())
    }
}
