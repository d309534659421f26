// How errors are printed.
ghost use Rattle.std.specs.Prelude.{◌≡◌, ◌++◌, All, OnOk};
ghost use Rattle.std.specs.Option.{option_copied};
ghost use Rattle.std.specs.String.{string_bytes};
ghost use Rattle.opa_parse.specs.Fronts.{AreShort};
ghost use Rattle.opa_rulebase.specs.Loading.{name_at};
ghost use Rattle.opa_rules.specs.Faults.Printed.{error_in, error_text, source_of};
ghost use Rattle.opa_rules.specs.Faults.Told.{IsToldIn};
ghost use Rattle.opa_rules.specs.declared.faults.marks.Told.{Told as View};

use crate::faults::blocks::line_at;
use crate::faults::known::Known;
use crate::faults::marks::Told;
use crate::faults::told::told_in_blocks;
use opa_io::NoMemory;
use opa_rulebase::{Refusal, SourceFile, circle_lines};
use opa_words::{Block, BlockLine, printed_name};
use std::alloc::Global;

/// Puts the line behind a text, with a mark below it behind so many blanks.
fn push_source(
    alloc: Global,
    out: &mut String,
    line: Option<&BlockLine>,
    blanks: &str,
) -> Result<(), NoMemory>
    ensures { OnOk result (string_bytes out.new ≡ string_bytes out.old ++ source_of (option_copied line.entry) blanks.now) }
{
    match line {
        None => Ok(()),
        Some(line) => {
            let text = printed_name(alloc, line.text.as_str())?;
            out.push_str("  ")?;
            out.push_str(text.as_str())?;
            out.push_str("\n  ")?;
            out.push_str(blanks)?;
            out.push_str("^\n")?;
            Ok(())
        }
    }
}

/// The name of the file that has this place.
pub(crate) fn file_name(files: &[SourceFile], place: u32) -> &str
    ensures { result.now ≡ name_at files.now place }
{
    match files.get(place as usize) {
        Some(file) => file.name.as_str(),
        None => "",
    }
}

/// Puts an error behind a text: where it is, what it is in words, and its line.
pub(crate) fn push_error(
    alloc: Global,
    out: &mut String,
    name: &str,
    wrong: &Refusal,
    line: Option<&BlockLine>,
    told: &Told,
) -> Result<(), NoMemory>
    ensures { OnOk result (string_bytes out.new ≡ string_bytes out.old ++ error_text name.now wrong.now.circle (option_copied line.entry) told.now) }
{
    let name = printed_name(alloc, name)?;
    let circle = circle_lines(alloc, wrong.circle.as_slice())?;
    let head = format!(in alloc;
        "{}:{}:{}: error: {}\n{}",
        name.as_str(),
        told.line,
        told.column,
        told.words.as_str(),
        circle.as_str()
    )?;
    out.push_str(head.as_str())?;
    push_source(alloc, out, line, told.blanks.as_str())
}

/// Puts an error of files behind a text, as these blocks have it.
pub(crate) fn push_error_in(
    alloc: Global,
    out: &mut String,
    files: &[SourceFile],
    known: &Known,
    blocks: &[Block],
    wrong: &Refusal,
) -> Result<(), NoMemory>
    requires { All (λ b. AreShort b.lines) blocks.now }
    ensures { OnOk result ((told : View) × IsToldIn known.now.texts blocks.now wrong.now.fault told × (string_bytes out.new ≡ string_bytes out.old ++ error_in files.now blocks.now wrong.now told)) }
{
    let name = file_name(files, wrong.fault.file);
    let told = told_in_blocks(alloc, known, blocks, &wrong.fault)?;
    let line = line_at(blocks, wrong.fault.file, told.line);
    push_error(alloc, out, name, wrong, line, &told)
}
