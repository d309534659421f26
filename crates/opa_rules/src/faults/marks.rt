// What is said of an error, and where its mark is.
ghost use Rattle.std.specs.Prelude.{◌≡◌, ◌≤◌, ◌<◌, ◌^◌, length, replicate, IfOk};
ghost use Rattle.std.specs.Option.{option_copied};
ghost use Rattle.std.specs.Str.{chars, IsCharBoundary};
ghost use Rattle.opa_rules.specs.Faults.Marks.{column_of, plain as plain_of, marked as marked_of, characters_before as before_of};

use crate::faults::words::words;
use opa_io::{NoMemory, Txt};
use opa_tree::RbKind;
use opa_words::BlockLine;
use std::alloc::Global;

/// What is said of an error: the number of the line that is printed, the words, the column, and the blanks before the mark.
#[derive(Drop)]
pub(crate) struct Told {
    pub line: u32,
    pub words: Txt,
    pub column: u64,
    pub blanks: Txt,
}

/// Where the line begins, counted from 1: two blanks or a tab are one level of indentation.
fn column(line: Option<&BlockLine>) -> u64
    ensures at { result ≡ column_of (option_copied line.entry) }
    ensures few { result < 2 ^ 34 }
{
    match line {
        None => 1,
        Some(line) => line.level as u64 * 2 + 1,
    }
}

/// The words of the kind, and the mark below the first character of the line with this number.
pub(crate) fn plain(
    alloc: Global,
    number: u32,
    kind: RbKind,
    line: Option<&BlockLine>,
) -> Result<Told, NoMemory>
    ensures { IfOk result (λ t. t ≡ plain_of number kind (option_copied line.entry)) }
{
    Ok(Told {
        line: number,
        words: Txt::from_str(alloc, words(kind))?,
        column: column(line),
        blanks: Txt::from_str(alloc, "")?,
    })
}

fn characters(alloc: Global, text: &str) -> Result<Vec<char>, NoMemory>
    ensures { IfOk result (λ v. v.items ≡ chars text.now) }
{
    Ok(text.chars().collect(alloc)?)
}

/// How many characters stand before a byte of a text.
pub(crate) fn characters_before(alloc: Global, text: &str, place: u32) -> Result<u64, NoMemory>
    requires within { place ≤ length text.now }
    requires border { IsCharBoundary text.now place }
    ensures count { IfOk result (λ n. n ≡ before_of text.now place) }
    ensures few { IfOk result (λ n. n < 2 ^ 63) }
{
    let before = characters(alloc, &text[..place as usize])?;
    Ok(before.len() as u64)
}

fn blanks(alloc: Global, count: u64) -> Result<Txt, NoMemory>
    ensures { IfOk result (λ t. t ≡ replicate count 32) }
{
    let mut out = String::new(alloc);
    for _ in 0..count {
        out.push_str(" ")?;
    }
    Ok(Txt::from_string(out))
}

/// Words, and the mark in a line behind so many characters.
pub(crate) fn marked(
    alloc: Global,
    line: &BlockLine,
    before: u64,
    words: Txt,
) -> Result<Told, NoMemory>
    requires { before < 2 ^ 63 }
    ensures { IfOk result (λ t. t ≡ marked_of line.now before words) }
{
    Ok(Told {
        line: line.line,
        words,
        column: column(Some(line)) + before,
        blanks: blanks(alloc, before)?,
    })
}
