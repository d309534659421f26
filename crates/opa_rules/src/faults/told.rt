// What is said of an error of blocks: of a phrase that isn't known, of a block that can't be read, and of all else.
ghost use Rattle.std.specs.Prelude.{◌≡◌, ◌<◌, ◌^◌, length, Some, IfOk, IfSome};
ghost use Rattle.std.specs.List.{All};
ghost use Rattle.std.specs.Option.{option_copied};
ghost use Rattle.std.specs.String.{string_bytes};
ghost use Rattle.opa_words.specs.Places.{IsWithin};
ghost use Rattle.opa_sentence.specs.Cursors.{seen};
ghost use Rattle.opa_parse.specs.Fronts.{AreShort};
ghost use Rattle.opa_rules.specs.Faults.Told.{asked as asked_of, unknown_words as unknown_words_of, told_at as told_at_of, told_of as told_of_phrase, told_in as told_in_of, headed as headed_of, is_name as is_name_of, is_syntax as is_syntax_of, IsNamed, IsUnread, IsTold, IsToldOf, IsToldBy, IsToldIn};

use crate::faults::blocks::{block_with, line_in, reads_phrases};
use crate::faults::known::Known;
use crate::faults::marks::{Told, characters_before, marked, plain};
use crate::faults::nearest::nearest;
use crate::faults::unknown::{inner, unknown};
use crate::faults::unread::block_told;
use opa_io::{NoMemory, Txt, front};
use opa_sentence::Cursor;
use opa_tree::{RbFault, RbKind};
use opa_words::{Block, BlockLine, Token, WordFault, phrase_text, tokens};
use std::alloc::Global;

fn asked(alloc: Global, near: Option<&Txt>) -> Result<String, NoMemory>
    ensures { IfOk result (λ t. string_bytes t ≡ asked_of (option_copied near.entry)) }
{
    match near {
        None => Ok(String::new(alloc)),
        Some(phrase) => Ok(format!(in alloc; "; did you mean '{}'?", phrase.as_str())?),
    }
}

/// That a phrase isn't declared, and which one may be meant.
fn unknown_words(alloc: Global, found: &str, near: Option<&Txt>) -> Result<Txt, NoMemory>
    ensures { IfOk result (λ t. t ≡ unknown_words_of found.now (option_copied near.entry)) }
{
    let asked = asked(alloc, near)?;
    let text = format!(in alloc;
        "no attribute or list is called '{}'{}",
        found,
        asked.as_str()
    )?;
    Ok(Txt::from_string(text))
}

/// What is said of a line, whose tokens from the first phrase on that isn't known are these.
fn told_at(alloc: Global, known: &Known, line: &BlockLine, left: &[Token]) -> Result<Told, NoMemory>
    requires { All (IsWithin line.now.text) left.now }
    ensures { IfOk result (λ t. t ≡ told_at_of known.now.texts line.now left.now) }
{
    match front(left) {
        None => plain(alloc, line.line, RbKind::Name, Some(line)),
        Some((first, _)) => {
            let text = line.text.as_str();
            let found = phrase_text(alloc, text, &left[..inner(text, left)])?;
            let before = characters_before(alloc, text, first.start)?;
            told_of(alloc, known, line, before, found.as_str())
        }
    }
}

/// What is said of a phrase that isn't known, behind so many characters of a line.
fn told_of(
    alloc: Global,
    known: &Known,
    line: &BlockLine,
    before: u64,
    found: &str,
) -> Result<Told, NoMemory>
    requires { before < 2 ^ 63 }
    ensures { IfOk result (λ t. t ≡ told_of_phrase known.now.texts line.now before found.now) }
{
    let near = nearest(found.as_bytes(), known.texts.as_slice());
    let words = unknown_words(alloc, found, near)?;
    marked(alloc, line, before, words)
}

/// How many tokens begin a line over a group of a list.
fn headed(known: &Known, words: Cursor<'_>) -> usize
    ensures { result ≡ headed_of (seen words.entry) }
{
    match words.longest(&known.heads) {
        None => 0,
        Some((_, count)) => count,
    }
}

/// What is said of a line, whose tokens are these.
fn told_in(
    alloc: Global,
    known: &Known,
    line: &BlockLine,
    tokens: &[Token],
) -> Result<Told, NoMemory>
    requires { All (IsWithin line.now.text) tokens.now }
    ensures { IfOk result (λ t. t ≡ told_in_of known.now.texts line.now tokens.now) }
{
    let text = line.text.as_str();
    let skipped = headed(known, Cursor::new(text, tokens));
    let left = unknown(&known.phrases, text, tokens, skipped);
    told_at(alloc, known, line, left)
}

/// What is said of a line that may have a phrase that isn't known.
fn named(alloc: Global, known: &Known, line: &BlockLine) -> Result<Told, NoMemory>
    requires { length line.now.text < 2 ^ 32 }
    ensures { IfOk result (IsNamed known.now.texts line.now) }
{
    match tokens(alloc, line.text.as_str()) {
        Ok(tokens) => told_in(alloc, known, line, tokens.as_slice()),
        Err(WordFault::Place(_)) => plain(alloc, line.line, RbKind::Name, Some(line)),
        Err(WordFault::NoMemory) => Err(NoMemory),
    }
}

fn is_name(kind: RbKind) -> bool
    ensures { result ≡ is_name_of kind }
{
    matches!(kind, RbKind::Name)
}

fn is_syntax(kind: RbKind) -> bool
    ensures { result ≡ is_syntax_of kind }
{
    matches!(kind, RbKind::Syntax)
}

/// What is said of a block that can't be read: of the first place that is found, or of its line as a whole.
fn unread(
    alloc: Global,
    lines: &[BlockLine],
    number: u32,
    line: Option<&BlockLine>,
) -> Result<Told, NoMemory>
    requires { AreShort lines.now }
    ensures { IfOk result (IsUnread lines.now number (option_copied line.entry)) }
{
    match block_told(alloc, lines)? {
        None => plain(alloc, number, RbKind::Syntax, line),
        Some(told) => Ok(told),
    }
}

/// What is said of an error of another kind, by its line and by whether that reads phrases.
fn told_by(
    alloc: Global,
    known: &Known,
    reads: bool,
    number: u32,
    line: Option<&BlockLine>,
    kind: RbKind,
) -> Result<Told, NoMemory>
    requires { IfSome (option_copied line) (λ l. length l.text < 2 ^ 32) }
    ensures { IfOk result (IsTold known.now.texts reads number (option_copied line.entry) kind) }
{
    match line {
        None => plain(alloc, number, kind, None),
        Some(line) => {
            if reads && is_name(kind) {
                named(alloc, known, line)
            } else {
                plain(alloc, number, kind, Some(line))
            }
        }
    }
}

/// What is said of an error in a line of a block with these lines.
fn told_of_line(
    alloc: Global,
    known: &Known,
    lines: &[BlockLine],
    line: Option<&BlockLine>,
    fault: &RbFault,
) -> Result<Told, NoMemory>
    requires short { AreShort lines.now }
    requires line { IfSome (option_copied line) (λ l. length l.text < 2 ^ 32) }
    ensures { IfOk result (IsToldOf known.now.texts lines.now (option_copied line.entry) fault.now) }
{
    if is_syntax(fault.kind) {
        unread(alloc, lines, fault.line, line)
    } else {
        let reads = reads_phrases(lines, fault.line);
        told_by(alloc, known, reads, fault.line, line, fault.kind)
    }
}

/// What is said of an error in a block.
fn told_in_block(
    alloc: Global,
    known: &Known,
    block: &Block,
    fault: &RbFault,
) -> Result<Told, NoMemory>
    requires { AreShort block.now.lines }
    ensures { IfOk result (IsToldBy known.now.texts (Some block.now) fault.now) }
{
    let lines = block.lines.as_slice();
    told_of_line(alloc, known, lines, line_in(lines, fault.line), fault)
}

/// What is said of an error of blocks.
pub(crate) fn told_in_blocks(
    alloc: Global,
    known: &Known,
    blocks: &[Block],
    fault: &RbFault,
) -> Result<Told, NoMemory>
    requires { All (λ b. AreShort b.lines) blocks.now }
    ensures { IfOk result (IsToldIn known.now.texts blocks.now fault.now) }
{
    match block_with(blocks, fault.file, fault.line) {
        None => plain(alloc, fault.line, fault.kind, None),
        Some(block) => told_in_block(alloc, known, block, fault),
    }
}
