// What is said of a block that can't be read.
ghost use Rattle.std.specs.Prelude.{◌≡◌, ◌<◌, ◌^◌, ◌∷◌, length, IfOk, IfSome};
ghost use Rattle.std.specs.List.{All};
ghost use Rattle.std.specs.Option.{option_map};
ghost use Rattle.opa_words.specs.Places.{IsWithin};
ghost use Rattle.opa_parse.specs.Fronts.{AreShort};
ghost use Rattle.opa_rules.specs.Faults.Marks.{IsMark};
ghost use Rattle.opa_rules.specs.Faults.Unread.{told_slip as told_slip_of, IsLineTold, AreLinesTold, IsFirstTold, IsBlockTold};

use crate::faults::marks::{Told, characters_before, marked};
use crate::faults::slip::{Part, Slip};
use crate::faults::slips::{below_slip, first_part, line_slip, next_part, part_at, stuck_slip};
use crate::faults::words::slip_words;
use opa_io::{NoMemory, Txt, front};
use opa_sentence::Cursor;
use opa_words::{BlockLine, Token, WordFault, tokens};
use std::alloc::Global;

/// What is said of a place in a line.
fn told_slip(alloc: Global, line: &BlockLine, slip: (Slip, u32)) -> Result<Told, NoMemory>
    requires { IsMark line.now.text slip }
    ensures { IfOk result (λ t. t ≡ told_slip_of line.now slip) }
{
    let (slip, place) = slip;
    let before = characters_before(alloc, line.text.as_str(), place)?;
    marked(alloc, line, before, Txt::from_str(alloc, slip_words(slip))?)
}

fn told_if(
    alloc: Global,
    line: &BlockLine,
    slip: Option<(Slip, u32)>,
) -> Result<Option<Told>, NoMemory>
    requires { IfSome slip (IsMark line.now.text) }
    ensures { IfOk result (λ o. o ≡ option_map (told_slip_of line.now) slip) }
{
    match slip {
        None => Ok(None),
        Some(slip) => Ok(Some(told_slip(alloc, line, slip)?)),
    }
}

/// What is said of a line below the first one, before these lines, if anything is.
fn line_told(
    alloc: Global,
    below: Part,
    line: &BlockLine,
    later: &[BlockLine],
) -> Result<Option<Told>, NoMemory>
    requires { length line.now.text < 2 ^ 32 }
    ensures { IfOk result (IsLineTold below line.now later.now) }
{
    let text = line.text.as_str();
    match tokens(alloc, text) {
        Ok(tokens) => {
            let part = part_at(below, line.level);
            let slip = below_slip(part, line.level, text, tokens.as_slice(), later);
            told_if(alloc, line, slip)
        }
        Err(WordFault::Place(place)) => {
            Ok(Some(told_slip(alloc, line, (stuck_slip(text, place), place))?))
        }
        Err(WordFault::NoMemory) => Err(NoMemory),
    }
}

/// What is said of the first of such lines of which anything is.
fn lines_told(alloc: Global, below: Part, lines: &[BlockLine]) -> Result<Option<Told>, NoMemory>
    requires { AreShort lines.now }
    ensures { IfOk result (AreLinesTold below lines.now) }
{
    let mut rest = lines;
    while let Some((line, later)) = front(rest) {
        match line_told(alloc, below, line, later)? {
            Some(told) => return Ok(Some(told)),
            None => rest = later,
        }
    }
    Ok(None)
}

/// What is said of a first line with these tokens, or else of the lines below it.
fn first_told(
    alloc: Global,
    first: &BlockLine,
    tokens: &[Token],
    below: &[BlockLine],
) -> Result<Option<Told>, NoMemory>
    requires within { All (IsWithin first.now.text) tokens.now }
    requires short { AreShort below.now }
    ensures { IfOk result (IsFirstTold first.now tokens.now below.now) }
{
    let text = first.text.as_str();
    let words = Cursor::new(text, tokens);
    match line_slip(first_part(words), text, tokens) {
        None => lines_told(alloc, next_part(words), below),
        Some(slip) => Ok(Some(told_slip(alloc, first, slip)?)),
    }
}

/// What is said of a block with this first line and these lines below it.
fn headed_told(
    alloc: Global,
    first: &BlockLine,
    below: &[BlockLine],
) -> Result<Option<Told>, NoMemory>
    requires first { length first.now.text < 2 ^ 32 }
    requires short { AreShort below.now }
    ensures { IfOk result (IsBlockTold (first.now ∷ below.now)) }
{
    let text = first.text.as_str();
    match tokens(alloc, text) {
        Ok(tokens) => first_told(alloc, first, tokens.as_slice(), below),
        Err(WordFault::Place(place)) => {
            Ok(Some(told_slip(alloc, first, (stuck_slip(text, place), place))?))
        }
        Err(WordFault::NoMemory) => Err(NoMemory),
    }
}

/// What is said of the first place of a block that can't be read, if one is found.
pub(crate) fn block_told(alloc: Global, lines: &[BlockLine]) -> Result<Option<Told>, NoMemory>
    requires { AreShort lines.now }
    ensures { IfOk result (IsBlockTold lines.now) }
{
    match front(lines) {
        None => Ok(None),
        Some((first, below)) => headed_told(alloc, first, below),
    }
}
