// The first place of a line that can't be read, whatever the rest of its block says.
ghost use Rattle.std.specs.Prelude.{◌≡◌, ◌≤◌, length, IfSome};
ghost use Rattle.std.specs.List.{All, list_any};
ghost use Rattle.opa_words.specs.Places.{IsWithin};
ghost use Rattle.opa_sentence.specs.Cursors.{seen};
ghost use Rattle.opa_parse.specs.Openings.{is_declaring as is_declaring_of, is_if as is_if_of};
ghost use Rattle.opa_rules.specs.Faults.Marks.{IsMark};
ghost use Rattle.opa_rules.specs.Faults.Signs.{is_equals as is_equals_of};
ghost use Rattle.opa_rules.specs.Faults.Slips.{begins_declaration as begins_declaration_of, first_part as first_part_of, ends_with_if as ends_with_if_of, next_part as next_part_of, part_at as part_at_of, is_headed as is_headed_of, head_slip as head_slip_of, bracket_at as bracket_at_of, line_slip as line_slip_of, below_slip as below_slip_of, is_quote as is_quote_of, stuck_by as stuck_by_of, stuck_slip as stuck_slip_of};

use crate::faults::brackets::{Brackets, bracket_slip, found};
use crate::faults::joints::end_slip;
use crate::faults::signs::{is_declaration, is_equals, is_first, wrong_sign};
use crate::faults::slip::{Part, Slip};
use opa_io::front;
use opa_parse::{Ending, ending_of};
use opa_sentence::Cursor;
use opa_words::{BlockLine, Token};

/// Whether a declaration begins with the word.
fn is_declaring(word: &str) -> bool
    ensures { result ≡ is_declaring_of word.now }
{
    if word == "verb" || word == "entity" || word == "global" || word == "goal" {
        true
    } else {
        word == "screen" || word == "include" || word == "table"
    }
}

fn begins_declaration(words: Cursor<'_>) -> bool
    ensures { result ≡ begins_declaration_of (seen words.entry) }
{
    match words.first() {
        None => false,
        Some((_, text, _)) => is_declaring(text),
    }
}

/// Which part of a block a first line with these tokens is.
pub(crate) fn first_part(words: Cursor<'_>) -> Part
    ensures { result ≡ first_part_of (seen words.entry) }
{
    if begins_declaration(words) {
        Part::Declaration
    } else {
        Part::First
    }
}

fn is_if(ending: Ending) -> bool
    ensures { result ≡ is_if_of ending }
{
    matches!(ending, Ending::If)
}

fn ends_with_if(words: Cursor<'_>) -> bool
    ensures { result ≡ ends_with_if_of (seen words.entry) }
{
    is_if(ending_of(words))
}

/// Which part of a block the lines right below such a first line are.
pub(crate) fn next_part(words: Cursor<'_>) -> Part
    ensures { result ≡ next_part_of (seen words.entry) }
{
    if begins_declaration(words) {
        Part::Declaration
    } else if ends_with_if(words) {
        Part::Item
    } else {
        Part::Case
    }
}

/// Which part of a block a line of this level is.
pub(crate) fn part_at(below: Part, level: u32) -> Part
    ensures { result ≡ part_at_of below level }
{
    match below {
        Part::Case => if level == 1 { Part::Case } else { Part::Item },
        Part::Declaration => Part::Declaration,
        Part::First => Part::First,
        Part::Item => Part::Item,
    }
}

fn has_equals(words: Cursor<'_>) -> bool
    ensures { result ≡ list_any (λ t. is_equals_of t.class) (seen words.entry) }
{
    let mut rest = words;
    while let Some((class, _, after)) = rest.first() {
        if is_equals(class) {
            return true;
        }
        rest = after;
    }
    false
}

/// Whether the first line of a rule has an equals sign, or ends with `if`.
fn is_headed(words: Cursor<'_>) -> bool
    ensures { result ≡ is_headed_of (seen words.entry) }
{
    has_equals(words) || ends_with_if(words)
}

fn head_slip(part: Part, text: &str, tokens: &[Token]) -> Option<(Slip, u32)>
    requires { All (IsWithin text.now) tokens.now }
    ensures at { result ≡ head_slip_of part text.now tokens.now }
    ensures within { IfSome result (IsMark text.now) }
{
    if is_first(part) && !is_headed(Cursor::new(text, tokens)) {
        found(text, Slip::Head, tokens)
    } else {
        None
    }
}

/// The first bracket without a partner.
fn bracket_at(part: Part, text: &str, tokens: &[Token]) -> Option<(Slip, u32)>
    requires { All (IsWithin text.now) tokens.now }
    ensures at { result ≡ bracket_at_of part text.now tokens.now }
    ensures within { IfSome result (IsMark text.now) }
{
    if is_declaration(part) {
        let signs = Brackets {
            opening: "[",
            closing: "]",
        };
        bracket_slip(text, signs, tokens)
    } else {
        let signs = Brackets {
            opening: "(",
            closing: ")",
        };
        bracket_slip(text, signs, tokens)
    }
}

/// The first place of a line by itself.
pub(crate) fn line_slip(part: Part, text: &str, tokens: &[Token]) -> Option<(Slip, u32)>
    requires { All (IsWithin text.now) tokens.now }
    ensures at { result ≡ line_slip_of part text.now tokens.now }
    ensures within { IfSome result (IsMark text.now) }
{
    match head_slip(part, text, tokens) {
        Some(slip) => Some(slip),
        None => match bracket_at(part, text, tokens) {
            Some(slip) => Some(slip),
            None => wrong_sign(part, text, tokens),
        },
    }
}

/// The first place of a line of this level, before these lines.
pub(crate) fn below_slip(
    part: Part,
    level: u32,
    text: &str,
    tokens: &[Token],
    later: &[BlockLine],
) -> Option<(Slip, u32)>
    requires { All (IsWithin text.now) tokens.now }
    ensures at { result ≡ below_slip_of part level text.now tokens.now later.now }
    ensures within { IfSome result (IsMark text.now) }
{
    match line_slip(part, text, tokens) {
        Some(slip) => Some(slip),
        None => end_slip(part, level, text, tokens, later),
    }
}

fn is_quote(byte: u8) -> bool
    ensures { result ≡ is_quote_of byte }
{
    byte == 34
}

fn has_quote(bytes: &[u8]) -> bool
    ensures { result ≡ list_any is_quote_of bytes.now }
{
    bytes.iter().any(|byte| is_quote(*byte))
}

fn stuck_by(bytes: &[u8]) -> Slip
    ensures { result ≡ stuck_by_of bytes.now }
{
    match front(bytes) {
        None => Slip::Sign,
        Some((first, rest)) => {
            if !is_quote(*first) {
                Slip::Sign
            } else if has_quote(rest) {
                Slip::Control
            } else {
                Slip::Text
            }
        }
    }
}

/// What is wrong where no token begins.
pub(crate) fn stuck_slip(text: &str, place: u32) -> Slip
    requires { place ≤ length text.now }
    ensures { result ≡ stuck_slip_of text.now place }
{
    stuck_by(&text.as_bytes()[place as usize..])
}
