// The lines of a block are cut into words.
ghost use Rattle.std.specs.Prelude.{ℕ, ◌≡◌, ◌<◌, ◌^◌, ◌∷◌, [], length, map, IfOk, IfSome, MatchOption, List as Seq};
ghost use Rattle.std.specs.List.{All};
ghost use Rattle.std.specs.Str.{chars};
ghost use Rattle.opa_words.specs.Cuts.{Cuts};
ghost use Rattle.opa_words.specs.Places.{IsWithin};
ghost use Rattle.opa_words.specs.declared.kinds.Token.{Token as TokenView};
ghost use Rattle.opa_sentence.specs.Cursors.{seen};
ghost use Rattle.opa_parse.specs.declared.line.Line.{Line as LineView};
ghost use Rattle.opa_parse.specs.Lines.{AreLine, IsLine, AreLines};
ghost use Rattle.opa_parse.specs.Fronts.{Stands, AreShort};

use crate::words::{back, body, ending_of, head_of, is_none_left};
use crate::{Line, Lines};
use opa_io::NoMemory;
use opa_sentence::{Cursor, Names};
use opa_words::{BlockLine, Token, WordFault, tokens};
use std::alloc::Global;

/// The tokens of a text, or none where a character begins none.
#[tactic(auto, using(crate::proofs::CutOnce::cut_laws))]
pub fn cut(alloc: Global, text: &str) -> Result<Option<Vec<Token>>, NoMemory>
    requires { length text.now < 2 ^ 32 }
    ensures cut { IfOk result (λ o. MatchOption o
        ((ts : Seq TokenView) → Cuts (length text.now) (chars text.now) ts → ⊥)
        (λ v. Cuts (length text.now) (chars text.now) v.items)) }
    ensures within { IfOk result (λ o. IfSome o (λ v. All (IsWithin text.now) v.items)) }
{
    match tokens(alloc, text) {
        Ok(tokens) => Ok(Some(tokens)),
        Err(WordFault::Place(_)) => Ok(None),
        Err(WordFault::NoMemory) => Err(NoMemory),
    }
}

/// A text up to the first place at which no token begins.
pub fn front_of(alloc: Global, text: &str) -> Result<&str, NoMemory>
    requires { length text.now < 2 ^ 32 }
    ensures { IfOk result (λ front. Stands text.now front.now) }
{
    match tokens(alloc, text) {
        Ok(_) => Ok(text),
        Err(WordFault::Place(place)) => Ok(&text[..place as usize]),
        Err(WordFault::NoMemory) => Err(NoMemory),
    }
}

/// What words are to the grammar.
fn said_by(
    alloc: Global,
    names: &Names,
    level: u32,
    number: u32,
    words: Cursor<'_>,
) -> Result<Line, NoMemory>
    ensures { IfOk result (AreLine names.now level number (seen words.entry)) }
{
    let body = body(words);
    let says = opa_sentence::line_of(alloc, names, body.text, body.tokens)?;
    Ok(Line {
        level,
        number,
        ending: ending_of(words),
        is_bare: is_none_left(body),
        head: head_of(names, body),
        says,
    })
}

/// A line of a block, or none where it isn't cut.
fn line_of(alloc: Global, names: &Names, line: &BlockLine) -> Result<Option<Line>, NoMemory>
    requires { length line.now.text < 2 ^ 32 }
    ensures { IfOk result (λ o. MatchOption o ((l : LineView) → IsLine names.now line.now l → ⊥) (IsLine names.now line.now)) }
{
    let text = line.text.as_str();
    match cut(alloc, text)? {
        None => Ok(None),
        Some(tokens) => {
            let words = Cursor::new(text, tokens.as_slice());
            Ok(Some(said_by(alloc, names, line.level, line.line, words)?))
        }
    }
}

/// The lines of a block, or none where one isn't cut.
pub fn lines_of(
    alloc: Global,
    names: &Names,
    lines: &[BlockLine],
) -> Result<Option<Lines>, NoMemory>
    requires { AreShort lines.now }
    ensures { IfOk result (λ o. MatchOption o ((ls : Seq LineView) → AreLines names.now lines.now ls → ⊥)
        (AreLines names.now lines.now)) }
{
    let mut read = Lines::none(alloc);
    let mut rest = lines;
    while let Some((front, last)) = back(rest) {
        match line_of(alloc, names, last)? {
            None => return Ok(None),
            Some(line) => {
                read.put_first(line)?;
                rest = front;
            }
        }
    }
    Ok(Some(read))
}
