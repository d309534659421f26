// A line, or an operand, as a whole.
ghost use Rattle.std.specs.Prelude.{IfOk};
ghost use Rattle.std.specs.List.{All};
ghost use Rattle.opa_words.specs.Places.{IsWithin};
ghost use Rattle.opa_sentence.specs.Lexemes.{lexemes};
ghost use Rattle.opa_sentence.specs.Spelling.{IsSpelling};
ghost use Rattle.opa_sentence.specs.Grammar.{LINE, OPERAND};

use crate::reader::read;
use crate::{Cursor, Names, Reading, Sort};
use opa_io::NoMemory;
use opa_words::Token;
use std::alloc::Global;

/// What these tokens of a text say as a line.
pub fn line_of(
    alloc: Global,
    names: &Names,
    text: &str,
    tokens: &[Token],
) -> Result<Option<Reading>, NoMemory>
    requires { All (IsWithin text.now) tokens.now }
    ensures { IfOk result (IsSpelling names.now LINE (lexemes text.now tokens.now)) }
{
    match read(alloc, names, Sort::Line, Cursor::new(text, tokens))? {
        None => Ok(None),
        Some((reading, rest)) => {
            if rest.tokens.is_empty() {
                Ok(Some(reading))
            } else {
                Ok(None)
            }
        }
    }
}

/// What these tokens of a text say as an operand.
pub fn operand_of(
    alloc: Global,
    names: &Names,
    text: &str,
    tokens: &[Token],
) -> Result<Option<Reading>, NoMemory>
    requires { All (IsWithin text.now) tokens.now }
    ensures { IfOk result (IsSpelling names.now OPERAND (lexemes text.now tokens.now)) }
{
    match read(alloc, names, Sort::Operand, Cursor::new(text, tokens))? {
        None => Ok(None),
        Some((reading, rest)) => {
            if rest.tokens.is_empty() {
                Ok(Some(reading))
            } else {
                Ok(None)
            }
        }
    }
}
