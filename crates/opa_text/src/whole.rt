// Whole texts that are read.
ghost use Rattle.std.specs.Prelude.{◌<◌, ◌^◌, length, IfOk, IfErr, MatchResult};
ghost use Rattle.std.specs.Str.{chars};
ghost use Rattle.std.specs.List.{All};
ghost use Rattle.opa_words.specs.Places.{IsWithin, IsOfKind};
ghost use Rattle.opa_words.specs.Cuts.{Cuts};
ghost use Rattle.opa_text.specs.Texts.{HasDays};
ghost use Rattle.opa_text.specs.Spelled.{IsLineOf, IsNamesOf, IsNotCut, SaysNoLine, SaysNoNames};

use crate::ReadFault;
use crate::changes::line_of;
use crate::names::names_of;
use opa_io::{List, NoMemory, Txt};
use opa_line::Line;
use opa_value::Value;
use opa_words::{Pieces, Token, WordFault, tokens};
use std::alloc::Global;

/// Reads a line: `VALUE; from DATE VALUE; ..`, with rising dates after 1600-01-01.
pub fn read_line(alloc: Global, text: &str) -> Result<Line<Value>, ReadFault>
    requires { length text.now < 2 ^ 32 }
    ensures line { IfOk result (IsLineOf text.now) }
    ensures days { IfOk result HasDays }
    ensures fault { IfErr result (SaysNoLine text.now) }
{
    match cut(alloc, text) {
        Err(fault) => Err(fault),
        Ok(found) => match line_of(alloc, Pieces::new(text, &found)) {
            Err(NoMemory) => Err(ReadFault::NoMemory),
            Ok(None) => Err(ReadFault::Value),
            Ok(Some(line)) => Ok(line),
        },
    }
}

/// Reads names: `none`, or names between quotes with commas between them.
pub fn read_names(alloc: Global, text: &str) -> Result<List<Txt>, ReadFault>
    requires { length text.now < 2 ^ 32 }
    ensures names { IfOk result (IsNamesOf text.now) }
    ensures fault { IfErr result (SaysNoNames text.now) }
{
    match cut(alloc, text) {
        Err(fault) => Err(fault),
        Ok(found) => match names_of(alloc, Pieces::new(text, &found)) {
            Err(NoMemory) => Err(ReadFault::NoMemory),
            Ok(None) => Err(ReadFault::Value),
            Ok(Some(names)) => Ok(names),
        },
    }
}

/// The tokens of a text.
fn cut(alloc: Global, text: &str) -> Result<Vec<Token>, ReadFault>
    requires { length text.now < 2 ^ 32 }
    ensures cut { IfOk result (λ v. Cuts (length text.now) (chars text.now) v.items) }
    ensures within { IfOk result (λ v. All (IsWithin text.now) v.items) }
    ensures kinds { IfOk result (λ v. All (IsOfKind text.now) v.items) }
    ensures fault { IfErr result (IsNotCut text.now) }
{
    match tokens(alloc, text) {
        Ok(found) => Ok(found),
        Err(WordFault::Place(_)) => Err(ReadFault::Value),
        Err(WordFault::NoMemory) => Err(ReadFault::NoMemory),
    }
}
