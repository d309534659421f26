// A line as it is read: its blanks, its text and its tokens.
ghost use Rattle.std.specs.Prelude.{◌≡◌, ◌≤◌, length, IfOk, IfErr};
ghost use Rattle.std.specs.List.{All};
ghost use Rattle.std.specs.Str.{chars};
ghost use Rattle.opa_words.specs.Places.{IsWithin, IsOfKind};
ghost use Rattle.opa_words.specs.Cuts.{Cuts};
ghost use Rattle.opa_script.specs.Lines as meant;
ghost use Rattle.opa_script.specs.Lines.{IsText, IsNoText, IsNotCut};

use crate::CmdFault;
use opa_io::limits::MOST_LINE;
use opa_words::{Token, WordFault, tokens};
use std::alloc::Global;
use std::str;

/// What follows the blanks at the front.
pub fn past_blanks(line: &[u8]) -> &[u8]
    ensures { result.now ≡ meant.past_blanks line.now }
{
    let mut rest = line;
    while let [first, later @ ..] = rest {
        if *first == b' ' || *first == b'\t' {
            rest = later;
        } else {
            return rest;
        }
    }
    rest
}

/// Whether the line is blank or a comment.
pub fn is_idle(line: &[u8]) -> bool
    ensures { result ≡ meant.is_idle line.now }
{
    match past_blanks(line) {
        [] => true,
        [first, ..] => *first == b'#',
    }
}

/// The text of a line that isn't too long.
pub(crate) fn text_of(line: &[u8]) -> Result<&str, CmdFault>
    ensures text { IfOk result (λ t. IsText line.now t.now) }
    ensures fault { IfErr result (IsNoText line.now) }
{
    if line.len() > MOST_LINE {
        return Err(CmdFault::NotACommand);
    }
    match str::from_utf8(line) {
        Ok(text) => Ok(text),
        Err(_) => Err(CmdFault::NotACommand),
    }
}

/// The tokens of a line.
pub(crate) fn cut(alloc: Global, text: &str) -> Result<Vec<Token>, CmdFault>
    requires { length text.now ≤ 65536 }
    ensures cut { IfOk result (λ v. Cuts (length text.now) (chars text.now) v.items) }
    ensures within { IfOk result (λ v. All (IsWithin text.now) v.items) }
    ensures kinds { IfOk result (λ v. All (IsOfKind text.now) v.items) }
    ensures fault { IfErr result (IsNotCut text.now) }
{
    match tokens(alloc, text) {
        Ok(found) => Ok(found),
        Err(WordFault::Place(_)) => Err(CmdFault::NotACommand),
        Err(WordFault::NoMemory) => Err(CmdFault::NoMemory),
    }
}
