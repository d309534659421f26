// The lines of the main file that name further ones.
ghost use Rattle.std.specs.Prelude.{ℕ, ◌≡◌, ◌<◌, ◌^◌, ◌∷◌, ◌++◌, [], List as Seq, Bool, length, IfOk, IfSome, MatchOption};
ghost use Rattle.opa_words.specs.Layout.Lines.{rows};
ghost use Rattle.opa_words.specs.Pieces.{Piece, seen, AreOfKind, word, text};
ghost use Rattle.opa_rulebase.specs.Files.FileLines.{AreFileLines, NamesFile, NamesNone, first_word, listed};

use crate::files::FileLine;
use opa_io::{List, NoMemory, Txt};
use opa_words::{
    Pieces, TokenKind, WordFault, first_line, indent_of, text_of, text_of_token, tokens,
    without_mark,
};
use std::alloc::Global;

/// Whether the first token is `table` or `include`, and what follows it.
fn file_word<'t>(pieces: Pieces<'t>) -> Option<(bool, Pieces<'t>)>
    requires { AreOfKind pieces }
    ensures found { MatchOption result ((t : Bool) (ps : Seq Piece) → seen pieces.entry ≡ word (first_word t) ∷ ps → ⊥) (λ x. seen pieces.entry ≡ word (first_word x.0) ∷ seen x.1) }
    ensures later { IfSome result (λ x. AreOfKind x.1) }
{
    let (kind, text, rest) = pieces.first()?;
    match kind {
        TokenKind::Word => match text {
            "include" => Some((false, rest)),
            "table" => Some((true, rest)),
            _ => None,
        },
        TokenKind::Number | TokenKind::Date | TokenKind::Text | TokenKind::Symbol => None,
    }
}

/// What the one token stands for, if it is a Text.
fn only_text(alloc: Global, pieces: Pieces<'_>) -> Result<Option<Txt>, NoMemory>
    requires { AreOfKind pieces }
    ensures { IfOk result (λ o. MatchOption o ((name : Seq ℕ) → seen pieces.entry ≡ text name ∷ [] → ⊥) (λ name. seen pieces.entry ≡ text name ∷ [])) }
{
    match pieces.first() {
        None => Ok(None),
        Some((kind, token, rest)) => match kind {
            TokenKind::Text => {
                if rest.is_empty() {
                    Ok(Some(text_of_token(alloc, token)?))
                } else {
                    Ok(None)
                }
            }
            TokenKind::Word | TokenKind::Number | TokenKind::Date | TokenKind::Symbol => Ok(None),
        },
    }
}

/// The file that tokens name.
fn named_by(alloc: Global, line: u32, pieces: Pieces<'_>) -> Result<Option<FileLine>, NoMemory>
    requires { AreOfKind pieces }
    ensures tokens { IfOk result (λ o. MatchOption o ((t : Bool) (name : Seq ℕ) → seen pieces.entry ≡ word (first_word t) ∷ text name ∷ [] → ⊥) (λ f. seen pieces.entry ≡ word (first_word f.is_table) ∷ text f.name ∷ [])) }
    ensures line { IfOk result (λ o. IfSome o (λ f. f.line ≡ line)) }
{
    match file_word(pieces) {
        None => Ok(None),
        Some((is_table, rest)) => match only_text(alloc, rest)? {
            None => Ok(None),
            Some(name) => Ok(Some(FileLine {
                line,
                is_table,
                name,
            })),
        },
    }
}

/// The file that the line with this number and text names.
fn named(alloc: Global, number: u32, line: &str) -> Result<Option<FileLine>, NoMemory>
    requires { length line.now < 2 ^ 32 }
    ensures { IfOk result (λ o. MatchOption o (NamesNone number line.now) (NamesFile number line.now)) }
{
    if indent_of(line).level > 0 {
        return Ok(None);
    }
    match tokens(alloc, line) {
        Err(WordFault::NoMemory) => Err(NoMemory),
        Err(WordFault::Place(_)) => Ok(None),
        Ok(found) => named_by(alloc, number, Pieces::new(line, &found)),
    }
}

/// The files with one more, if there is one.
fn with_named(found: List<FileLine>, named: Option<FileLine>) -> Result<List<FileLine>, NoMemory>
    ensures { IfOk result (λ all. all ≡ found ++ listed named) }
{
    match named {
        None => Ok(found),
        Some(line) => {
            let mut found = found;
            found.push(line)?;
            Ok(found)
        }
    }
}

/// The lines of a text that name files.
pub fn file_lines(alloc: Global, text: &str) -> Result<List<FileLine>, NoMemory>
    requires { length text.now < 2 ^ 32 }
    ensures { IfOk result (AreFileLines (rows text.now)) }
{
    let mut found = List::new(alloc);
    let mut count = 0;
    let mut rest = without_mark(text);
    while let Some((line, later)) = first_line(rest) {
        found = with_named(found, named(alloc, count + 1, text_of(line))?)?;
        count += 1;
        rest = later;
    }
    Ok(found)
}
