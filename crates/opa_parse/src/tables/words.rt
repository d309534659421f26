// The words of a cell.
ghost use Rattle.std.specs.Prelude.{◌≡◌, ◌<◌, ◌^◌, ℕ, List as Seq, length, IfOk, IfSome, MatchOption};
ghost use Rattle.std.specs.List.{All};
ghost use Rattle.std.specs.Str.{IsUtf8, chars};
ghost use Rattle.opa_words.specs.Cuts.{Cuts};
ghost use Rattle.opa_words.specs.Places.{IsWithin};
ghost use Rattle.opa_words.specs.declared.kinds.Token.{Token as TokenView};
ghost use Rattle.opa_sentence.specs.Cursors.{seen};
ghost use Rattle.opa_sentence.specs.Lexemes.{lexemes, Lexeme};
ghost use Rattle.opa_parse.specs.Lines.{is_none};
ghost use Rattle.opa_parse.specs.Tables.Cells.{IsCell};

use opa_io::NoMemory;
use opa_sentence::Cursor;
use opa_words::{Token, WordFault, tokens};
use std::alloc::Global;

/// A cell that is cut into tokens.
#[derive(Drop)]
pub struct Words<'t> {
    pub text: &'t str,
    pub tokens: Vec<Token>,
    ghost within: { All (IsWithin text.now) tokens.items },
}

impl<'t> Words<'t> {
    pub fn cursor(&self) -> Cursor<'_>
        ensures { seen result ≡ lexemes self.now.text.now self.now.tokens.items }
    {
        Cursor::new(self.text, self.tokens.as_slice())
    }
}

/// The cell, if it is text.
fn text_of(cell: &[u8]) -> Option<&str>
    ensures { MatchOption result (¬ (IsUtf8 cell.now)) (λ s. (s.now ≡ cell.now) × IsUtf8 s.now) }
{
    str::from_utf8(cell).ok()
}

/// The tokens of a text, or none where a character begins none. A text that is too long to be counted isn't held either.
#[tactic(auto, using(crate::proofs::CutOnce::cut_laws))]
fn cut(alloc: Global, text: &str) -> Result<Option<Vec<Token>>, NoMemory>
    ensures cut { IfOk result (λ o. MatchOption o ((ts : Seq TokenView) → Cuts (length text.now) (chars text.now) ts → ⊥) (λ v. Cuts (length text.now) (chars text.now) v.items)) }
    ensures within { IfOk result (λ o. IfSome o (λ v. All (IsWithin text.now) v.items)) }
{
    if text.len() >= 4_294_967_296 {
        return Err(NoMemory);
    }
    match tokens(alloc, text) {
        Ok(tokens) => Ok(Some(tokens)),
        Err(WordFault::Place(_)) => Ok(None),
        Err(WordFault::NoMemory) => Err(NoMemory),
    }
}

/// The words of a cell, or none where it isn't cut.
pub fn words_of<'t>(alloc: Global, cell: &'t [u8]) -> Result<Option<Words<'t>>, NoMemory>
    ensures { IfOk result (λ o. MatchOption o ((ws : Seq Lexeme) → IsCell cell.now ws → ⊥)
        (λ w. IsCell cell.now (lexemes w.text.now w.tokens.items))) }
{
    match text_of(cell) {
        None => Ok(None),
        Some(text) => match cut(alloc, text)? {
            None => Ok(None),
            Some(tokens) => Ok(Some(Words { text, tokens })),
        },
    }
}

pub fn is_none_left(words: Cursor<'_>) -> bool
    ensures { result ≡ is_none (seen words.entry) }
{
    words.tokens.is_empty()
}
