// What is left of the tokens of a line.
ghost use Rattle.std.specs.Prelude.{◌≡◌, drop};
ghost use Rattle.std.specs.List.{All};
ghost use Rattle.opa_words.specs.Places.{IsWithin};

use crate::Class;
use crate::class::class_of;
use opa_words::{Phrases, Token, token_text};

/// The tokens that are left of a line, and the text that they are of.
#[derive(Clone, Copy, Debug)]
pub struct Cursor<'t> {
    pub text: &'t str,
    pub tokens: &'t [Token],
    ghost within: { All (IsWithin text.now) tokens.now },
}

impl<'t> Cursor<'t> {
    ghost use Rattle.std.specs.Prelude.{◌≡◌, ◌∷◌, [], drop, MatchOption};
    ghost use Rattle.std.specs.List.{All};
    ghost use Rattle.opa_words.specs.Places.{IsWithin};
    ghost use Rattle.opa_sentence.specs.Cursors.{seen};
    ghost use Rattle.opa_sentence.specs.Lexemes.{lexemes};
    ghost use Rattle.opa_sentence.specs.Phrases.{longest, past_words};

    pub fn new(text: &'t str, tokens: &'t [Token]) -> Cursor<'t>
        requires { All (IsWithin text.now) tokens.now }
        ensures { seen result ≡ lexemes text.now tokens.now }
    {
        Cursor { text, tokens }
    }

    /// The class and the text of the first token, and what follows it.
    pub fn first(self) -> Option<(Class, &'t str, Cursor<'t>)>
        ensures { MatchOption result (seen self.entry ≡ [])
            (λ x. seen self.entry ≡ record { class = x.0; text = x.1.now } ∷ seen x.2) }
    {
        match self.tokens {
            [] => None,
            [token, rest @ ..] => {
                let text = token_text(self.text, *token);
                Some((class_of(token.kind, text), text, self.with(rest)))
            }
        }
    }

    /// These tokens of the same text.
    fn with(self, tokens: &'t [Token]) -> Cursor<'t>
        requires { All (IsWithin self.text.now) tokens.now }
        ensures { seen result ≡ lexemes self.entry.text.now tokens.now }
    {
        Cursor {
            text: self.text,
            tokens,
        }
    }

    /// What follows so many tokens.
    #[tactic(auto, using(crate::proofs::LongestLaws::seen_drop))]
    pub fn skip(self, count: usize) -> Cursor<'t>
        ensures { seen result ≡ drop count (seen self.entry) }
    {
        self.with(rest_from(self.tokens, count))
    }

    /// What follows the words and numbers at the front.
    pub fn past_words(self) -> Cursor<'t>
        ensures { seen result ≡ past_words (seen self.entry) }
    {
        let mut rest = self;
        while let Some((class, _, after)) = rest.first() {
            if !class.is_wordlike() {
                return rest;
            }
            rest = after;
        }
        rest
    }

    /// The position of the longest phrase at the front, and how many tokens it has.
    pub fn longest(self, phrases: &Phrases) -> Option<(u32, usize)>
        ensures { result ≡ longest phrases.now (seen self.entry) }
    {
        phrases.longest(self.text, self.tokens, 0)
    }
}

fn rest_from(tokens: &[Token], place: usize) -> &[Token]
    ensures { result.now ≡ drop place tokens.now }
{
    if place < tokens.len() {
        &tokens[place..]
    } else {
        &[]
    }
}
