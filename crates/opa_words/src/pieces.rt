// What is left of the tokens of a text.
ghost use Rattle.std.specs.Prelude.{◌≡◌};
ghost use Rattle.std.specs.List.{All};
ghost use Rattle.opa_words.specs.Places.{IsWithin};

use crate::{Token, TokenKind, phrase_text, token_text};
use opa_io::{NoMemory, Txt};
use std::alloc::Global;

/// The tokens that are left of a text, and the text that they are of.
#[derive(Clone, Copy, Debug)]
pub struct Pieces<'t> {
    pub text: &'t str,
    pub tokens: &'t [Token],
    ghost within: { All (IsWithin text.now) tokens.now },
}

impl<'t> Pieces<'t> {
    ghost use Rattle.std.specs.Prelude.{◌≡◌, ◌≤◌, ◌∷◌, ◌++◌, [], length, MatchOption, IfSome, IfOk};
    ghost use Rattle.std.specs.List.{All};
    ghost use Rattle.std.specs.Str.{chars};
    ghost use Rattle.opa_words.specs.Places.{IsWithin, IsOfKind};
    ghost use Rattle.opa_words.specs.Kinds.{IsToken};
    ghost use Rattle.opa_words.specs.Pieces.{seen, pieces, is_nothing, phrase_of, AreOfKind};

    pub fn new(text: &'t str, tokens: &'t [Token]) -> Pieces<'t>
        requires within { All (IsWithin text.now) tokens.now }
        requires kinds { All (IsOfKind text.now) tokens.now }
        ensures tokens { seen result ≡ pieces text.now tokens.now }
        ensures kinds { AreOfKind result }
    {
        Pieces { text, tokens }
    }

    /// The kind and the text of the first token, and what follows it.
    pub fn first(self) -> Option<(TokenKind, &'t str, Pieces<'t>)>
        requires { AreOfKind self }
        ensures first { MatchOption result (seen self.entry ≡ [])
            (λ x. seen self.entry ≡ record { kind = x.0; text = x.1.now } ∷ seen x.2) }
        ensures kind { IfSome result (λ x. IsToken x.0 (chars x.1.now)) }
        ensures later { IfSome result (λ x. AreOfKind x.2) }
    {
        match self.tokens {
            [] => None,
            [token, rest @ ..] => Some((
                token.kind,
                token_text(self.text, *token),
                Pieces {
                    text: self.text,
                    tokens: rest,
                },
            )),
        }
    }

    /// The first tokens, so many, and the others.
    #[tactic(auto, using(crate::proofs::PieceLists::split_laws))]
    pub fn split(self, count: usize) -> (Pieces<'t>, Pieces<'t>)
        requires count { count ≤ length (seen self) }
        requires kinds { AreOfKind self }
        ensures parts { seen self.entry ≡ seen result.0 ++ seen result.1 }
        ensures front { length (seen result.0) ≡ count }
        ensures before { AreOfKind result.0 }
        ensures behind { AreOfKind result.1 }
    {
        let (front, back) = self.tokens.split_at(count);
        (
            Pieces {
                text: self.text,
                tokens: front,
            },
            Pieces {
                text: self.text,
                tokens: back,
            },
        )
    }

    /// The phrase that these tokens are.
    #[tactic(auto, using(crate::proofs::PieceLists::phrase_seen))]
    pub fn phrase(self, alloc: Global) -> Result<Txt, NoMemory>
        ensures { IfOk result (λ t. t ≡ phrase_of (seen self.entry)) }
    {
        phrase_text(alloc, self.text, self.tokens)
    }

    /// How many tokens are left.
    pub fn len(self) -> usize
        ensures { result ≡ length (seen self.entry) }
    {
        self.tokens.len()
    }

    /// Whether no token is left.
    pub fn is_empty(self) -> bool
        ensures { result ≡ is_nothing (seen self.entry) }
    {
        self.tokens.is_empty()
    }
}
