// Pieces of a line that is cut into tokens.
ghost use Rattle.std.specs.Prelude.{◌≡◌, ◌∷◌, [], None, Some, position, IfOk, MatchOption};
ghost use Rattle.std.specs.List.{All, list_all};
ghost use Rattle.opa_words.specs.declared.kinds.TokenKind.TheVariants.{Text};
ghost use Rattle.opa_words.specs.Places.{IsWithin, IsOfKind};
ghost use Rattle.opa_words.specs.Reserved.{is_word_kind};
ghost use Rattle.opa_decl.specs.Pieces.{has_text, split_at as split, phrase, words, are_words, one_text, quoted_text, is_text_kind, is_number_kind};

use opa_io::{NoMemory, Txt, front};
use opa_words::{Token, TokenKind, is_phrase, phrase_text, text_of_token, token_text};
use std::alloc::Global;

/// Whether the token is this word or symbol.
pub fn has_text(text: &str, mark: &str, token: Token) -> bool
    requires { IsWithin text.now token }
    ensures { result ≡ has_text text.now mark.now token }
{
    token_text(text, token) == mark
}

/// The place of the first token of this text.
fn place_of(text: &str, mark: &str, tokens: &[Token]) -> Option<usize>
    requires { All (IsWithin text.now) tokens.now }
    ensures { result ≡ position (has_text text.now mark.now) tokens.now }
{
    tokens.iter().position(|token| has_text(text, mark, *token))
}

/// The tokens before the first one of this text, and those after it.
#[tactic(auto, unfolding(crate::specs::Pieces::split_at))]
pub fn split_at<'t>(
    text: &str,
    mark: &str,
    tokens: &'t [Token],
) -> Option<(&'t [Token], &'t [Token])>
    requires { All (IsWithin text.now) tokens.now }
    ensures split { MatchOption result (split text.now mark.now tokens.now ≡ None)
        (λ x. split text.now mark.now tokens.now ≡ Some (x.0.now, x.1.now)) }
    ensures before { MatchOption result (split text.now mark.now tokens.now ≡ None)
        (λ x. All (IsWithin text.now) x.0.now) }
    ensures after { MatchOption result (split text.now mark.now tokens.now ≡ None)
        (λ x. All (IsWithin text.now) x.1.now) }
{
    match place_of(text, mark, tokens) {
        None => None,
        Some(place) => Some((&tokens[..place], &tokens[place + 1..])),
    }
}

/// The phrase that the tokens are.
#[tactic(auto, unfolding(crate::specs::Pieces::phrase))]
pub fn phrase(alloc: Global, text: &str, tokens: &[Token]) -> Result<Option<Txt>, NoMemory>
    requires { All (IsWithin text.now) tokens.now }
    ensures { IfOk result (λ o. o ≡ phrase text.now tokens.now) }
{
    if is_phrase(text, tokens) {
        Ok(Some(phrase_text(alloc, text, tokens)?))
    } else {
        Ok(None)
    }
}

/// The words that the tokens are.
#[tactic(auto, unfolding(crate::specs::Pieces::words))]
pub fn words(alloc: Global, text: &str, tokens: &[Token]) -> Result<Option<Txt>, NoMemory>
    requires { All (IsWithin text.now) tokens.now }
    ensures { IfOk result (λ o. o ≡ words text.now tokens.now) }
{
    if are_words(tokens) {
        Ok(Some(phrase_text(alloc, text, tokens)?))
    } else {
        Ok(None)
    }
}

/// Whether the tokens are Words, one at least.
fn are_words(tokens: &[Token]) -> bool
    ensures { result ≡ are_words tokens.now }
{
    !tokens.is_empty() && all_words(tokens)
}

fn all_words(tokens: &[Token]) -> bool
    ensures { result ≡ list_all (λ t. is_word_kind t.kind) tokens.now }
{
    tokens.iter().all(|token| is_word(token.kind))
}

fn is_word(kind: TokenKind) -> bool
    ensures { result ≡ is_word_kind kind }
{
    match kind {
        TokenKind::Word => true,
        TokenKind::Number | TokenKind::Date | TokenKind::Text | TokenKind::Symbol => false,
    }
}

fn is_text(kind: TokenKind) -> bool
    ensures { result ≡ is_text_kind kind }
{
    match kind {
        TokenKind::Text => true,
        TokenKind::Word | TokenKind::Number | TokenKind::Date | TokenKind::Symbol => false,
    }
}

pub fn is_number(kind: TokenKind) -> bool
    ensures { result ≡ is_number_kind kind }
{
    match kind {
        TokenKind::Number => true,
        TokenKind::Word | TokenKind::Date | TokenKind::Text | TokenKind::Symbol => false,
    }
}

/// What the one Text stands for.
#[tactic(auto, using(opa_words::proofs::QuotedLaws::unquoted_is))]
pub fn quoted_text(alloc: Global, text: &str, tokens: &[Token]) -> Result<Option<Txt>, NoMemory>
    requires within { All (IsWithin text.now) tokens.now }
    requires kinds { All (IsOfKind text.now) tokens.now }
    ensures { IfOk result (λ o. o ≡ quoted_text text.now tokens.now) }
{
    match one_text(tokens) {
        None => Ok(None),
        Some(token) => Ok(Some(text_of_token(alloc, token_text(text, token))?)),
    }
}

/// The one token, if it is a Text.
fn one_text(tokens: &[Token]) -> Option<Token>
    ensures { MatchOption result (one_text tokens.now ≡ None) (λ t. (tokens.now ≡ t ∷ []) × (t.kind ≡ Text)) }
{
    let (token, rest) = front(tokens)?;
    if rest.is_empty() && is_text(token.kind) {
        Some(*token)
    } else {
        None
    }
}
