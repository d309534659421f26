// Reserved words, and which tokens are a phrase.
ghost use Rattle.std.specs.Prelude.{◌≡◌, ◌≤◌, ◌∷◌, [], length, IfOk, if◌then◌else◌};
ghost use Rattle.std.specs.List.{All, list_all};
ghost use Rattle.opa_words.specs.Places.{IsWithin, token_text};
ghost use Rattle.opa_words.specs.Reserved.{is_reserved, is_ending, is_word_kind, is_phrase_kind, ends_badly, begins_well, are_phrase, phrase_text};

use crate::{Token, TokenKind};
use opa_io::{NoMemory, Txt};
use std::alloc::Global;

/// Whether no phrase may begin with the word.
pub fn is_reserved(word: &str) -> bool
    ensures { result ≡ is_reserved word.now }
{
    word == "verb"
        || word == "entity"
        || word == "global"
        || word == "goal"
        || word == "screen"
        || word == "include"
        || word == "table"
        || word == "members"
        || word == "all"
        || word == "both"
        || word == "any"
        || word == "either"
        || word == "for"
        || word == "not"
        || word == "true"
        || word == "false"
        || word == "uncertain"
        || is_ending(word)
}

/// Whether no phrase may end with the word.
pub fn is_ending(word: &str) -> bool
    ensures { result ≡ is_ending word.now }
{
    word == "and" || word == "or" || word == "if" || word == "otherwise"
}

/// The text of a token.
pub fn token_text(text: &str, token: Token) -> &str
    requires { IsWithin text.now token }
    ensures { result.now ≡ token_text text.now token }
{
    &text[token.start as usize..token.end as usize]
}

/// Whether these tokens of the text are a phrase.
pub fn is_phrase(text: &str, tokens: &[Token]) -> bool
    requires { All (IsWithin text.now) tokens.now }
    ensures { result ≡ are_phrase text.now tokens.now }
{
    if begins_well(text, tokens) && are_words(tokens) {
        !ends_badly(text, tokens)
    } else {
        false
    }
}

/// The text of a phrase that these tokens are: theirs, joined by one space.
pub fn phrase_text(alloc: Global, text: &str, tokens: &[Token]) -> Result<Txt, NoMemory>
    requires { All (IsWithin text.now) tokens.now }
    ensures { IfOk result (λ t. t ≡ phrase_text text.now tokens.now) }
{
    let mut out = String::new(alloc);
    for (before, token) in tokens.iter().enumerate() {
        out.push_str(space_before(before == 0))?;
        out.push_str(token_text(text, *token))?;
    }
    Ok(Txt::from_string(out))
}

/// What stands before a word of a phrase.
fn space_before(is_first: bool) -> &'static str
    ensures { result.now ≡ (if is_first then [] else 32 ∷ []) }
{
    if is_first { "" } else { " " }
}

fn are_words(tokens: &[Token]) -> bool
    ensures { result ≡ list_all (λ t. is_phrase_kind t.kind) tokens.now }
{
    tokens.iter().all(|t| is_phrase_kind(t.kind))
}

fn is_phrase_kind(kind: TokenKind) -> bool
    ensures { result ≡ is_phrase_kind kind }
{
    match kind {
        TokenKind::Word | TokenKind::Number => true,
        TokenKind::Date | TokenKind::Text | TokenKind::Symbol => false,
    }
}

fn is_word(token: Token) -> bool
    ensures { result ≡ is_word_kind token.kind }
{
    match token.kind {
        TokenKind::Word => true,
        TokenKind::Number | TokenKind::Date | TokenKind::Text | TokenKind::Symbol => false,
    }
}

fn begins_well(text: &str, tokens: &[Token]) -> bool
    requires { All (IsWithin text.now) tokens.now }
    ensures { result ≡ begins_well text.now tokens.now }
{
    match tokens {
        [] => false,
        [first, ..] => is_word(*first) && !is_reserved(token_text(text, *first)),
    }
}

fn ends_badly(text: &str, tokens: &[Token]) -> bool
    requires { All (IsWithin text.now) tokens.now }
    ensures { result ≡ ends_badly text.now tokens.now }
{
    let mut rest = tokens;
    while let [first, later @ ..] = rest {
        if later.is_empty() {
            return is_word(*first) && is_ending(token_text(text, *first));
        }
        rest = later;
    }
    false
}
