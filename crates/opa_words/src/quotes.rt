// The text that a Text token stands for, and back.
ghost use Rattle.std.specs.Prelude.{◌≡◌, ◌∷◌, ◌++◌, [], true, false, IfOk, OnOk, MatchOption};
ghost use Rattle.std.specs.String.{string_bytes};
ghost use Rattle.std.specs.Str.{chars};
ghost use Rattle.opa_words.specs.Kinds.{quoted, IsText};
ghost use Rattle.opa_words.specs.Quoted.{inside, after_quote, unquoted};
ghost use Rattle.opa_words.specs.Quotes.{SplitsAtQuote, HasNoQuote, IsQuoted};

use opa_io::{NoMemory, Txt};
use std::alloc::Global;

/// The text between quotes, with each quote inside written twice.
pub fn quoted(alloc: Global, text: &str) -> Result<Txt, NoMemory>
    ensures { IfOk result (λ t. t ≡ quoted text.now) }
{
    let mut out = String::new(alloc);
    push_quoted(&mut out, text)?;
    Ok(Txt::from_string(out))
}

/// Puts the same behind a text.
pub fn push_quoted(out: &mut String, text: &str) -> Result<(), NoMemory>
    ensures { OnOk result (string_bytes out.new ≡ string_bytes out.old ++ quoted text.now) }
{
    out.push_str("\"")?;
    let mut rest = text;
    while let Some((front, later)) = at_quote(rest) {
        out.push_str(front)?;
        out.push_str("\"\"")?;
        rest = later;
    }
    out.push_str(rest)?;
    out.push_str("\"")?;
    Ok(())
}

/// The text that the text of a Text token stands for.
#[tactic(auto, using(crate::proofs::QuoteLaws::text_is))]
pub fn text_of_token(alloc: Global, token: &str) -> Result<Txt, NoMemory>
    requires { IsText (chars token.now) }
    ensures { IfOk result (λ t. quoted t ≡ token.now) }
{
    text_of_quoted(alloc, token)
}

/// The text that stands between quotes.
#[tactic(auto, using(crate::proofs::QuotedLaws::quoted_again))]
pub(crate) fn text_of_quoted(alloc: Global, token: &str) -> Result<Txt, NoMemory>
    requires { IsQuoted token.now }
    ensures { IfOk result (λ t. quoted t ≡ token.now) }
{
    unquoted(alloc, token)
}

/// What stands between the quotes, each doubled quote as one.
pub fn unquoted(alloc: Global, text: &str) -> Result<Txt, NoMemory>
    ensures { IfOk result (λ t. t ≡ unquoted text.now) }
{
    undoubled(alloc, after_quote(text))
}

fn after_quote(text: &str) -> &str
    ensures { result.now ≡ after_quote text.now }
{
    match past_quote(text) {
        None => text,
        Some(rest) => rest,
    }
}

/// What follows a quote.
fn past_quote(text: &str) -> Option<&str>
    ensures none { MatchOption result (inside true text.now ≡ []) (λ x. text.now ≡ 34 ∷ x.now) }
    ensures same { MatchOption result (after_quote text.now ≡ text.now) (λ x. text.now ≡ 34 ∷ x.now) }
{
    match text.strip_prefix('"') {
        None => None,
        Some(rest) => Some(rest),
    }
}

/// What stands before the first quote, and what after it.
pub(crate) fn at_quote(text: &str) -> Option<(&str, &str)>
    ensures { MatchOption result (HasNoQuote text.now) (λ x. SplitsAtQuote text.now x.0.now x.1.now) }
{
    match text.split_once('"') {
        None => None,
        Some((front, later)) => Some((front, later)),
    }
}

/// Each pair of quotes as one, up to the quote that ends the text.
fn undoubled(alloc: Global, text: &str) -> Result<Txt, NoMemory>
    ensures { IfOk result (λ t. t ≡ inside false text.now) }
{
    let mut out = String::new(alloc);
    let mut rest = text;
    while let Some((front, later)) = at_quote(rest) {
        out.push_str(front)?;
        match past_quote(later) {
            None => return Ok(Txt::from_string(out)),
            Some(more) => {
                out.push_str("\"")?;
                rest = more;
            }
        }
    }
    out.push_str(rest)?;
    Ok(Txt::from_string(out))
}
