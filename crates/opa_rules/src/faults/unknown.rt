// The first phrase of a line that isn't declared.
ghost use Rattle.std.specs.Prelude.{◌≡◌, ◌≤◌, length};
ghost use Rattle.std.specs.List.{All};
ghost use Rattle.opa_words.specs.Places.{IsWithin};
ghost use Rattle.opa_sentence.specs.Cursors.{seen};
ghost use Rattle.opa_sentence.specs.Lexemes.{lexeme};
ghost use Rattle.opa_rules.specs.Faults.Unknown.{is_inner as is_inner_of, goes_on as goes_on_of, opens as opens_of, begins as begins_of, known as known_of, counted as counted_of, unknown as unknown_of, inner as inner_of};

use opa_io::front;
use opa_sentence::{Class, Cursor};
use opa_words::{Phrases, Token, is_ending, is_reserved};

/// Whether the next token is a word or a number that doesn't end a line.
fn goes_on(words: Cursor<'_>) -> bool
    ensures { result ≡ goes_on_of (seen words.entry) }
{
    match words.first() {
        None => false,
        Some((class, text, _)) => class.is_wordlike() && !is_ending(text),
    }
}

fn opens(words: Cursor<'_>) -> bool
    ensures { result ≡ opens_of (seen words.entry) }
{
    match words.first() {
        Some((Class::Open, _, _)) => true,
        _ => false,
    }
}

/// Whether a phrase may begin with the next token.
fn begins(words: Cursor<'_>) -> bool
    ensures { result ≡ begins_of (seen words.entry) }
{
    match words.first() {
        None => false,
        Some((class, text, rest)) => class.is_word() && !is_reserved(text) && !opens(rest),
    }
}

/// How many tokens are no phrase, or one that is known; none where a phrase begins that isn't.
fn known(phrases: &Phrases, words: Cursor<'_>) -> usize
    ensures { result ≡ known_of phrases.now (seen words.entry) }
{
    if !begins(words) {
        return 1;
    }
    match words.longest(phrases) {
        None => 0,
        Some((_, count)) => if goes_on(words.skip(count)) { 0 } else { count },
    }
}

/// So many tokens, or if none how many are no phrase, or one that is known.
fn counted(phrases: &Phrases, words: Cursor<'_>, skip: usize) -> usize
    ensures { result ≡ counted_of phrases.now (seen words.entry) skip }
{
    if skip == 0 {
        known(phrases, words)
    } else {
        skip
    }
}

/// What is left of the tokens of a text, behind so many, from the first phrase on that isn't known.
pub(crate) fn unknown<'t>(
    phrases: &Phrases,
    text: &str,
    tokens: &'t [Token],
    skipped: usize,
) -> &'t [Token]
    requires { All (IsWithin text.now) tokens.now }
    ensures left { result.now ≡ unknown_of phrases.now text.now skipped tokens.now }
    ensures within { All (IsWithin text.now) result.now }
{
    let mut skip = skipped;
    let mut rest = tokens;
    while let Some((_, later)) = front(rest) {
        let count = counted(phrases, Cursor::new(text, rest), skip);
        if count == 0 {
            return rest;
        }
        skip = count - 1;
        rest = later;
    }
    rest
}

/// How many tokens the phrase at the front has.
pub(crate) fn inner(text: &str, tokens: &[Token]) -> usize
    requires { All (IsWithin text.now) tokens.now }
    ensures count { result ≡ inner_of text.now tokens.now }
    ensures within { result ≤ length tokens.now }
{
    let mut count = 0;
    let mut rest = tokens;
    while let [_, later @ ..] = rest {
        if !goes_on(Cursor::new(text, rest)) {
            return count;
        }
        count += 1;
        rest = later;
    }
    count
}
