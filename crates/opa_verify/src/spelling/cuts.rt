// Cutting bytes: behind a given front, before a given end, at the first comma or colon outside quotes, and at the first quote.
ghost use Rattle.std.specs.Prelude.{◌≡◌, ◌++◌, ℕ, List, MatchOption};
ghost use Rattle.opa_words.specs.Quotes.{HasNoQuote};
ghost use Rattle.opa_verify.specs.Spelling.Cuts.{IsCutAt, IsQuotedFrom, is_mark as is_mark_of};

use opa_io::front;

/// What follows this text at the front.
pub(crate) fn past<'t>(first: &str, text: &'t [u8]) -> Option<&'t [u8]>
    ensures { MatchOption result ((rest : List ℕ) → text.now ≡ first.now ++ rest → ⊥) (λ rest. text.now ≡ first.now ++ rest.now) }
{
    past_bytes(first.as_bytes(), text)
}

fn past_bytes<'t>(first: &[u8], text: &'t [u8]) -> Option<&'t [u8]>
    ensures { MatchOption result ((rest : List ℕ) → text.now ≡ first.now ++ rest → ⊥) (λ rest. text.now ≡ first.now ++ rest.now) }
{
    let mut want = first;
    let mut rest = text;
    while let Some((byte, later)) = front(want) {
        match front(rest) {
            None => return None,
            Some((own, after)) => {
                if *own != *byte {
                    return None;
                }
                want = later;
                rest = after;
            }
        }
    }
    Some(rest)
}

/// What stands before this text at the end.
pub(crate) fn before<'t>(last: &str, text: &'t [u8]) -> Option<&'t [u8]>
    ensures { MatchOption result ((first : List ℕ) → text.now ≡ first ++ last.now → ⊥) (λ first. text.now ≡ first.now ++ last.now) }
{
    before_bytes(last.as_bytes(), text)
}

fn before_bytes<'t>(last: &[u8], text: &'t [u8]) -> Option<&'t [u8]>
    ensures { MatchOption result ((first : List ℕ) → text.now ≡ first ++ last.now → ⊥) (λ first. text.now ≡ first.now ++ last.now) }
{
    if text.len() < last.len() {
        return None;
    }
    let (first, end) = text.split_at(text.len() - last.len());
    match past_bytes(last, end) {
        None => None,
        Some(_) => Some(first),
    }
}

/// The bytes before the first mark outside quotes, the mark, and what follows it.
pub(crate) fn cut(text: &[u8]) -> Option<(&[u8], u8, &[u8])>
    ensures { MatchOption result ((first : List ℕ) (mark : ℕ) (rest : List ℕ) → IsCutAt first mark rest text.now → ⊥) (λ x. IsCutAt x.0.now x.1 x.2.now text.now) }
{
    let mut inside = false;
    let mut count = 0;
    let mut rest = text;
    while let Some((byte, later)) = front(rest) {
        let byte = *byte;
        if byte == 34 {
            inside = !inside;
        } else if !inside && is_mark(byte) {
            let (first, _) = text.split_at(count);
            return Some((first, byte, later));
        }
        count += 1;
        rest = later;
    }
    None
}

fn is_mark(byte: u8) -> bool
    ensures { result ≡ is_mark_of byte }
{
    byte == 44 || byte == 58
}

/// The bytes before the first quote, and the quote with what follows it.
pub(crate) fn at_quote(text: &[u8]) -> Option<(&[u8], &[u8])>
    ensures { MatchOption result (HasNoQuote text.now) (λ x. IsQuotedFrom x.0.now x.1.now text.now) }
{
    let mut count = 0;
    let mut rest = text;
    while let Some((byte, later)) = front(rest) {
        if *byte == 34 {
            let (first, last) = text.split_at(count);
            return Some((first, last));
        }
        count += 1;
        rest = later;
    }
    None
}
