// The declared phrase that is nearest to one that isn't declared.
ghost use Rattle.std.specs.Prelude.{◌≡◌, ◌<◌, length, reverse, find, MatchOption};
ghost use Rattle.std.specs.Option.{option_copied};
ghost use Rattle.opa_rules.specs.Faults.Nearest.{past_same, difference as difference_of, nearness as nearness_of, least as least_of, is_within, nearest as nearest_of};

use opa_io::{Txt, front};
use opa_parse::back;

/// What follows the first byte of two texts, if they have the same.
fn past_first<'a>(left: &'a [u8], right: &'a [u8]) -> Option<(&'a [u8], &'a [u8])>
    ensures { MatchOption result (past_same left.entry.now right.entry.now ≡ (left.entry.now, right.entry.now))
        (λ x. (past_same left.entry.now right.entry.now ≡ past_same x.0.now x.1.now) × (length x.0.now < length left.entry.now)) }
{
    let (x, more) = front(left)?;
    let (y, others) = front(right)?;
    if *x == *y { Some((more, others)) } else { None }
}

/// What is left of two texts behind the beginning that both have.
fn past_front<'a>(left: &'a [u8], right: &'a [u8]) -> (&'a [u8], &'a [u8])
    ensures { (result.0.now, result.1.now) ≡ past_same left.entry.now right.entry.now }
{
    let mut first = left;
    let mut second = right;
    while let Some((more, others)) = past_first(first, second) {
        first = more;
        second = others;
    }
    (first, second)
}

/// What stands before the last byte of two texts, if they have the same.
fn before_last<'a>(left: &'a [u8], right: &'a [u8]) -> Option<(&'a [u8], &'a [u8])>
    ensures { MatchOption result (past_same (reverse left.entry.now) (reverse right.entry.now) ≡ (reverse left.entry.now, reverse right.entry.now))
        (λ x. (past_same (reverse left.entry.now) (reverse right.entry.now) ≡ past_same (reverse x.0.now) (reverse x.1.now)) × (length x.0.now < length left.entry.now)) }
{
    let (more, x) = back(left)?;
    let (others, y) = back(right)?;
    if *x == *y { Some((more, others)) } else { None }
}

/// What is left of two texts before the end that both have.
fn before_back<'a>(left: &'a [u8], right: &'a [u8]) -> (&'a [u8], &'a [u8])
    ensures { (reverse result.0.now, reverse result.1.now) ≡ past_same (reverse left.entry.now) (reverse right.entry.now) }
{
    let mut first = left;
    let mut second = right;
    while let Some((more, others)) = before_last(first, second) {
        first = more;
        second = others;
    }
    (first, second)
}

/// How far two texts are from one another.
pub(crate) fn difference(left: &[u8], right: &[u8]) -> usize
    ensures { result ≡ difference_of left.now right.now }
{
    let (first, second) = past_front(left, right);
    let (first, second) = before_back(first, second);
    first.len().max(second.len())
}

fn nearness(text: &[u8]) -> usize
    ensures { result ≡ nearness_of text.now }
{
    (text.len() / 5).max(2)
}

/// The least difference from one of the phrases, if it is below a bound.
fn least(text: &[u8], phrases: &[Txt], bound: usize) -> usize
    ensures { result ≡ least_of text.now bound phrases.now }
{
    let mut least = bound;
    for phrase in phrases {
        least = least.min(difference(text, phrase.as_str().as_bytes()));
    }
    least
}

/// The first phrase that is at most so far from the text.
fn first_within<'a>(text: &[u8], phrases: &'a [Txt], far: usize) -> Option<&'a Txt>
    ensures { option_copied result ≡ find (is_within text.now far) phrases.now }
{
    phrases.iter().find(|phrase| difference(text, phrase.as_str().as_bytes()) <= far)
}

/// The first of the nearest phrases, if they are near.
pub(crate) fn nearest<'a>(text: &[u8], phrases: &'a [Txt]) -> Option<&'a Txt>
    ensures { option_copied result ≡ nearest_of text.now phrases.now }
{
    let far = least(text, phrases, nearness(text));
    first_within(text, phrases, far)
}
