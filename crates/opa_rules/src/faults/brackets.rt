// Brackets of a line without a partner in it.
ghost use Rattle.std.specs.Prelude.{◌≡◌, ◌≤◌, ◌<◌, ◌^◌, ◌+◌, true, false, length, IfSome, MatchOption};
ghost use Rattle.std.specs.List.{All};
ghost use Rattle.opa_words.specs.Places.{IsWithin};
ghost use Rattle.opa_rules.specs.Faults.Brackets.{is_sign as is_sign_of, found as found_of, closes_none as closes_none_of, open_behind as open_behind_of, stray as stray_of, stays_open as stays_open_of, unclosed as unclosed_of, bracket_slip as bracket_slip_of};
ghost use Rattle.opa_rules.specs.Faults.Marks.{IsMark};

use crate::faults::slip::Slip;
use opa_io::front;
use opa_words::{Token, token_text};

/// The two signs of brackets of one sort.
#[derive(Clone, Copy)]
pub(crate) struct Brackets<'s> {
    pub opening: &'s str,
    pub closing: &'s str,
}

fn is_sign(text: &str, sign: &str, token: Token) -> bool
    requires { IsWithin text.now token }
    ensures { result ≡ is_sign_of text.now sign.now token }
{
    token_text(text, token) == sign
}

/// Where the first token begins, if there is one.
pub(crate) fn found(text: &str, slip: Slip, tokens: &[Token]) -> Option<(Slip, u32)>
    requires { All (IsWithin text.now) tokens.now }
    ensures at { result ≡ found_of slip tokens.now }
    ensures within { IfSome result (IsMark text.now) }
{
    match front(tokens) {
        None => None,
        Some((first, _)) => Some((slip, first.start)),
    }
}

/// Whether a token closes no bracket, if so many are open.
fn closes_none(text: &str, signs: Brackets<'_>, count: usize, token: Token) -> bool
    requires { IsWithin text.now token }
    ensures { result ≡ closes_none_of text.now signs.entry.opening.now signs.entry.closing.now count token }
{
    !is_sign(text, signs.opening, token) && is_sign(text, signs.closing, token) && count == 0
}

/// How many are open behind a token.
fn open_behind(text: &str, signs: Brackets<'_>, count: usize, token: Token) -> usize
    requires within { IsWithin text.now token }
    requires few { count < 2 ^ 63 }
    ensures is { result ≡ open_behind_of text.now signs.entry.opening.now signs.entry.closing.now count token }
    ensures few { result ≤ count + 1 }
{
    if is_sign(text, signs.opening, token) {
        count + 1
    } else if is_sign(text, signs.closing, token) {
        count.saturating_sub(1)
    } else {
        count
    }
}

/// What is left of the tokens from the first bracket on that closes none.
#[tactic(auto, using(crate::proofs::SlipLaws::stray_on))]
fn stray<'t>(text: &str, signs: Brackets<'_>, tokens: &'t [Token]) -> &'t [Token]
    requires { All (IsWithin text.now) tokens.now }
    ensures left { result.now ≡ stray_of text.now signs.entry.opening.now signs.entry.closing.now 0 tokens.now }
    ensures within { All (IsWithin text.now) result.now }
    ensures fewer { length result.now ≤ length tokens.now }
{
    let mut count = 0;
    let mut rest = tokens;
    while let Some((token, later)) = front(rest) {
        if closes_none(text, signs, count, *token) {
            return rest;
        }
        count = open_behind(text, signs, count, *token);
        rest = later;
    }
    rest
}

/// What follows a token: if it opens a bracket, behind the one that closes it, or none if it stays open.
#[tactic(auto, using(crate::proofs::SlipLaws::partners))]
fn past_closed<'t>(
    text: &str,
    signs: Brackets<'_>,
    token: Token,
    later: &'t [Token],
) -> Option<&'t [Token]>
    requires token { IsWithin text.now token }
    requires within { All (IsWithin text.now) later.now }
    ensures stays { MatchOption result (stays_open_of text.now signs.entry.opening.now signs.entry.closing.now token later.now ≡ true)
        (λ _. stays_open_of text.now signs.entry.opening.now signs.entry.closing.now token later.now ≡ false) }
    ensures same { IfSome result (λ r. unclosed_of text.now signs.entry.opening.now signs.entry.closing.now later.now ≡ unclosed_of text.now signs.entry.opening.now signs.entry.closing.now r.now) }
    ensures within { IfSome result (λ r. All (IsWithin text.now) r.now) }
    ensures fewer { IfSome result (λ r. length r.now ≤ length later.now) }
{
    if is_sign(text, signs.opening, token) {
        match front(stray(text, signs, later)) {
            None => None,
            Some((_, behind)) => Some(behind),
        }
    } else {
        Some(later)
    }
}

/// What is left of the tokens from the first bracket on that isn't closed.
#[tactic(auto, using(crate::proofs::SlipLaws::unclosed_on))]
fn unclosed<'t>(text: &str, signs: Brackets<'_>, tokens: &'t [Token]) -> &'t [Token]
    requires { All (IsWithin text.now) tokens.now }
    ensures left { result.now ≡ unclosed_of text.now signs.entry.opening.now signs.entry.closing.now tokens.now }
    ensures within { All (IsWithin text.now) result.now }
{
    let mut rest = tokens;
    while let Some((token, later)) = front(rest) {
        match past_closed(text, signs, *token, later) {
            None => return rest,
            Some(behind) => rest = behind,
        }
    }
    rest
}

/// The first bracket without a partner.
pub(crate) fn bracket_slip(text: &str, signs: Brackets<'_>, tokens: &[Token]) -> Option<(Slip, u32)>
    requires { All (IsWithin text.now) tokens.now }
    ensures at { result ≡ bracket_slip_of text.now signs.entry.opening.now signs.entry.closing.now tokens.now }
    ensures within { IfSome result (IsMark text.now) }
{
    match found(text, Slip::Closing, stray(text, signs, tokens)) {
        Some(slip) => Some(slip),
        None => found(text, Slip::Opening, unclosed(text, signs, tokens)),
    }
}
