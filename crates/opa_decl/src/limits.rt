// Bounds of numbers: a comma list of `from N`, `to N`, `decimals K`.
ghost use Rattle.std.specs.Prelude.{◌≡◌, None, Some, is_some, neg_ℤ, IfSome, MatchOption, if◌then◌else◌};
ghost use Rattle.std.specs.Option.{option_map, option_and_then};
ghost use Rattle.std.specs.List.{All};
ghost use Rattle.opa_value.specs.Numbers.{kept};
ghost use Rattle.opa_value.specs.NumberText.{read_number};
ghost use Rattle.opa_words.specs.Places.{IsWithin};
ghost use Rattle.opa_decl.specs.Limits.{number_or_none, whole_up_to, bounds_of, no_limits, number_at, unsigned, negated, signed, whole, limit, limits, with_least, with_most, with_decimals};

use crate::items::Bounds;
use crate::pieces::{has_text, is_number};
use opa_io::front;
use opa_value::Number;
use opa_words::{Token, token_text};

/// The greatest count of a number.
const GREATEST: i64 = 100_000_000_000_000_000;

/// The items of a comma list.
#[derive(Clone, Copy, Debug, PartialEq, Eq)]
pub struct Limits {
    pub least: Option<i64>,
    pub most: Option<i64>,
    pub decimals: Option<u8>,
}

impl Limits {
    /// No bounds yet.
    pub fn none() -> Limits
        ensures { result ≡ no_limits }
    {
        Limits {
            least: None,
            most: None,
            decimals: None,
        }
    }

    /// The bounds: without `from` and `to` those of all numbers, and without `decimals` so many.
    pub fn bounds(self, decimals: u8) -> Bounds
        ensures { result ≡ bounds_of decimals self }
    {
        Bounds {
            least: self.least.unwrap_or(-GREATEST),
            most: self.most.unwrap_or(GREATEST),
            decimals: self.decimals.unwrap_or(decimals),
        }
    }
}

fn number_in(text: &str) -> Option<i64>
    ensures { result ≡ number_or_none (read_number text.now) }
{
    match Number::parse(text) {
        Ok(number) => Some(number.count()),
        Err(_) => None,
    }
}

/// The number that a Number token spells, if it is in the range of numbers.
#[tactic(auto, unfolding(crate::specs::Limits::number_at))]
fn number_at(text: &str, token: Token) -> Option<i64>
    requires { IsWithin text.now token }
    ensures { result ≡ number_at text.now token }
{
    if is_number(token.kind) {
        number_in(token_text(text, token))
    } else {
        None
    }
}

fn unsigned<'t>(text: &str, tokens: &'t [Token]) -> Option<(i64, &'t [Token])>
    requires { All (IsWithin text.now) tokens.now }
    ensures value { MatchOption result (unsigned text.now tokens.now ≡ None) (λ x. unsigned text.now tokens.now ≡ Some (x.0, x.1.now)) }
    ensures after { IfSome result (λ x. All (IsWithin text.now) x.1.now) }
{
    match front(tokens) {
        None => None,
        Some((token, rest)) => match number_at(text, *token) {
            None => None,
            Some(count) => Some((count, rest)),
        },
    }
}

/// The opposite number.
fn opposite(count: i64) -> Option<i64>
    ensures { result ≡ kept (neg_ℤ count) }
{
    match Number::from_count(-i128::from(count)) {
        None => None,
        Some(number) => Some(number.count()),
    }
}

fn negated<'t>(text: &str, tokens: &'t [Token]) -> Option<(i64, &'t [Token])>
    requires { All (IsWithin text.now) tokens.now }
    ensures value { MatchOption result (option_and_then negated (unsigned text.now tokens.now) ≡ None) (λ x. option_and_then negated (unsigned text.now tokens.now) ≡ Some (x.0, x.1.now)) }
    ensures after { IfSome result (λ x. All (IsWithin text.now) x.1.now) }
{
    match unsigned(text, tokens) {
        None => None,
        Some((count, rest)) => match opposite(count) {
            None => None,
            Some(count) => Some((count, rest)),
        },
    }
}

/// N, which may have a `-`, and what follows it.
fn signed<'t>(text: &str, tokens: &'t [Token]) -> Option<(i64, &'t [Token])>
    requires { All (IsWithin text.now) tokens.now }
    ensures value { MatchOption result (signed text.now tokens.now ≡ None) (λ x. signed text.now tokens.now ≡ Some (x.0, x.1.now)) }
    ensures after { IfSome result (λ x. All (IsWithin text.now) x.1.now) }
{
    match front(tokens) {
        None => None,
        Some((token, rest)) => {
            if has_text(text, "-", *token) {
                negated(text, rest)
            } else {
                unsigned(text, tokens)
            }
        }
    }
}

/// The whole number of a count of 1/10000, if it is one and at most so much.
fn whole_up_to(most: u8, count: i64) -> Option<u8>
    ensures { result ≡ whole_up_to most count }
{
    if count < 0 {
        return None;
    }
    let count = count.unsigned_abs();
    if count % 10_000 == 0 && count / 10_000 <= u64::from(most) {
        Some((count / 10_000) as u8)
    } else {
        None
    }
}

/// K, which is taken by its value, and what follows it.
fn whole<'t>(text: &str, most: u8, tokens: &'t [Token]) -> Option<(u8, &'t [Token])>
    requires { All (IsWithin text.now) tokens.now }
    ensures value { MatchOption result (whole text.now most tokens.now ≡ None) (λ x. whole text.now most tokens.now ≡ Some (x.0, x.1.now)) }
    ensures after { IfSome result (λ x. All (IsWithin text.now) x.1.now) }
{
    match front(tokens) {
        None => None,
        Some((token, rest)) => match number_at(text, *token) {
            None => None,
            Some(count) => match whole_up_to(most, count) {
                None => None,
                Some(number) => Some((number, rest)),
            },
        },
    }
}

fn least<'t>(text: &str, limits: Limits, tokens: &'t [Token]) -> Option<(Limits, &'t [Token])>
    requires { All (IsWithin text.now) tokens.now }
    ensures value { MatchOption result ((if is_some limits.least then None else option_map (with_least limits) (signed text.now tokens.now)) ≡ None) (λ x. (if is_some limits.least then None else option_map (with_least limits) (signed text.now tokens.now)) ≡ Some (x.0, x.1.now)) }
    ensures after { IfSome result (λ x. All (IsWithin text.now) x.1.now) }
{
    if limits.least.is_some() {
        return None;
    }
    match signed(text, tokens) {
        None => None,
        Some((count, rest)) => Some((
            Limits {
                least: Some(count),
                most: limits.most,
                decimals: limits.decimals,
            },
            rest,
        )),
    }
}

fn most<'t>(text: &str, limits: Limits, tokens: &'t [Token]) -> Option<(Limits, &'t [Token])>
    requires { All (IsWithin text.now) tokens.now }
    ensures value { MatchOption result ((if is_some limits.most then None else option_map (with_most limits) (signed text.now tokens.now)) ≡ None) (λ x. (if is_some limits.most then None else option_map (with_most limits) (signed text.now tokens.now)) ≡ Some (x.0, x.1.now)) }
    ensures after { IfSome result (λ x. All (IsWithin text.now) x.1.now) }
{
    if limits.most.is_some() {
        return None;
    }
    match signed(text, tokens) {
        None => None,
        Some((count, rest)) => Some((
            Limits {
                least: limits.least,
                most: Some(count),
                decimals: limits.decimals,
            },
            rest,
        )),
    }
}

fn decimals<'t>(
    text: &str,
    greatest: u8,
    limits: Limits,
    tokens: &'t [Token],
) -> Option<(Limits, &'t [Token])>
    requires { All (IsWithin text.now) tokens.now }
    ensures value { MatchOption result ((if is_some limits.decimals then None else option_map (with_decimals limits) (whole text.now greatest tokens.now)) ≡ None) (λ x. (if is_some limits.decimals then None else option_map (with_decimals limits) (whole text.now greatest tokens.now)) ≡ Some (x.0, x.1.now)) }
    ensures after { IfSome result (λ x. All (IsWithin text.now) x.1.now) }
{
    if limits.decimals.is_some() {
        return None;
    }
    match whole(text, greatest, tokens) {
        None => None,
        Some((number, rest)) => Some((
            Limits {
                least: limits.least,
                most: limits.most,
                decimals: Some(number),
            },
            rest,
        )),
    }
}

/// One item at the front, of a sort that hasn't stood before, and what follows it.
#[tactic(auto, unfolding(crate::specs::Limits::limit))]
fn limit<'t>(
    text: &str,
    greatest: u8,
    limits: Limits,
    tokens: &'t [Token],
) -> Option<(Limits, &'t [Token])>
    requires { All (IsWithin text.now) tokens.now }
    ensures value { MatchOption result (limit text.now greatest limits tokens.now ≡ None) (λ x. limit text.now greatest limits tokens.now ≡ Some (x.0, x.1.now)) }
    ensures after { IfSome result (λ x. All (IsWithin text.now) x.1.now) }
{
    match front(tokens) {
        None => None,
        Some((token, rest)) => {
            if has_text(text, "from", *token) {
                return least(text, limits, rest);
            }
            if has_text(text, "to", *token) {
                return most(text, limits, rest);
            }
            if has_text(text, "decimals", *token) {
                return decimals(text, greatest, limits, rest);
            }
            None
        }
    }
}

/// So many items at most, with `,` between them, up to the end.
#[tactic(auto, using(crate::proofs::LimitLaws::limits_more))]
pub fn comma_list(
    text: &str,
    left: u8,
    greatest: u8,
    so_far: Limits,
    tokens: &[Token],
) -> Option<Limits>
    requires { All (IsWithin text.now) tokens.now }
    ensures { result ≡ limits text.now left greatest so_far tokens.now }
{
    if left == 0 {
        return None;
    }
    match limit(text, greatest, so_far, tokens) {
        None => None,
        Some((next, rest)) => match front(rest) {
            None => Some(next),
            Some((token, more)) => {
                if has_text(text, ",", *token) {
                    comma_list(text, left - 1, greatest, next, more)
                } else {
                    None
                }
            }
        },
    }
}
