// The days of a printed line.
ghost use Rattle.std.specs.Prelude.{◌<◌, ◌≤◌, ◌≡◌, ◌++◌, ℕ, List as Seq, codes, MatchOption};
ghost use Rattle.opa_date.specs.declared.TheConstants.{DAYS};
ghost use Rattle.opa_date.specs.Texts.{day_text};
ghost use Rattle.opa_verify.specs.Spelling.Reading.{AreDays, IsDayBefore};

use crate::spelling::cuts::past;
use crate::spelling::values::day_in;
use std::str;

/// A first and a last day, and what follows them.
pub(crate) fn days_in(text: &[u8]) -> Option<(u32, u32, &[u8])>
    ensures { MatchOption result ((s t : ℕ) (told : Seq ℕ) → AreDays s t told text.now → ⊥) (λ x. AreDays x.0 x.1 x.2.now text.now) }
{
    match past(" ", text) {
        None => None,
        Some(days) => first_day_in(days),
    }
}

fn first_day_in(days: &[u8]) -> Option<(u32, u32, &[u8])>
    ensures { MatchOption result ((s t : ℕ) (told : Seq ℕ) → AreDays s t told (codes " " ++ days.now) → ⊥) (λ x. AreDays x.0 x.1 x.2.now (codes " " ++ days.now)) }
{
    match day_at(days) {
        None => None,
        Some((first, rest)) => match past(" to ", rest) {
            None => None,
            Some(rest) => match last_day_in(first, rest) {
                None => None,
                Some((last, told)) => Some((first, last, told)),
            },
        },
    }
}

fn last_day_in(first: u32, text: &[u8]) -> Option<(u32, &[u8])>
    ensures { MatchOption result ((t : ℕ) (told : Seq ℕ) → first ≤ t → t < DAYS → text.now ≡ day_text t ++ (codes ": " ++ told) → ⊥) (λ x. (first ≤ x.0) × ((x.0 < DAYS) × (text.now ≡ day_text x.0 ++ (codes ": " ++ x.1.now)))) }
{
    match day_at(text) {
        None => None,
        Some((last, rest)) => {
            if last < first {
                return None;
            }
            match past(": ", rest) {
                None => None,
                Some(told) => Some((last, told)),
            }
        }
    }
}

fn day_at(text: &[u8]) -> Option<(u32, &[u8])>
    ensures { MatchOption result ((d : ℕ) (rest : Seq ℕ) → IsDayBefore d rest text.now → ⊥) (λ x. IsDayBefore x.0 x.1.now text.now) }
{
    if text.len() < 10 {
        return None;
    }
    let (date, rest) = text.split_at(10);
    match day_of(date) {
        None => None,
        Some(day) => Some((day, rest)),
    }
}

pub(crate) fn day_of(date: &[u8]) -> Option<u32>
    ensures { MatchOption result ((d : ℕ) → d < DAYS → day_text d ≡ date.now → ⊥) (λ d. (d < DAYS) × (day_text d ≡ date.now)) }
{
    match str::from_utf8(date) {
        Ok(date) => day_in(date),
        Err(_) => None,
    }
}
