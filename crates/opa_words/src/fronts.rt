// The text between quotes at the front of a line.
ghost use Rattle.std.specs.Prelude.{◌≡◌, ◌++◌, ◌<◌, ℕ, List, length, IfOk, IfSome, MatchOption, false, ◌==◌};
ghost use Rattle.std.specs.List.{list_any};
ghost use Rattle.std.specs.Option.{option_map};
ghost use Rattle.opa_words.specs.Characters.{is_control as is_control_of};
ghost use Rattle.opa_words.specs.Scan.{one, inside as inside_of, past_quote as past_quote_of, text};
ghost use Rattle.opa_words.specs.Fronts.{BeginsWithText, BeginsWithNoText};

use crate::quotes::{at_quote, text_of_quoted};
use opa_io::{NoMemory, Txt};
use std::alloc::Global;

/// The text between quotes with which a line begins, the longest one, and what follows it.
pub fn front_text<'t>(alloc: Global, line: &'t str) -> Result<Option<(Txt, &'t str)>, NoMemory>
    ensures { IfOk result (λ r. MatchOption r (BeginsWithNoText line.now) (λ x. BeginsWithText line.now x.0 x.1.now)) }
{
    match past_text(line) {
        None => Ok(None),
        Some(rest) => {
            let text = text_of_quoted(alloc, before(line, rest))?;
            Ok(Some((text, rest)))
        }
    }
}

/// What stands before the rest of a line.
fn before<'t>(line: &'t str, rest: &str) -> &'t str
    requires { (front : List ℕ) × (line.now ≡ front ++ rest.now) }
    ensures { line.now ≡ result.now ++ rest.now }
{
    match line.strip_suffix(rest) {
        None => line,
        Some(front) => front,
    }
}

/// What follows the longest text between quotes.
fn past_text(line: &str) -> Option<&str>
    ensures { option_map (λ x. x.now) result ≡ text line.now }
{
    inside(quote(line)?)
}

/// What follows a quote.
fn quote(line: &str) -> Option<&str>
    ensures rest { option_map (λ x. x.now) result ≡ one (λ b. b == 34) line.now }
    ensures shorter { IfSome result (λ x. length x.now < length line.now) }
{
    line.strip_prefix('"')
}

/// What follows a text, from inside it on.
fn inside(start: &str) -> Option<&str>
    ensures { option_map (λ x. x.now) result ≡ inside_of false start.now }
{
    let mut here = start;
    let mut end = None;
    while let Some(after) = past_quote(here) {
        match quote(after) {
            None => return Some(after),
            Some(next) => {
                end = Some(after);
                here = next;
            }
        }
    }
    end
}

/// What follows the next quote, if no control character stands before it.
fn past_quote(text: &str) -> Option<&str>
    ensures rest { option_map (λ x. x.now) result ≡ past_quote_of text.now }
    ensures shorter { IfSome result (λ x. length x.now < length text.now) }
{
    match at_quote(text) {
        None => None,
        Some((front, later)) => if has_control(front.as_bytes()) {
            None
        } else {
            Some(later)
        },
    }
}

fn has_control(bytes: &[u8]) -> bool
    ensures { result ≡ list_any is_control_of bytes.now }
{
    bytes.iter().any(|byte| is_control(*byte))
}

fn is_control(byte: u8) -> bool
    ensures { result ≡ is_control_of byte }
{
    byte < 32 || byte == 127
}
