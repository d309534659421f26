// The mode that words ask for.
ghost use Rattle.std.specs.Prelude.{◌≡◌, map, Option, None, Some, List, ℕ, IfOk, IfSome, IsErrOf, string_bytes};
ghost use Rattle.std.specs.Option.{option_map};
ghost use Rattle.std.specs.Char.{is_ascii_digit};
ghost use Rattle.std.specs.List.{list_all};
ghost use Rattle.opa_top.specs.Usage.Asked as meant;
ghost use Rattle.opa_top.specs.Usage.Asked.{mode_named as named, asked_of, asked_by, report_of};

use crate::usage::clapped::{Positionals, WordsFault, read_positionals};
use std::alloc::Global;

/// What the program does.
#[derive(Clone, Copy, Debug, PartialEq, Eq)]
pub enum Mode {
    Run,
    Interview,
    Check,
    Generate,
    Verify,
}

/// A mode, the name of its rulebase, and for `verify` the name of a report.
#[derive(Drop)]
pub struct Asked<'a> {
    pub mode: Mode,
    pub name: &'a str,
    pub report: Option<&'a str>,
}

/// The mode of this name.
fn mode_named(word: &str) -> Option<Mode>
    ensures { result ≡ named word.now }
{
    match word {
        "run" => Some(Mode::Run),
        "interview" => Some(Mode::Interview),
        "check" => Some(Mode::Check),
        "generate" => Some(Mode::Generate),
        _ => None,
    }
}

fn are_digits(bytes: &[u8]) -> bool
    ensures { result ≡ list_all is_ascii_digit bytes.now }
{
    let mut rest = bytes;
    while let [first, later @ ..] = rest {
        if !first.is_ascii_digit() {
            return false;
        }
        rest = later;
    }
    true
}

/// One to nine digits.
fn is_number(word: &str) -> bool
    ensures { result ≡ meant.is_number word.now }
{
    let bytes = word.as_bytes();
    1 <= bytes.len() && bytes.len() <= 9 && are_digits(bytes)
}

/// A mode over a name, or over a number where the mode asks for one.
fn taken(mode: Mode, name: &str) -> Option<Asked<'_>>
    ensures taken { option_map (λ a. (a.mode, a.name.now)) result ≡ meant.taken_by name.now mode }
    ensures alone { IfSome result (λ a. option_map (λ s. s.now) a.report ≡ None) }
{
    match mode {
        Mode::Run | Mode::Interview | Mode::Check | Mode::Verify => Some(Asked {
            mode,
            name,
            report: None,
        }),
        Mode::Generate => {
            if is_number(name) {
                Some(Asked {
                    mode,
                    name,
                    report: None,
                })
            } else {
                None
            }
        }
    }
}

/// The mode of a rulebase and a report.
fn verifying<'a>(word: &str, name: &'a str, report: &'a str) -> Option<Asked<'a>>
    ensures taken { option_map (λ a. (a.mode, a.name.now)) result ≡ meant.verified_by word.now name.now }
    ensures report { IfSome result (λ a. option_map (λ s. s.now) a.report ≡ Some report.now) }
{
    match word {
        "verify" => Some(Asked {
            mode: Mode::Verify,
            name,
            report: Some(report),
        }),
        _ => None,
    }
}

/// What the positional words ask for.
fn positional<'a>(words: &Positionals<'a>) -> Option<Asked<'a>>
    ensures asked { option_map (λ a. (a.mode, a.name.now)) result ≡ asked_by (option_map (λ s. s.now) words.now.mode) (option_map (λ s. s.now) words.now.rulebase) (option_map (λ s. s.now) words.now.name) }
    ensures report { IfSome result (λ a. option_map (λ s. s.now) a.report ≡ option_map (λ s. s.now) words.now.name) }
{
    match (words.mode, words.rulebase, words.name) {
        (Some(mode), Some(name), None) => {
            let mode = mode_named(mode)?;
            taken(mode, name)
        }
        (Some(mode), Some(name), Some(report)) => verifying(mode, name, report),
        _ => None,
    }
}

/// The mode that the words of the command line ask for; the first word is the program's name.
pub fn read_words<'a>(alloc: Global, words: &'a [String]) -> Result<Asked<'a>, WordsFault>
    ensures asked { IfOk result (λ a. asked_of (map string_bytes words.now) ≡ Some (a.mode, a.name.now)) }
    ensures report { IfOk result (λ a. option_map (λ s. s.now) a.report ≡ report_of (map string_bytes words.now)) }
    ensures usage { IsErrOf result WordsFault.Usage → asked_of (map string_bytes words.now) ≡ None }
{
    if words.is_empty() {
        return Err(WordsFault::Usage);
    }
    match read_positionals(alloc, words) {
        Err(fault) => Err(fault),
        Ok(found) => match positional(&found) {
            Some(asked) => Ok(asked),
            None => Err(WordsFault::Usage),
        },
    }
}
