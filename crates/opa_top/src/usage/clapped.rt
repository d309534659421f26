// The words as `clap` reads them.
ghost use Rattle.std.specs.Prelude.{◌≡◌, ◌<◌, ◌≤◌, ℕ, List, length, map, drop, slice_get, option_map, string_bytes, Some, IfOk, IsErrOf};
ghost use Rattle.clap.specs.Words.{app_of};
ghost use Rattle.opa_top.specs.Usage.Words.{opa_app, positionals};

use clap::error::ErrorKind;
use clap::{Arg, ArgAction, ArgMatches, Command, Error};
use std::alloc::{AllocError, Global};

/// Why no mode is read.
#[derive(Clone, Copy, Debug, PartialEq, Eq)]
pub enum WordsFault {
    Usage,
    NoMemory,
}

/// The positional words, as far as there are any.
#[derive(Drop)]
pub(crate) struct Positionals<'a> {
    pub mode: Option<&'a str>,
    pub rulebase: Option<&'a str>,
    pub name: Option<&'a str>,
}

/// MODE, RULEBASE and NAME, and no flag.
fn opa<'a>(alloc: Global) -> Result<Command<'a>, AllocError>
    ensures app { IfOk result (λ c. app_of c ≡ opa_app) }
{
    let mode = Arg::new(alloc, "mode").action(ArgAction::Set);
    let rulebase = Arg::new(alloc, "rulebase").action(ArgAction::Set);
    let name = Arg::new(alloc, "name").action(ArgAction::Set);
    Command::new(alloc, "opa")
        .disable_help_flag(true)
        .disable_version_flag(true)
        .arg(mode)?
        .arg(rulebase)?
        .arg(name)
}

/// The positional words after the program's name: at most three.
pub(crate) fn read_positionals<'a>(
    alloc: Global,
    words: &'a [String],
) -> Result<Positionals<'a>, WordsFault>
    requires { 0 < length words.now }
    ensures ok { IfOk result (λ p. (ps : List (List ℕ)) × (positionals (drop 1 (map string_bytes words.entry.now)) ≡ Some ps) × (length ps ≤ 3)
        × (option_map (λ s. s.now) p.mode ≡ slice_get ps 0)
        × (option_map (λ s. s.now) p.rulebase ≡ slice_get ps 1)
        × (option_map (λ s. s.now) p.name ≡ slice_get ps 2)) }
    ensures usage { IsErrOf result WordsFault.Usage
        → (ps : List (List ℕ)) → positionals (drop 1 (map string_bytes words.entry.now)) ≡ Some ps → 3 < length ps }
{
    let Ok(command) = opa(alloc) else {
        return Err(WordsFault::NoMemory);
    };
    match command.try_get_matches_from(words) {
        Ok(matches) => Ok(Positionals {
            mode: matches.get_str("mode"),
            rulebase: matches.get_str("rulebase"),
            name: matches.get_str("name"),
        }),
        Err(error) => match error.kind() {
            ErrorKind::OutOfMemory => Err(WordsFault::NoMemory),
            _ => Err(WordsFault::Usage),
        },
    }
}
