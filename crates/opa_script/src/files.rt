// Commands without a point, behind their words.
ghost use Rattle.std.specs.Prelude.{◌≡◌, ◌≢◌, ◌<◌, ◌*◌, ◌^◌, ◌∷◌, [], ℕ, pos, List, IfOk, IfErr, IfSome, MatchOption};
ghost use Rattle.opa_words.specs.Pieces.{seen, AreOfKind};
ghost use Rattle.opa_script.specs.Commands.{IsRead, IsRefused};
ghost use Rattle.opa_script.specs.declared.verbs.Verb.TheVariants as verb;
ghost use Rattle.std.specs.Str.{chars};
ghost use Rattle.opa_words.specs.declared.kinds.TokenKind.TheVariants as kinds;
ghost use Rattle.opa_words.specs.Kinds.{IsToken};
ghost use Rattle.opa_words.specs.Pieces.{text, number};
ghost use Rattle.opa_script.specs.Commands.{SaysCount, IsFile, IsNoFile};
ghost use Rattle.opa_script.specs.Shapes.{IsNotOne};
ghost use Rattle.opa_script.specs.declared.fault.CmdFault.TheVariants as faults;
ghost use Rattle.opa_model.specs.declared.lists.Lists.{Lists};

use crate::short::are_short;
use crate::{CmdFault, Command};
use opa_io::limits::MOST_FILE_NAME;
use opa_io::{NoMemory, Txt};
use opa_value::Number;
use opa_words::{Pieces, TokenKind, text_of_token};
use std::alloc::Global;

/// The one token that is left, with its kind.
fn only<'t>(rest: Pieces<'t>) -> Option<(TokenKind, &'t str)>
    requires { AreOfKind rest }
    ensures only { MatchOption result (IsNotOne (seen rest.entry)) (λ x. seen rest.entry ≡ record { kind = x.0; text = x.1.now } ∷ []) }
    ensures kind { IfSome result (λ x. IsToken x.0 (chars x.1.now)) }
{
    let (kind, text, later) = rest.first()?;
    if later.is_empty() {
        Some((kind, text))
    } else {
        None
    }
}

/// The text between quotes that is left alone.
fn only_text(alloc: Global, rest: Pieces<'_>) -> Result<Option<Txt>, NoMemory>
    requires { AreOfKind rest }
    ensures { IfOk result (λ r. MatchOption r ((t : List ℕ) → seen rest.entry ≡ text t ∷ [] → ⊥) (λ t. seen rest.entry ≡ text t ∷ [])) }
{
    match only(rest) {
        None => Ok(None),
        Some((kind, token)) => text_between(alloc, kind, token),
    }
}

fn text_between(alloc: Global, kind: TokenKind, token: &str) -> Result<Option<Txt>, NoMemory>
    requires { IsToken kind (chars token.now) }
    ensures { IfOk result (λ r. MatchOption r (kind ≢ kinds.Text) (λ t. record { kind = kind; text = token.now } ≡ text t)) }
{
    match kind {
        TokenKind::Text => Ok(Some(text_of_token(alloc, token)?)),
        TokenKind::Word | TokenKind::Number | TokenKind::Date | TokenKind::Symbol => Ok(None),
    }
}

/// The name of a file that is left alone.
fn file_name(alloc: Global, rest: Pieces<'_>) -> Result<Txt, CmdFault>
    requires { AreOfKind rest }
    ensures ok { IfOk result (IsFile (seen rest.entry)) }
    ensures fault { IfErr result (IsNoFile (seen rest.entry)) }
{
    let Some(name) = only_text(alloc, rest)? else {
        return Err(CmdFault::NotACommand);
    };
    if name.as_str().len() == 0 {
        return Err(CmdFault::Value);
    }
    if name.as_str().len() > MOST_FILE_NAME {
        return Err(CmdFault::Value);
    }
    Ok(name)
}

/// `TEXT`.
pub(crate) fn save(alloc: Global, rest: Pieces<'_>) -> Result<Command, CmdFault>
    requires { AreOfKind rest }
    ensures ok { IfOk result (λ c. (m : Lists) → IsRead m verb.Save (seen rest.entry) c) }
    ensures fault { IfErr result (λ e. (m : Lists) → IsRefused m verb.Save (seen rest.entry) e) }
{
    match file_name(alloc, rest) {
        Ok(name) => Ok(Command::Save(name)),
        Err(fault) => Err(fault),
    }
}

/// `TEXT`.
pub(crate) fn load(alloc: Global, rest: Pieces<'_>) -> Result<Command, CmdFault>
    requires { AreOfKind rest }
    ensures ok { IfOk result (λ c. (m : Lists) → IsRead m verb.Load (seen rest.entry) c) }
    ensures fault { IfErr result (λ e. (m : Lists) → IsRefused m verb.Load (seen rest.entry) e) }
{
    match file_name(alloc, rest) {
        Ok(name) => Ok(Command::Load(name)),
        Err(fault) => Err(fault),
    }
}

/// The size of a number that isn't negative.
fn size_of(number: Number) -> Option<u64>
    ensures { MatchOption result ((n : ℕ) → number ≡ pos n → ⊥) (λ n. number ≡ pos n) }
{
    let count = number.count();
    if count < 0 { None } else { Some(count as u64) }
}

/// The whole number below 2^32 of this count of 1/10000.
fn whole_of(size: u64) -> Option<u32>
    ensures { MatchOption result ((n : ℕ) → size ≡ n * 10000 → n < 2 ^ 32 → ⊥) (λ n. (size ≡ n * 10000) × (n < 2 ^ 32)) }
{
    if size % 10_000 != 0 {
        return None;
    }
    let whole = size / 10_000;
    if whole > 4_294_967_295 {
        return None;
    }
    Some(whole as u32)
}

/// The whole number that a token of a number says.
fn whole_number(token: &str) -> Option<u32>
    ensures { MatchOption result ((n : ℕ) → SaysCount n token.now → ⊥) (λ n. SaysCount n token.now) }
{
    match Number::parse(token) {
        Err(_) => None,
        Ok(number) => whole_of(size_of(number)?),
    }
}

fn only_number<'t>(rest: Pieces<'t>) -> Option<&'t str>
    requires { AreOfKind rest }
    ensures { MatchOption result ((t : List ℕ) → seen rest.entry ≡ number t ∷ [] → ⊥) (λ t. seen rest.entry ≡ number t.now ∷ []) }
{
    let (kind, token) = only(rest)?;
    match kind {
        TokenKind::Number => Some(token),
        TokenKind::Word | TokenKind::Date | TokenKind::Text | TokenKind::Symbol => None,
    }
}

/// `NUMBER`.
pub(crate) fn dismiss(rest: Pieces<'_>) -> Result<Command, CmdFault>
    requires { AreOfKind rest }
    ensures ok { IfOk result (λ c. (m : Lists) → IsRead m verb.Dismiss (seen rest.entry) c) }
    ensures fault { IfErr result (λ e. (m : Lists) → IsRefused m verb.Dismiss (seen rest.entry) e) }
{
    match only_number(rest) {
        None => Err(CmdFault::NotACommand),
        Some(token) => match whole_number(token) {
            None => Err(CmdFault::Value),
            Some(count) => Ok(Command::Dismiss(count)),
        },
    }
}

/// Nothing more.
pub(crate) fn alone(rest: Pieces<'_>, command: Command) -> Result<Command, CmdFault>
    ensures ok { IfOk result (λ c. (seen rest.entry ≡ []) × (c ≡ command)) }
    ensures fault { IfErr result (λ e. (e ≡ faults.NotACommand) × (seen rest.entry ≢ [])) }
{
    if rest.is_empty() {
        Ok(command)
    } else {
        Err(CmdFault::NotACommand)
    }
}
