// A line as a command.
ghost use Rattle.std.specs.Prelude.{List, IfOk, IfErr, IfSome, MatchOption};
ghost use Rattle.opa_words.specs.Pieces.{Piece, seen, AreOfKind};
ghost use Rattle.opa_script.specs.declared.verbs.Verb.{Verb as Word};
ghost use Rattle.opa_script.specs.Shapes.{Begins};
ghost use Rattle.opa_script.specs.Commands.{IsRead, IsRefused, AreCommand, AreNone, IsCommand, IsNoCommand};

use crate::changes::{answer, forget, set_list, withdraw};
use crate::files::{alone, dismiss, load, save};
use crate::lines::{cut, is_idle, text_of};
use crate::shows::{report, show};
use crate::verbs::{Verb, verb_of};
use crate::{CmdFault, Command};
use opa_model::Model;
use opa_words::Pieces;
use std::alloc::Global;

/// Reads a line as a command. A blank line or a comment is `Nothing`.
pub fn read_command(alloc: Global, model: &Model, line: &[u8]) -> Result<Command, CmdFault>
    ensures ok { IfOk result (IsCommand model.now line.now) }
    ensures fault { IfErr result (IsNoCommand model.now line.now) }
{
    if is_idle(line) {
        return Ok(Command::Nothing);
    }
    match text_of(line) {
        Err(fault) => Err(fault),
        Ok(text) => match cut(alloc, text) {
            Err(fault) => Err(fault),
            Ok(found) => command_of(alloc, model, Pieces::new(text, &found)),
        },
    }
}

/// The command that tokens are.
fn command_of(alloc: Global, model: &Model, pieces: Pieces<'_>) -> Result<Command, CmdFault>
    requires { AreOfKind pieces }
    ensures ok { IfOk result (AreCommand model.now (seen pieces.entry)) }
    ensures fault { IfErr result (AreNone model.now (seen pieces.entry)) }
{
    match begun(pieces) {
        None => Err(CmdFault::NotACommand),
        Some((verb, rest)) => said(alloc, model, verb, rest),
    }
}

/// The command that the first token begins, and what follows it.
fn begun<'t>(pieces: Pieces<'t>) -> Option<(Verb, Pieces<'t>)>
    requires { AreOfKind pieces }
    ensures begins { MatchOption result ((v : Word) (rest : List Piece) → Begins v (seen pieces.entry) rest → ⊥) (λ x. Begins x.0 (seen pieces.entry) (seen x.1)) }
    ensures kinds { IfSome result (λ x. AreOfKind x.1) }
{
    let (kind, text, rest) = pieces.first()?;
    Some((verb_of(kind, text)?, rest))
}

/// What stands behind the word of a command.
fn said(alloc: Global, model: &Model, verb: Verb, rest: Pieces<'_>) -> Result<Command, CmdFault>
    requires { AreOfKind rest }
    ensures ok { IfOk result (IsRead model.now verb (seen rest.entry)) }
    ensures fault { IfErr result (IsRefused model.now verb (seen rest.entry)) }
{
    match verb {
        Verb::Answer => answer(alloc, model, rest),
        Verb::Withdraw => withdraw(alloc, model, rest),
        Verb::SetList => set_list(alloc, model, rest),
        Verb::Forget => forget(alloc, model, rest),
        Verb::Show => show(alloc, model, rest),
        Verb::Report => report(alloc, model, rest),
        Verb::Save => save(alloc, rest),
        Verb::Load => load(alloc, rest),
        Verb::Dismiss => dismiss(rest),
        Verb::Goals => alone(rest, Command::Goals),
        Verb::Next => alone(rest, Command::Next),
        Verb::Screen => alone(rest, Command::Screen),
        Verb::Stats => alone(rest, Command::Stats),
    }
}
