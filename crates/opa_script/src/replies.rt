// A line as a reply to a question.
ghost use Rattle.std.specs.Prelude.{◌≡◌, Some, None, IfOk, IfErr, MatchOption};
ghost use Rattle.std.specs.Option.{option_map};
ghost use denote.Ref.{Bor};
ghost use Rattle.std.specs.Prelude.{ℕ, List as Seq};
ghost use Rattle.opa_words.specs.Pieces.{seen, AreOfKind};
ghost use Rattle.opa_script.specs.Lines.{past_blanks};
ghost use Rattle.opa_script.specs.Commands.{IsCommand};
ghost use Rattle.opa_script.specs.Replies.{after_slash, slashed, IsReply, IsNoReply, IsPlainReply, IsNoPlainReply, IsNotLong, IsNoSlashed, AreReply, SaysChange, SaysNothing, IsUnanswered};

use crate::lines::{cut, is_idle, past_blanks, text_of};
use crate::reading::read_command;
use crate::short::are_short;
use crate::{CmdFault, Command};
use opa_case::{ChangeCommand, Question};
use opa_io::NoMemory;
use opa_io::limits::MOST_LINE;
use opa_model::Model;
use opa_text::{line_of, names_of};
use opa_words::Pieces;
use std::alloc::Global;

/// Reads a line of an interview in which a question was asked: a command behind `/`, or the answer.
pub fn read_reply(
    alloc: Global,
    model: &Model,
    question: &Question,
    line: &[u8],
) -> Result<Command, CmdFault>
    ensures ok { IfOk result (IsReply model.now question.now line.now) }
    ensures fault { IfErr result (IsNoReply model.now question.now line.now) }
{
    match slashed(line) {
        None => plain_reply(alloc, question, line),
        Some(rest) => slash_command(alloc, model, line, rest),
    }
}

/// What follows a slash that is the first character of a line but blanks.
pub fn slashed(line: &[u8]) -> Option<&[u8]>
    ensures { option_map (λ (r : Bor (Seq ℕ)). r.now) result ≡ slashed line.now }
{
    after_slash(past_blanks(line))
}

fn after_slash(line: &[u8]) -> Option<&[u8]>
    ensures { option_map (λ (r : Bor (Seq ℕ)). r.now) result ≡ after_slash line.now }
{
    match line {
        [] => None,
        [first, rest @ ..] => if *first == b'/' { Some(rest) } else { None },
    }
}

/// The command behind the slash of a line.
fn slash_command(
    alloc: Global,
    model: &Model,
    line: &[u8],
    rest: &[u8],
) -> Result<Command, CmdFault>
    ensures ok { IfOk result (λ c. IsCommand model.now rest.now c × IsNotLong line.now rest.now) }
    ensures fault { IfErr result (IsNoSlashed model.now line.now rest.now) }
{
    if is_idle(rest) {
        return Ok(Command::Nothing);
    }
    if line.len() > MOST_LINE {
        return Err(CmdFault::NotACommand);
    }
    read_command(alloc, model, rest)
}

fn plain_reply(alloc: Global, question: &Question, line: &[u8]) -> Result<Command, CmdFault>
    ensures ok { IfOk result (IsPlainReply question.now line.now) }
    ensures fault { IfErr result (IsNoPlainReply question.now line.now) }
{
    if is_idle(line) {
        return Ok(Command::Nothing);
    }
    match text_of(line) {
        Err(fault) => Err(fault),
        Ok(text) => match cut(alloc, text) {
            Err(fault) => Err(fault),
            Ok(found) => reply_of(alloc, question, Pieces::new(text, &found)),
        },
    }
}

/// The reply that tokens are.
fn reply_of(alloc: Global, question: &Question, pieces: Pieces<'_>) -> Result<Command, CmdFault>
    requires { AreOfKind pieces }
    ensures ok { IfOk result (AreReply question.now (seen pieces.entry)) }
    ensures fault { IfErr result (IsUnanswered question.now (seen pieces.entry)) }
{
    if !are_short(alloc, pieces)? {
        return Err(CmdFault::Value);
    }
    match answer_to(alloc, question, pieces)? {
        None => Err(CmdFault::Value),
        Some(change) => Ok(Command::Change(change)),
    }
}

fn answer_to(
    alloc: Global,
    question: &Question,
    pieces: Pieces<'_>,
) -> Result<Option<ChangeCommand>, NoMemory>
    requires { AreOfKind pieces }
    ensures { IfOk result (λ r. MatchOption r (SaysNothing question.now (seen pieces.entry)) (SaysChange question.now (seen pieces.entry))) }
{
    match question {
        Question::Attr(attr, inst) => match line_of(alloc, pieces)? {
            None => Ok(None),
            Some(line) => Ok(Some(ChangeCommand::Answer(*attr, inst.copy(alloc)?, line))),
        },
        Question::Members(rel, inst) => match names_of(alloc, pieces)? {
            None => Ok(None),
            Some(names) => Ok(Some(ChangeCommand::SetList(*rel, inst.copy(alloc)?, names))),
        },
    }
}
