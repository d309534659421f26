// Commands that change a case, behind their words.
ghost use Rattle.std.specs.Prelude.{IfOk, IfErr};
ghost use Rattle.opa_words.specs.Pieces.{seen, AreOfKind};
ghost use Rattle.opa_script.specs.Commands.{IsRead, IsRefused};
ghost use Rattle.opa_script.specs.declared.verbs.Verb.TheVariants as verb;

use crate::points::given;
use crate::short::are_short;
use crate::targets::{attribute_of, relation_of};
use crate::{CmdFault, Command};
use opa_case::ChangeCommand;
use opa_model::Model;
use opa_text::{line_of, names_of, point_of};
use opa_words::Pieces;
use std::alloc::Global;

/// `POINT = LINE`.
pub(crate) fn answer(alloc: Global, model: &Model, rest: Pieces<'_>) -> Result<Command, CmdFault>
    requires { AreOfKind rest }
    ensures ok { IfOk result (IsRead model.now verb.Answer (seen rest.entry)) }
    ensures fault { IfErr result (IsRefused model.now verb.Answer (seen rest.entry)) }
{
    let Some((point, after)) = given(alloc, rest)? else {
        return Err(CmdFault::NotACommand);
    };
    let Some((attr, inst)) = attribute_of(alloc, model, point)? else {
        return Err(CmdFault::Name);
    };
    if !are_short(alloc, rest)? {
        return Err(CmdFault::Value);
    }
    match line_of(alloc, after)? {
        None => Err(CmdFault::Value),
        Some(line) => Ok(Command::Change(ChangeCommand::Answer(attr, inst, line))),
    }
}

/// `POINT`.
pub(crate) fn withdraw(alloc: Global, model: &Model, rest: Pieces<'_>) -> Result<Command, CmdFault>
    requires { AreOfKind rest }
    ensures ok { IfOk result (IsRead model.now verb.Withdraw (seen rest.entry)) }
    ensures fault { IfErr result (IsRefused model.now verb.Withdraw (seen rest.entry)) }
{
    let Some(point) = point_of(alloc, rest)? else {
        return Err(CmdFault::NotACommand);
    };
    let Some((attr, inst)) = attribute_of(alloc, model, point)? else {
        return Err(CmdFault::Name);
    };
    if !are_short(alloc, rest)? {
        return Err(CmdFault::Value);
    }
    Ok(Command::Change(ChangeCommand::Withdraw(attr, inst)))
}

/// `POINT = NAMES`.
pub(crate) fn set_list(alloc: Global, model: &Model, rest: Pieces<'_>) -> Result<Command, CmdFault>
    requires { AreOfKind rest }
    ensures ok { IfOk result (IsRead model.now verb.SetList (seen rest.entry)) }
    ensures fault { IfErr result (IsRefused model.now verb.SetList (seen rest.entry)) }
{
    let Some((point, after)) = given(alloc, rest)? else {
        return Err(CmdFault::NotACommand);
    };
    let Some((rel, inst)) = relation_of(alloc, model, point)? else {
        return Err(CmdFault::Name);
    };
    if !are_short(alloc, rest)? {
        return Err(CmdFault::Value);
    }
    match names_of(alloc, after)? {
        None => Err(CmdFault::Value),
        Some(names) => Ok(Command::Change(ChangeCommand::SetList(rel, inst, names))),
    }
}

/// `POINT`.
pub(crate) fn forget(alloc: Global, model: &Model, rest: Pieces<'_>) -> Result<Command, CmdFault>
    requires { AreOfKind rest }
    ensures ok { IfOk result (IsRead model.now verb.Forget (seen rest.entry)) }
    ensures fault { IfErr result (IsRefused model.now verb.Forget (seen rest.entry)) }
{
    let Some(point) = point_of(alloc, rest)? else {
        return Err(CmdFault::NotACommand);
    };
    let Some((rel, inst)) = relation_of(alloc, model, point)? else {
        return Err(CmdFault::Name);
    };
    if !are_short(alloc, rest)? {
        return Err(CmdFault::Value);
    }
    Ok(Command::Change(ChangeCommand::Forget(rel, inst)))
}
