// Commands that show what a case has, behind their words.
ghost use Rattle.std.specs.Prelude.{◌≡◌, None, IfOk, IfErr, MatchOption};
ghost use Rattle.opa_words.specs.Pieces.{seen, AreOfKind};
ghost use Rattle.opa_script.specs.Commands.{IsRead, IsRefused, Shows, NamesNothing};
ghost use Rattle.opa_model.specs.Lookups.{attribute_named, relation_named};
ghost use Rattle.opa_script.specs.declared.verbs.Verb.TheVariants as verb;

use crate::short::are_short;
use crate::targets::{attribute_of, relation_of};
use crate::{CmdFault, Command};
use opa_date::parse_day;
use opa_io::NoMemory;
use opa_model::Model;
use opa_text::{Point, before_date, point_of};
use opa_words::Pieces;
use std::alloc::Global;

/// `POINT`.
pub(crate) fn show(alloc: Global, model: &Model, rest: Pieces<'_>) -> Result<Command, CmdFault>
    requires { AreOfKind rest }
    ensures ok { IfOk result (IsRead model.now verb.Show (seen rest.entry)) }
    ensures fault { IfErr result (IsRefused model.now verb.Show (seen rest.entry)) }
{
    let Some(point) = point_of(alloc, rest)? else {
        return Err(CmdFault::NotACommand);
    };
    let Some(command) = shown(alloc, model, point)? else {
        return Err(CmdFault::Name);
    };
    if !are_short(alloc, rest)? {
        return Err(CmdFault::Value);
    }
    Ok(command)
}

/// What shows the point.
fn shown(alloc: Global, model: &Model, point: Point) -> Result<Option<Command>, NoMemory>
    ensures { IfOk result (λ r. MatchOption r (NamesNothing model.now point) (Shows model.now point)) }
{
    match model.find_attribute(point.phrase.as_str()) {
        Some(_) => shown_attribute(alloc, model, point),
        None => shown_relation(alloc, model, point),
    }
}

fn shown_attribute(alloc: Global, model: &Model, point: Point) -> Result<Option<Command>, NoMemory>
    ensures { IfOk result (λ r. MatchOption r (attribute_named model.now point.phrase ≡ None) (Shows model.now point)) }
{
    match attribute_of(alloc, model, point)? {
        None => Ok(None),
        Some((attr, inst)) => Ok(Some(Command::ShowAttr(attr, inst))),
    }
}

fn shown_relation(alloc: Global, model: &Model, point: Point) -> Result<Option<Command>, NoMemory>
    ensures { IfOk result (λ r. MatchOption r (relation_named model.now point.phrase ≡ None) (Shows model.now point)) }
{
    match relation_of(alloc, model, point)? {
        None => Ok(None),
        Some((rel, inst)) => Ok(Some(Command::ShowMembers(rel, inst))),
    }
}

/// `POINT at DATE`.
pub(crate) fn report(alloc: Global, model: &Model, rest: Pieces<'_>) -> Result<Command, CmdFault>
    requires { AreOfKind rest }
    ensures ok { IfOk result (IsRead model.now verb.Report (seen rest.entry)) }
    ensures fault { IfErr result (IsRefused model.now verb.Report (seen rest.entry)) }
{
    let Some((front, date)) = before_date(rest) else {
        return Err(CmdFault::NotACommand);
    };
    let Some(point) = point_of(alloc, front)? else {
        return Err(CmdFault::NotACommand);
    };
    let Some((attr, inst)) = attribute_of(alloc, model, point)? else {
        return Err(CmdFault::Name);
    };
    if !are_short(alloc, rest)? {
        return Err(CmdFault::Value);
    }
    match parse_day(date) {
        Ok(day) => Ok(Command::Report(attr, inst, day)),
        Err(_) => Err(CmdFault::Value),
    }
}
