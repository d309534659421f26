// What a session answers to lines of input.
ghost use Rattle.std.specs.Prelude.{◌≡◌};
ghost use Rattle.opa_session.specs.Infer.Sessions.{rules_of};

use crate::input::counted::{Trial, applied, tried};
use crate::input::printed::line_words;
use crate::samples::load;
use opa_case::{ChangeCommand, InstanceId};
use opa_io::Steps;
use opa_line::Line;
use opa_mean::Held;
use opa_model::{AttrId, Model, RelId};
use opa_script::{CmdFault, Command, read_command};
use opa_session::Session;
use opa_text::{names_text, point_text};
use opa_value::Value;
use std::alloc::Global;
use std::sync::ledger::Ledger;
use std::test::Fail;

/// Carries out lines of input, each of which prints nothing.
fn carry_out_all<L: Ledger>(
    alloc: Global,
    session: &mut Session<L>,
    input: &[&str],
    steps: &mut Steps<L>,
) -> Result<(), Fail> {
    for line in input {
        let found = reply(alloc, session, line, steps)?;
        if !found.is_empty() {
            return Err(Fail::new("a line is refused"));
        }
    }
    Ok(())
}

/// What is told of a session.
pub trait Telling<R> {
    fn told<L: Ledger>(
        &self,
        alloc: Global,
        session: &mut Session<L>,
        steps: &mut Steps<L>,
    ) -> Result<R, Fail>;
}

/// What is told of the session over files after lines of input, each of which prints nothing.
#[derive(Clone, Copy)]
struct After<'a, T> {
    files: &'a [(&'a str, &'a str)],
    input: &'a [&'a str],
    telling: &'a T,
}

impl<'a, R, T: Telling<R>> Trial<R> for After<'a, T> {
    fn found<L: Ledger>(&self, alloc: Global, steps: &mut Steps<L>) -> Result<R, Fail> {
        let base = load(alloc, self.files)?;
        let mut session = Session::start(alloc, base, steps)?;
        let told = told_then(alloc, &mut session, self.input, self.telling, steps);
        drop(session);
        told
    }
}

fn told_then<R, T: Telling<R>, L: Ledger>(
    alloc: Global,
    session: &mut Session<L>,
    input: &[&str],
    telling: &T,
    steps: &mut Steps<L>,
) -> Result<R, Fail> {
    carry_out_all(alloc, session, input, steps)?;
    telling.told(alloc, session, steps)
}

/// What is told of the session over these files after lines of input, each of which prints nothing.
pub fn told_after<R, T: Telling<R>>(
    alloc: Global,
    files: &[(&str, &str)],
    input: &[&str],
    telling: &T,
) -> Result<R, Fail> {
    tried(
        alloc,
        &After {
            files,
            input,
            telling,
        },
    )
}

/// What a line of input prints. The rulebase stays.
pub fn reply<L: Ledger>(
    alloc: Global,
    session: &mut Session<L>,
    line: &str,
    steps: &mut Steps<L>,
) -> Result<String, Fail>
    ensures { rules_of session.new ≡ rules_of session.old }
{
    match read_command(alloc, &session.base().model, line.as_bytes()) {
        Ok(command) => carry_out(alloc, session, command, steps),
        Err(fault) => refused_command(alloc, fault),
    }
}

fn refused_command(alloc: Global, fault: CmdFault) -> Result<String, Fail> {
    let number = match fault {
        CmdFault::NotACommand => 1,
        CmdFault::Name => 2,
        CmdFault::Value => 3,
        CmdFault::NoMemory => 0,
    };
    Ok(format!(in alloc; "refused: command {number}")?)
}

fn carry_out<L: Ledger>(
    alloc: Global,
    session: &mut Session<L>,
    command: Command,
    steps: &mut Steps<L>,
) -> Result<String, Fail>
    ensures { rules_of session.new ≡ rules_of session.old }
{
    match command {
        Command::Change(change) => changed(alloc, session, change, steps),
        Command::ShowAttr(attr, inst) => shown(alloc, session, attr, &inst),
        Command::ShowMembers(rel, inst) => listed(alloc, session, rel, &inst),
        _ => Ok(String::from_str(alloc, "another command")?),
    }
}

/// Makes a change: nothing is printed, or why it is refused.
fn changed<L: Ledger>(
    alloc: Global,
    session: &mut Session<L>,
    change: ChangeCommand,
    steps: &mut Steps<L>,
) -> Result<String, Fail>
    ensures { rules_of session.new ≡ rules_of session.old }
{
    if !session.declares(&change) {
        return Ok(String::from_str(alloc, "undeclared")?);
    }
    match applied(alloc, session, change, steps) {
        Ok(_) => Ok(String::new(alloc)),
        Err(refusal) => {
            let number = refusal.number();
            Ok(format!(in alloc; "refused: change {number}")?)
        }
    }
}

/// An attribute with the line that is shown.
fn shown<L: Ledger>(
    alloc: Global,
    session: &Session<L>,
    attr: AttrId,
    inst: &InstanceId,
) -> Result<String, Fail> {
    match session.value(attr, inst) {
        None => Ok(String::from_str(alloc, "refused: point")?),
        Some(line) => point_line(alloc, &session.base().model, attr, inst, line),
    }
}

fn point_line(
    alloc: Global,
    model: &Model,
    attr: AttrId,
    inst: &InstanceId,
    line: &Line<Value>,
) -> Result<String, Fail> {
    if attr.0 >= model.attribute_count() {
        return Ok(String::from_str(alloc, "undeclared")?);
    }
    let declared = model.attribute(attr);
    let point = point_text(alloc, &declared.phrase, inst)?;
    let words = line_words(alloc, declared.kind, line)?;
    Ok(format!(in alloc; "{}: {words}", point.as_str())?)
}

/// A relation with the names that it lists.
fn listed<L: Ledger>(
    alloc: Global,
    session: &Session<L>,
    rel: RelId,
    inst: &InstanceId,
) -> Result<String, Fail> {
    if rel.0 >= session.base().model.relation_count() {
        return Ok(String::from_str(alloc, "undeclared")?);
    }
    let declared = session.base().model.relation(rel);
    let point = point_text(alloc, &declared.phrase, inst)?;
    let names = names_text(alloc, session.case().list_of(rel, inst))?;
    Ok(format!(in alloc; "{}: {}", point.as_str(), names.as_str())?)
}
