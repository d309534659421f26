// What a call of a session comes to, in words.
ghost use Rattle.std.specs.Prelude.{◌≡◌};
ghost use Rattle.opa_session.specs.Infer.Sessions.{rules_of};

use crate::input::counted::heard;
use crate::input::told::reply;
use opa_case::ChangeCommand;
use opa_io::Steps;
use opa_listen::{Listener, dismiss};
use opa_mean::{GoalState, Held};
use opa_script::{Command, read_command};
use opa_session::Session;
use std::alloc::Global;
use std::sync::ledger::Ledger;
use std::test::Fail;

/// The state of the first goal.
fn state_word<L: Ledger>(session: &Session<L>) -> &'static str {
    if session.base().model.goal_count() == 0 {
        return "no goal";
    }
    match session.goal_state(0) {
        GoalState::Undecided => "undecided",
        GoalState::Decided => "decided",
        GoalState::Settled => "settled",
    }
}

/// How many values changed, how many slots that reached of all there are, and the state of the first goal.
pub(crate) fn counts<L: Ledger>(
    alloc: Global,
    session: &Session<L>,
    changes: u32,
) -> Result<String, Fail> {
    let (dirty, slots) = (session.dirty(), session.slots());
    let state = state_word(session);
    Ok(format!(in alloc; "{changes} changes, {dirty} of {slots}, {state}")?)
}

/// What a change comes to, of which listeners are told, or the number of its refusal. The rulebase stays.
fn change_outcome<L: Ledger>(
    alloc: Global,
    session: &mut Session<L>,
    change: ChangeCommand,
    listeners: &mut Vec<Box<dyn Listener>>,
    steps: &mut Steps<L>,
) -> Result<String, Fail>
    ensures { rules_of session.new ≡ rules_of session.old }
{
    if !session.declares(&change) {
        return Ok(String::from_str(alloc, "undeclared")?);
    }
    match heard(alloc, session, change, listeners, steps) {
        Ok(changes) => counts(alloc, session, changes),
        Err(refusal) => {
            let number = refusal.number();
            Ok(format!(in alloc; "refused: change {number}")?)
        }
    }
}

/// What a line of input comes to. The rulebase stays.
pub(crate) fn outcome<L: Ledger>(
    alloc: Global,
    session: &mut Session<L>,
    line: &str,
    listeners: &mut Vec<Box<dyn Listener>>,
    steps: &mut Steps<L>,
) -> Result<String, Fail>
    ensures { rules_of session.new ≡ rules_of session.old }
{
    match read_command(alloc, &session.base().model, line.as_bytes()) {
        Ok(Command::Change(change)) => change_outcome(alloc, session, change, listeners, steps),
        _ => reply(alloc, session, line, steps),
    }
}

/// The last words of the first listener, who goes.
pub(crate) fn last_words(
    alloc: Global,
    listeners: &mut Vec<Box<dyn Listener>>,
) -> Result<String, Fail> {
    if listeners.is_empty() {
        return Err(Fail::new("nobody listens"));
    }
    let words = dismiss(alloc, listeners, 0)?;
    Ok(String::from_str(alloc, str::from_utf8(&words).unwrap_or("no text"))?)
}
