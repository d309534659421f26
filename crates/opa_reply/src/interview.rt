// A session as what asks, and answers the lines of an interview.
ghost use Rattle.std.proofs.Props.{props};
ghost use Rattle.std.specs.Coded.{coded_option};
ghost use Rattle.std.specs.Prelude.{◌≡◌, ◌≤◌, ◌+◌, false, List, Option, IfOk, IfErr, IfSome, None, Some};
ghost use Rattle.opa_case.specs.contracts.question.Question as each;
ghost use Rattle.opa_session.specs.Infer.Sessions.{rules_of, held_of, first_slots};
ghost use Rattle.opa_io.specs.Outside.{Files};
ghost use Rattle.opa_listen.specs.Hearing.{Hearer};
ghost use Rattle.opa_need.specs.Goals.{next_of};
ghost use Rattle.opa_script.specs.Laws.{IsInRange};
ghost use Rattle.opa_text.specs.Points.{HasAsked};
ghost use Rattle.opa_reply.specs.Held.{Held as Holding, beside, at_first};
ghost use Rattle.opa_reply.specs.Reporting.Asking.{is_over, prompt_told as prompt_text};
ghost use Rattle.opa_reply.specs.Interviews.{interview, LacksAsked, StopsAsked, IsTold, IsNotTold};
ghost use Rattle.opa_reply.specs.Questions.{IsAtHand, alters, brings, loads, no_text};

use crate::carrying::respond;
use crate::lines::{is_long_reply, text_of};
use crate::reporting::{Prompt as Prompted, prompt_asking, prompt_told};
use opa_case::Question;
use opa_io::{NoMemory, Shelf, Steps};
use opa_listen::Listener;
use opa_mean::{Held, next_is_declared};
use opa_model::Model;
use opa_need::next;
use opa_script::{CmdFault, Command, is_well_formed, read_reply, replies_are_in_range};
use opa_session::Session;
use opa_talk::{Halt, Prompt, Replier};
use opa_tree::Rulebase;
use std::alloc::Global;
use std::sync::ledger::Ledger;

/// A session that asks: each line replies to the question that is asked, or is a command behind a slash. The question
/// stands beside the session from the line on that led to it, unless memory for it was lacking.
#[derive(Drop)]
pub struct Interview<L: Ledger> {
    session: Session<L>,
    asked: Option<Option<Question>>,
    ghost next: { IsAtHand (rules_of session) (held_of session) asked } by { Prim.hlevel (props, coded_option, each.the_row.coded) },
}

impl<L: Ledger> Interview<L> {
    /// Nothing is known of the case.
    pub fn start(
        alloc: Global,
        base: Rulebase,
        steps: &mut Steps<L>,
    ) -> Result<Interview<L>, NoMemory>
        ensures first { IfOk result (λ c. (hearers : List Hearer) (files : Option Files) →
            ⟦<Interview<L> as Replier<L>>⟧.held c hearers files steps.new ≡ at_first base hearers files steps.new) }
        ensures bound { steps.new ≤ steps.old + first_slots base }
    {
        let session = Session::start(alloc, base, steps)?;
        let asked = at_hand(alloc, &session);
        Ok(Interview { session, asked })
    }
}

/// What a line says in reply to a question, if one was asked.
#[tactic(auto, using(crate::proofs::ReadLaws::telling))]
fn told(
    alloc: Global,
    model: &Model,
    asked: &Option<Question>,
    line: &[u8],
) -> Result<Command, CmdFault>
    requires declared { IfSome asked.now (HasAsked model.now) }
    ensures ok { IfOk result (IsTold model.now asked.now line.now) }
    ensures range { IfOk result (IsInRange model.now) }
    ensures fault { IfErr result (IsNotTold model.now asked.now line.now) }
{
    if is_long_reply(line) {
        return Err(CmdFault::NotACommand);
    }
    match asked {
        None => Ok(Command::Nothing),
        Some(question) => {
            replies_are_in_range();
            match read_reply(alloc, model, question, text_of(line)) {
                Err(fault) => Err(fault),
                Ok(command) => {
                    is_well_formed(&command);
                    Ok(command)
                }
            }
        }
    }
}

/// The question that is asked next, which is declared.
fn question<L: Ledger>(alloc: Global, session: &Session<L>) -> Result<Option<Question>, NoMemory>
    ensures next { IfOk result (λ q. q ≡ next_of (rules_of session.now) (held_of session.now)) }
    ensures declared { IfOk result (λ q. IfSome q (HasAsked (rules_of session.now).model)) }
{
    let _case = session.case();
    next_is_declared();
    let asked = next(alloc, session)?;
    Ok(asked)
}

/// The question that is asked next, or nothing for want of memory.
#[tactic(auto, using(crate::proofs::AtHand::handing))]
fn at_hand<L: Ledger>(alloc: Global, session: &Session<L>) -> Option<Option<Question>>
    ensures { IsAtHand (rules_of session.now) (held_of session.now) result }
{
    match question(alloc, session) {
        Ok(asked) => Some(asked),
        Err(_) => None,
    }
}

/// What stands before a line.
fn prompted<L: Ledger>(
    alloc: Global,
    session: &Session<L>,
    asked: &Option<Option<Question>>,
) -> Result<Prompted, NoMemory>
    requires { IsAtHand (rules_of session.now) (held_of session.now) asked.now }
    ensures text { IfOk result (λ p. p.text.items ≡ prompt_text (rules_of session.now) (held_of session.now)) }
    ensures over { IfOk result (λ p. p.over ≡ is_over (rules_of session.now) (held_of session.now)) }
{
    match asked {
        None => prompt_told(alloc, session, session.frees()),
        Some(asked) => prompt_asking(alloc, session, session.frees(), asked),
    }
}

/// Takes the question that is asked next, and leaves none at hand.
fn taken<L: Ledger>(
    alloc: Global,
    session: &Session<L>,
    asked: &mut Option<Option<Question>>,
) -> Result<Option<Question>, NoMemory>
    requires { IsAtHand (rules_of session.now) (held_of session.now) asked.old }
    ensures next { IfOk result (λ q. q ≡ next_of (rules_of session.now) (held_of session.now)) }
    ensures declared { IfOk result (λ q. IfSome q (HasAsked (rules_of session.now).model)) }
    ensures none { asked.new ≡ None }
{
    match asked.take() {
        None => question(alloc, session),
        Some(asked) => {
            is_declared(session, &asked);
            Ok(asked)
        }
    }
}

/// What is asked next is declared.
fn is_declared<L: Ledger>(session: &Session<L>, asked: &Option<Question>)
    requires { asked.now ≡ next_of (rules_of session.now) (held_of session.now) }
    ensures { IfSome asked.now (HasAsked (rules_of session.now).model) }
{
    next_is_declared();
    // The case fits the rulebase.
    let _case = session.case();
}

/// The question that is asked next after a line: the same where the line brought no other case.
fn asked_after<L: Ledger>(
    alloc: Global,
    session: &Session<L>,
    before: Option<Question>,
    may_bring: bool,
) -> Option<Option<Question>>
    requires { may_bring ≡ false → before ≡ next_of (rules_of session.now) (held_of session.now) }
    ensures { IsAtHand (rules_of session.now) (held_of session.now) result }
{
    if may_bring {
        at_hand(alloc, session)
    } else {
        Some(before)
    }
}

/// Whether what was read names a file to load.
fn is_load(read: &Result<Command, CmdFault>) -> bool
    ensures { result ≡ loads read.now }
{
    match read {
        Err(_) => false,
        Ok(command) => matches!(command, Command::Load(_)),
    }
}

/// Whether what was read is a change.
fn is_change(read: &Result<Command, CmdFault>) -> bool
    ensures { result ≡ alters read.now }
{
    match read {
        Err(_) => false,
        Ok(command) => matches!(command, Command::Change(_)),
    }
}

/// Whether a line may have brought another case: it named a file to load, or was a change that wasn't refused.
fn may_bring(load: bool, change: bool, text: &[u8]) -> bool
    ensures { result ≡ brings load change text.now }
{
    load || change && is_nothing(text)
}

fn is_nothing(text: &[u8]) -> bool
    ensures { result ≡ no_text text.now }
{
    match text {
        [] => true,
        [_, ..] => false,
    }
}

impl<L: Ledger> Replier<L> for Interview<L> {
    ghost Held = { Holding };

    ghost rule = { interview };

    ghost Stops = { StopsAsked };

    ghost Lacks = { LacksAsked };

    ghost held = { λ c hearers files steps. beside c.session hearers files steps };

    fn prompt(&self, alloc: Global) -> Result<Prompt, NoMemory> {
        let told = prompted(alloc, &self.session, &self.asked)?;
        Ok(Prompt {
            text: told.text,
            is_over: told.over,
        })
    }

    #[tactic(auto, using(crate::proofs::ReplyLaws::replying, crate::proofs::AtHand::handing))]
    fn reply<F: Shelf>(
        &mut self,
        alloc: Global,
        shelf: &mut F,
        listeners: &mut Vec<Box<dyn Listener>>,
        steps: &mut Steps<L>,
        line: &[u8],
    ) -> Result<Vec<u8>, Halt> {
        let asked = taken(alloc, &self.session, &mut self.asked)?;
        let read = told(alloc, &self.session.base().model, &asked, line);
        let load = is_load(&read);
        let change = is_change(&read);
        let text = respond(alloc, &mut self.session, shelf, listeners, steps, read)?;
        let may = may_bring(load, change, text.as_slice());
        self.asked = asked_after(alloc, &self.session, asked, may);
        Ok(text)
    }
}
