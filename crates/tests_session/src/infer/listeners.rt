// What listeners keep of changes: of an answer that is given twice, and where one of them has no room.
use crate::infer::outcome::{last_words, outcome};
use crate::input::told::{Telling, reply, told_after};
use crate::samples::texts;
use opa_io::Steps;
use opa_listen::{Journal, Listener};
use opa_session::Session;
use std::alloc::Global;
use std::sync::ledger::Ledger;
use std::test::Fail;
use tests_listen::Fussy;

const ADULT: &str = "answer the claimant is an adult = true";

/// What the same answer twice comes to, and a line that shows what is concluded after the first.
fn twice<L: Ledger>(
    alloc: Global,
    session: &mut Session<L>,
    listeners: &mut Vec<Box<dyn Listener>>,
    steps: &mut Steps<L>,
) -> Result<String, Fail> {
    let first = outcome(alloc, session, ADULT, listeners, steps)?;
    let shown = reply(alloc, session, "show the claimant is entitled", steps)?;
    let second = outcome(alloc, session, ADULT, listeners, steps)?;
    Ok(format!(in alloc; "{first}\n{shown}\n{second}\n")?)
}

/// The same, and then the last words of the first listener.
fn twice_told<L: Ledger>(
    alloc: Global,
    session: &mut Session<L>,
    listeners: &mut Vec<Box<dyn Listener>>,
    steps: &mut Steps<L>,
) -> Result<String, Fail> {
    let outcomes = twice(alloc, session, listeners, steps)?;
    let words = last_words(alloc, listeners)?;
    Ok(format!(in alloc; "{outcomes}{words}")?)
}

/// The same with a journal alone, or with one who refuses the first request for room beside it.
fn heard_twice<L: Ledger>(
    alloc: Global,
    session: &mut Session<L>,
    fussy: bool,
    steps: &mut Steps<L>,
) -> Result<String, Fail> {
    let mut listeners: Vec<Box<dyn Listener>> = Vec::new(alloc);
    listeners.push(Box::new(alloc, Journal::new(alloc))?)?;
    if fussy {
        listeners.push(Box::new(alloc, Fussy::new(alloc, 1, 1))?)?;
    }
    twice_told(alloc, session, &mut listeners, steps)
}

#[derive(Clone, Copy)]
struct HeardTwice {
    fussy: bool,
}

impl Telling<String> for HeardTwice {
    fn told<L: Ledger>(
        &self,
        alloc: Global,
        session: &mut Session<L>,
        steps: &mut Steps<L>,
    ) -> Result<String, Fail> {
        heard_twice(alloc, session, self.fussy, steps)
    }
}

/// The same from the start.
fn heard_from_the_start(alloc: Global, fussy: bool) -> Result<String, Fail> {
    told_after(
        alloc,
        &[("main", texts::EXEMPT)],
        &[],
        &HeardTwice { fussy },
    )
}

/// The second time no line changes, and nothing more is kept.
#[test]
fn an_answer_given_twice(rt: HostRuntime) -> Result<(), Fail> {
    let found = heard_from_the_start(rt.alloc(), false)?;
    assert_eq!(rt;
        found.as_str(),
        "2 changes, 2 of 2, no goal\nthe claimant is entitled: true\n0 changes, 0 of 2, no goal\nthe claimant is entitled on 1600-01-01: unknown to true\nthe claimant is exempt on 1600-01-01: unknown to true\n"
    );
    Ok(())
}

/// Without room nothing is changed and nobody is told; the same call a second time is carried out.
#[test]
fn a_listener_without_room(rt: HostRuntime) -> Result<(), Fail> {
    let found = heard_from_the_start(rt.alloc(), true)?;
    assert_eq!(rt;
        found.as_str(),
        "refused: change 0\nthe claimant is entitled: unknown\n2 changes, 2 of 2, no goal\nthe claimant is entitled on 1600-01-01: unknown to true\nthe claimant is exempt on 1600-01-01: unknown to true\n"
    );
    Ok(())
}
