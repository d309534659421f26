// An earlier case that is held again.
use crate::infer::outcome::{counts, outcome};
use crate::infer::rows::{HOUSEHOLD, other_outcome};
use crate::input::counted::replaced;
use crate::input::told::{Telling, told_after};
use crate::samples::texts;
use opa_io::Steps;
use opa_mean::Held;
use opa_session::Session;
use std::alloc::Global;
use std::sync::ledger::Ledger;
use std::test::Fail;

/// What it comes to, after a line of input, to hold the case from before the line again.
fn held_again<L: Ledger>(
    alloc: Global,
    session: &mut Session<L>,
    line: &str,
    steps: &mut Steps<L>,
) -> Result<String, Fail> {
    let earlier = session.case().copy(alloc)?;
    let mut nobody = Vec::new(alloc);
    outcome(alloc, session, line, &mut nobody, steps)?;
    let changes = replaced(alloc, session, earlier, steps)?;
    counts(alloc, session, changes)
}

/// The same after all answers of a household.
fn answers_held_again<L: Ledger>(
    alloc: Global,
    session: &mut Session<L>,
    line: &str,
    steps: &mut Steps<L>,
) -> Result<String, Fail> {
    let other = other_outcome(alloc, session, &HOUSEHOLD, steps)?;
    if !other.is_empty() {
        return Ok(other);
    }
    held_again(alloc, session, line, steps)
}

#[derive(Clone, Copy)]
struct HeldAgain<'a> {
    line: &'a str,
}

impl<'a> Telling<String> for HeldAgain<'a> {
    fn told<L: Ledger>(
        &self,
        alloc: Global,
        session: &mut Session<L>,
        steps: &mut Steps<L>,
    ) -> Result<String, Fail> {
        answers_held_again(alloc, session, self.line, steps)
    }
}

/// The same from the start.
fn household_again(alloc: Global, line: &str) -> Result<String, Fail> {
    told_after(alloc, &texts::BENEFIT, &[], &HeldAgain { line })
}

/// A line that changes an income, one that changes nothing, and one after which nobody is there.
const ROWS: [(&str, &str); 3] = [
    (
        "answer the person's income of \"Bo\" = 0",
        "4 changes, 4 of 8, settled",
    ),
    (
        "answer the person is a dependant of \"Cy\" = true",
        "0 changes, 0 of 8, settled",
    ),
    ("list the people = none", "8 changes, 8 of 8, settled"),
];

#[test]
fn a_household_again(rt: HostRuntime) -> Result<(), Fail> {
    for (line, want) in ROWS {
        let found = household_again(rt.alloc(), line)?;
        assert_eq!(rt; found.as_str(), want);
    }
    Ok(())
}
