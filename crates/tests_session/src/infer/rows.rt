// Lines of input, each with what it comes to.
use crate::infer::outcome::{counts, outcome};
use crate::input::told::{Telling, told_after};
use crate::samples::texts;
use opa_io::Steps;
use opa_session::Session;
use std::alloc::Global;
use std::sync::ledger::Ledger;
use std::test::Fail;

/// The first line that comes to something else, with this; nothing where there is none.
pub(crate) fn other_outcome<L: Ledger>(
    alloc: Global,
    session: &mut Session<L>,
    rows: &[(&str, &str)],
    steps: &mut Steps<L>,
) -> Result<String, Fail> {
    let mut nobody = Vec::new(alloc);
    for (line, want) in rows {
        let found = outcome(alloc, session, line, &mut nobody, steps)?;
        if found.as_str() != *want {
            return Ok(format!(in alloc; "{line}: {found}")?);
        }
    }
    Ok(String::new(alloc))
}

/// The same of a session of which nothing has changed yet, and of which this is told.
fn other_outcome_from<L: Ledger>(
    alloc: Global,
    session: &mut Session<L>,
    first: &str,
    rows: &[(&str, &str)],
    steps: &mut Steps<L>,
) -> Result<String, Fail> {
    let found = counts(alloc, session, 0)?;
    if found.as_str() != first {
        return Ok(found);
    }
    other_outcome(alloc, session, rows, steps)
}

#[derive(Clone, Copy)]
struct Rows<'a> {
    first: &'a str,
    rows: &'a [(&'a str, &'a str)],
}

impl<'a> Telling<String> for Rows<'a> {
    fn told<L: Ledger>(
        &self,
        alloc: Global,
        session: &mut Session<L>,
        steps: &mut Steps<L>,
    ) -> Result<String, Fail> {
        other_outcome_from(alloc, session, self.first, self.rows, steps)
    }
}

/// The same from the start.
fn other_outcome_of(
    alloc: Global,
    files: &[(&str, &str)],
    first: &str,
    rows: &[(&str, &str)],
) -> Result<String, Fail> {
    told_after(alloc, files, &[], &Rows { first, rows })
}

/// An answer that is given again reaches nothing.
const CLAIMANT: [(&str, &str); 4] = [
    (
        "answer the claimant is an adult = true",
        "0 changes, 1 of 1, undecided",
    ),
    (
        "answer the claimant is an adult = true",
        "0 changes, 0 of 1, undecided",
    ),
    (
        "answer the claimant is a veteran = false",
        "1 changes, 1 of 1, settled",
    ),
    (
        "withdraw the claimant is an adult",
        "0 changes, 1 of 1, settled",
    ),
];

#[test]
fn a_claimant(rt: HostRuntime) -> Result<(), Fail> {
    let files = [("main", texts::CLAIMANT)];
    let other = other_outcome_of(
        rt.alloc(),
        &files,
        "0 changes, 0 of 1, undecided",
        &CLAIMANT,
    )?;
    assert_eq!(rt; other.as_str(), "");
    Ok(())
}

/// What rests on whether something is known is decided, and never settled.
const COVERED: [(&str, &str); 2] = [
    (
        "answer the claimant is registered = true",
        "1 changes, 1 of 1, undecided",
    ),
    (
        "answer the claimant is insured = true",
        "1 changes, 1 of 1, decided",
    ),
];

#[test]
fn what_may_turn(rt: HostRuntime) -> Result<(), Fail> {
    let files = [("main", texts::COVERED)];
    let other = other_outcome_of(rt.alloc(), &files, "0 changes, 0 of 1, decided", &COVERED)?;
    assert_eq!(rt; other.as_str(), "");
    Ok(())
}

/// The answers of a household, the last of which changes nothing.
pub(crate) const HOUSEHOLD: [(&str, &str); 7] = [
    (
        "list the people = \"Ada\", \"Bo\", \"Cy\"",
        "2 changes, 7 of 8, undecided",
    ),
    (
        "answer the person is a dependant of \"Ada\" = false",
        "0 changes, 1 of 8, undecided",
    ),
    (
        "answer the person is a dependant of \"Bo\" = false",
        "0 changes, 1 of 8, undecided",
    ),
    (
        "answer the person is a dependant of \"Cy\" = true",
        "1 changes, 2 of 8, undecided",
    ),
    (
        "answer the person's income of \"Ada\" = 0; from 2020-01-01 600; from 2022-07-01 800",
        "1 changes, 2 of 8, undecided",
    ),
    (
        "answer the person's income of \"Bo\" = 0; from 2021-01-01 300; from 2024-01-01 0",
        "4 changes, 4 of 8, settled",
    ),
    (
        "answer the person's income of \"Cy\" = 0; from 2023-01-01 50",
        "0 changes, 1 of 8, settled",
    ),
];

/// An income is changed and put back: the benefit's line returns.
const PUT_BACK: [(&str, &str); 5] = [
    (
        "show the monthly benefit",
        "the monthly benefit: 900.00; from 2020-01-01 750.00; from 2021-01-01 675.00; from 2022-07-01 350.00; from 2024-01-01 700.00",
    ),
    (
        "answer the person's income of \"Bo\" = 0",
        "4 changes, 4 of 8, settled",
    ),
    (
        "show the monthly benefit",
        "the monthly benefit: 900.00; from 2020-01-01 750.00; from 2022-07-01 700.00",
    ),
    (
        "answer the person's income of \"Bo\" = 0; from 2021-01-01 300; from 2024-01-01 0",
        "4 changes, 4 of 8, settled",
    ),
    (
        "show the monthly benefit",
        "the monthly benefit: 900.00; from 2020-01-01 750.00; from 2021-01-01 675.00; from 2022-07-01 350.00; from 2024-01-01 700.00",
    ),
];

/// The first line of both that comes to something else.
fn other_of_a_household<L: Ledger>(
    alloc: Global,
    session: &mut Session<L>,
    steps: &mut Steps<L>,
) -> Result<String, Fail> {
    let first = "0 changes, 0 of 5, undecided";
    let other = other_outcome_from(alloc, session, first, &HOUSEHOLD, steps)?;
    if !other.is_empty() {
        return Ok(other);
    }
    other_outcome(alloc, session, &PUT_BACK, steps)
}

#[derive(Clone, Copy)]
struct Household;

impl Telling<String> for Household {
    fn told<L: Ledger>(
        &self,
        alloc: Global,
        session: &mut Session<L>,
        steps: &mut Steps<L>,
    ) -> Result<String, Fail> {
        other_of_a_household(alloc, session, steps)
    }
}

#[test]
fn a_household(rt: HostRuntime) -> Result<(), Fail> {
    let other = told_after(rt.alloc(), &texts::BENEFIT, &[], &Household)?;
    assert_eq!(rt; other.as_str(), "");
    Ok(())
}
