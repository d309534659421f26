// What the rules of a household's benefit can look at.
use crate::input::points::{attribute, instance};
use crate::input::told::{Telling, told_after};
use crate::samples::texts;
use opa_case::{InstanceId, Question};
use opa_io::{List, NoMemory, Steps, Txt};
use opa_mean::{Held, reads};
use opa_model::{AttrId, Model};
use opa_session::Session;
use opa_text::point_text;
use std::alloc::Global;
use std::sync::ledger::Ledger;
use std::test::Fail;

/// What the rule of an attribute can look at, where it has one and the attribute has a place.
fn looked_at<L: Ledger>(
    alloc: Global,
    session: &Session<L>,
    attr: AttrId,
    inst: &InstanceId,
) -> Result<List<Question>, NoMemory> {
    if !session.has_place(attr, inst) || session.base().rules.of(attr).is_none() {
        return Ok(List::new(alloc));
    }
    reads(alloc, session.base(), session.case(), attr, inst)
}

/// The point of a line, or of a list.
fn words(alloc: Global, model: &Model, question: &Question) -> Result<Txt, NoMemory> {
    match question {
        Question::Attr(attr, inst) => {
            if attr.0 < model.attribute_count() {
                point_text(alloc, &model.attribute(*attr).phrase, inst)
            } else {
                Txt::from_str(alloc, "undeclared")
            }
        }
        Question::Members(rel, inst) => {
            if rel.0 < model.relation_count() {
                point_text(alloc, &model.relation(*rel).phrase, inst)
            } else {
                Txt::from_str(alloc, "undeclared")
            }
        }
    }
}

/// The points that a rule can look at, with a stroke before each.
fn looks<L: Ledger>(
    alloc: Global,
    session: &Session<L>,
    phrase: &str,
    name: &str,
) -> Result<String, Fail> {
    let model = &session.base().model;
    let attr = attribute(model, phrase)?;
    let inst = instance(alloc, model, attr, name)?;
    let found = looked_at(alloc, session, attr, &inst)?;
    let mut out = String::new(alloc);
    for question in found.as_slice() {
        out.push_str("/")?;
        out.push_str(words(alloc, &session.base().model, question)?.as_str())?;
    }
    Ok(out)
}

/// Conclusions of the household, each with what its rule can look at.
const LOOKS: [(&str, &str, &str); 8] = [
    ("the number of people", "", "/the people"),
    (
        "the household income",
        "",
        "/the people/the person's counted income of \"Ada\"/the person's counted income of \"Bo\"/the person's counted income of \"Cy\"",
    ),
    (
        "the base amount",
        "",
        "/the number of people/the number of people",
    ),
    ("the rate", "", "/the household income"),
    (
        "the monthly benefit",
        "",
        "/the base amount/the household income/the rate",
    ),
    (
        "the person's counted income",
        "Ada",
        "/the person is a dependant of \"Ada\"/the person's income of \"Ada\"",
    ),
    (
        "the person's counted income",
        "Cy",
        "/the person is a dependant of \"Cy\"/the person's income of \"Cy\"",
    ),
    ("the person's income", "Ada", ""),
];

/// The first of these conclusions whose rule looks at other points, with these points; nothing where there is none.
fn other_looks<L: Ledger>(
    alloc: Global,
    session: &Session<L>,
    rows: &[(&str, &str, &str)],
) -> Result<String, Fail> {
    for (phrase, name, want) in rows {
        let found = looks(alloc, session, phrase, name)?;
        if found.as_str() != *want {
            return Ok(format!(in alloc; "{phrase} {name}: {found}")?);
        }
    }
    Ok(String::new(alloc))
}

#[derive(Clone, Copy)]
struct OtherLooks<'a> {
    rows: &'a [(&'a str, &'a str, &'a str)],
}

impl<'a> Telling<String> for OtherLooks<'a> {
    fn told<L: Ledger>(
        &self,
        alloc: Global,
        session: &mut Session<L>,
        _steps: &mut Steps<L>,
    ) -> Result<String, Fail> {
        other_looks(alloc, session, self.rows)
    }
}

/// The same of the household after lines of input.
fn other_looks_after(
    alloc: Global,
    input: &[&str],
    rows: &[(&str, &str, &str)],
) -> Result<String, Fail> {
    told_after(alloc, &texts::BENEFIT, input, &OtherLooks { rows })
}

const THREE_PEOPLE: &str = "list the people = \"Ada\", \"Bo\", \"Cy\"";

#[test]
fn of_three_people(rt: HostRuntime) -> Result<(), Fail> {
    let other = other_looks_after(rt.alloc(), &[THREE_PEOPLE], &LOOKS)?;
    assert_eq!(rt; other.as_str(), "");
    Ok(())
}

const WITHOUT_A_LIST: [(&str, &str, &str); 2] = [
    ("the household income", "", "/the people"),
    ("the person's counted income", "Ada", ""),
];

#[test]
fn of_unknown_people(rt: HostRuntime) -> Result<(), Fail> {
    let other = other_looks_after(rt.alloc(), &[], &WITHOUT_A_LIST)?;
    assert_eq!(rt; other.as_str(), "");
    Ok(())
}
