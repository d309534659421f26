// Rules that are carried out day by day and as code: both give one line.
ghost use Rattle.std.specs.Prelude.{◌≡◌, true};
ghost use Rattle.opa_mean.specs.Rulebases.{IsOf};
ghost use Rattle.opa_mean.specs.Slots.{is_slot};
ghost use Rattle.opa_session.specs.Infer.Sessions.{rules_of, held_of};

use crate::input::points::{attribute, instance};
use crate::input::printed::line_words;
use crate::input::told::{Telling, told_after};
use crate::samples::texts;
use opa_case::{Case, InstanceId};
use opa_code::compile;
use opa_io::{NoMemory, Steps};
use opa_line::Line;
use opa_mean::{Derive, Held, Plain};
use opa_model::{AttrId, Kind};
use opa_session::Session;
use opa_tree::Rulebase;
use opa_value::Value;
use std::alloc::Global;
use std::sync::ledger::Ledger;
use std::test::Fail;

/// Whether the attribute has a rule, and the instance is live and of its entity.
fn is_slot<L: Ledger>(session: &Session<L>, attr: AttrId, inst: &InstanceId) -> bool
    ensures { result ≡ is_slot (rules_of session.now) (held_of session.now) attr inst.now }
{
    session.has_place(attr, inst) && session.base().rules.of(attr).is_some()
}

/// The line of a rule over the answers of a case.
fn rule_line<D: Derive>(
    alloc: Global,
    code: &D,
    base: &Rulebase,
    case: &Case,
    attr: AttrId,
    inst: &InstanceId,
) -> Result<Line<Value>, NoMemory>
    requires code { D.stands_for code.now ≡ base.now }
    requires fits { IsOf base.now case.now }
    requires slot { is_slot base.now case.now attr inst.now ≡ true }
{
    code.evaluate(alloc, attr, inst, case)
}

/// The line of a rule, day by day.
fn plain_line(
    alloc: Global,
    base: &Rulebase,
    case: &Case,
    attr: AttrId,
    inst: &InstanceId,
) -> Result<Line<Value>, NoMemory>
    requires fits { IsOf base.now case.now }
    requires slot { is_slot base.now case.now attr inst.now ≡ true }
{
    rule_line(alloc, &Plain::new(base), base, case, attr, inst)
}

/// The line of a rule, by its code.
fn coded_line(
    alloc: Global,
    base: &Rulebase,
    case: &Case,
    attr: AttrId,
    inst: &InstanceId,
) -> Result<Line<Value>, NoMemory>
    requires fits { IsOf base.now case.now }
    requires slot { is_slot base.now case.now attr inst.now ≡ true }
{
    let code = compile(alloc, base)?;
    rule_line(alloc, &code, base, case, attr, inst)
}

/// The line of a conclusion by its code, where day by day it is the same.
fn both<L: Ledger>(
    alloc: Global,
    session: &Session<L>,
    attr: AttrId,
    inst: &InstanceId,
) -> Result<Option<Line<Value>>, NoMemory> {
    if !is_slot(session, attr, inst) {
        return Ok(None);
    }
    let plain = plain_line(alloc, session.base(), session.case(), attr, inst)?;
    let coded = coded_line(alloc, session.base(), session.case(), attr, inst)?;
    if plain.first_difference(&coded).is_some() {
        return Ok(None);
    }
    Ok(Some(coded))
}

/// What both give for a global conclusion.
fn both_words<L: Ledger>(
    alloc: Global,
    session: &Session<L>,
    phrase: &str,
    kind: Kind,
) -> Result<String, Fail> {
    let attr = attribute(&session.base().model, phrase)?;
    let inst = instance(alloc, &session.base().model, attr, "")?;
    match both(alloc, session, attr, &inst)? {
        Some(line) => line_words(alloc, kind, &line),
        None => Ok(String::from_str(alloc, "they differ")?),
    }
}

#[derive(Clone, Copy)]
struct BothTrial<'a> {
    phrase: &'a str,
    kind: Kind,
}

impl<'a> Telling<String> for BothTrial<'a> {
    fn told<L: Ledger>(
        &self,
        alloc: Global,
        session: &mut Session<L>,
        _steps: &mut Steps<L>,
    ) -> Result<String, Fail> {
        both_words(alloc, session, self.phrase, self.kind)
    }
}

/// The same after lines of input.
fn concluded(
    alloc: Global,
    files: &[(&str, &str)],
    input: &[&str],
    phrase: &str,
    kind: Kind,
) -> Result<String, Fail> {
    told_after(alloc, files, input, &BothTrial { phrase, kind })
}

/// Several examples, one behind the other in one line: a rule that is carried out day by day takes long.
#[test]
fn of_answers(rt: HostRuntime) -> Result<(), Fail> {
    let adult = "answer the claimant is an adult = uncertain";
    let veteran =
        "answer the claimant is a veteran = unknown; from 2024-01-01 true; from 2024-02-01 false";
    let files = [("main", texts::CLAIMANT)];
    let phrase = "the claimant is entitled";
    let found = concluded(rt.alloc(), &files, &[adult, veteran], phrase, Kind::Bool)?;
    assert_eq!(rt;
        found.as_str(),
        "unknown; from 2024-01-01 uncertain; from 2024-02-01 false"
    );
    Ok(())
}

/// A window that is empty, one that ends with the employment, one with a day more, and one without an end.
#[test]
fn of_windows(rt: HostRuntime) -> Result<(), Fail> {
    let employed =
        "answer the claimant is employed = false; from 2024-01-01 true; from 2024-07-01 false";
    let end =
        "answer the end = 2024-01-01; from 2024-03-01 2024-07-01; from 2024-03-02 2024-07-02; from 2024-03-03 unknown";
    let files = [("main", texts::STEADY)];
    let phrase = "the claimant is steady";
    let found = concluded(rt.alloc(), &files, &[employed, end], phrase, Kind::Bool)?;
    assert_eq!(rt;
        found.as_str(),
        "true; from 2024-03-02 false; from 2024-03-03 unknown"
    );
    Ok(())
}

#[test]
fn of_a_list(rt: HostRuntime) -> Result<(), Fail> {
    let both = "list the children = \"Anna\", \"Ben\"";
    let anna = "answer the child is at school of \"Anna\" = true";
    let ben = "answer the child is at school of \"Ben\" = false";
    let files = [("main", texts::FAMILY)];
    let phrase = "the family is eligible";
    let found = concluded(rt.alloc(), &files, &[], phrase, Kind::Bool)?;
    assert_eq!(rt; found.as_str(), "unknown");
    let none = ["list the children = none"];
    let found = concluded(rt.alloc(), &files, &none, phrase, Kind::Bool)?;
    assert_eq!(rt; found.as_str(), "true");
    let found = concluded(rt.alloc(), &files, &[both, anna, ben], phrase, Kind::Bool)?;
    assert_eq!(rt; found.as_str(), "false");
    Ok(())
}

#[test]
fn of_a_table(rt: HostRuntime) -> Result<(), Fail> {
    let income =
        "answer the income = 150; from 2024-01-01 50; from 2024-02-01 5; from 2024-03-01 unknown";
    let phrase = "the rate";
    let found = concluded(rt.alloc(), &texts::RATED, &[income], phrase, Kind::Number)?;
    assert_eq!(rt;
        found.as_str(),
        "3; from 2024-01-01 2; from 2024-02-01 1; from 2024-03-01 unknown"
    );
    Ok(())
}

/// What code alone gives for a global conclusion: of a window of 36,600 days each day would be too many.
fn coded_alone<L: Ledger>(
    alloc: Global,
    session: &Session<L>,
    attr: AttrId,
    inst: &InstanceId,
) -> Result<Option<Line<Value>>, NoMemory> {
    if !is_slot(session, attr, inst) {
        return Ok(None);
    }
    let line = coded_line(alloc, session.base(), session.case(), attr, inst)?;
    Ok(Some(line))
}

/// The line of a global truth value by its code.
fn coded<L: Ledger>(alloc: Global, session: &Session<L>, phrase: &str) -> Result<String, Fail> {
    let attr = attribute(&session.base().model, phrase)?;
    let inst = instance(alloc, &session.base().model, attr, "")?;
    match coded_alone(alloc, session, attr, &inst)? {
        Some(line) => line_words(alloc, Kind::Bool, &line),
        None => Ok(String::from_str(alloc, "no conclusion")?),
    }
}

#[derive(Clone, Copy)]
struct CodedTrial<'a> {
    phrase: &'a str,
}

impl<'a> Telling<String> for CodedTrial<'a> {
    fn told<L: Ledger>(
        &self,
        alloc: Global,
        session: &mut Session<L>,
        _steps: &mut Steps<L>,
    ) -> Result<String, Fail> {
        coded(alloc, session, self.phrase)
    }
}

/// The same after a line of input.
fn coded_after(alloc: Global, text: &str, line: &str, phrase: &str) -> Result<String, Fail> {
    told_after(alloc, &[("main", text)], &[line], &CodedTrial { phrase })
}

#[test]
fn of_a_hundred_years(rt: HostRuntime) -> Result<(), Fail> {
    let line = "answer the claimant is employed = false; from 1900-01-01 true";
    let phrase = "the claimant is long employed";
    let found = coded_after(rt.alloc(), texts::LONG_EMPLOYED, line, phrase)?;
    assert_eq!(rt; found.as_str(), "false; from 2000-03-16 true");
    Ok(())
}

/// Forty conclusions, each from a hundred years of one answer.
fn forty_rules(alloc: Global) -> Result<String, Fail> {
    let mut text = String::from_str(alloc, "verb is / is not / is /\nglobal\n")?;
    text.push_str("  bool the claimant [is] employed\n")?;
    for k in 1..41 {
        text.push_str(format!(in alloc; "  bool the claimant [is] s{k}\n")?.as_str())?;
    }
    for k in 1..41 {
        text.push_str(format!(in alloc; "the claimant is s{k} if\n")?.as_str())?;
        text.push_str("  TemporalAlwaysDays(36600, the claimant is employed)\n")?;
    }
    Ok(text)
}

/// The first of forty conclusions that isn't true on every day; nothing where there is none.
fn first_not_true<L: Ledger>(alloc: Global, session: &Session<L>) -> Result<String, Fail> {
    for k in 1..41 {
        let phrase = format!(in alloc; "the claimant is s{k}")?;
        let found = coded(alloc, session, phrase.as_str())?;
        if found.as_str() != "true" {
            return Ok(phrase);
        }
    }
    Ok(String::new(alloc))
}

#[derive(Clone, Copy)]
struct FirstNotTrue;

impl Telling<String> for FirstNotTrue {
    fn told<L: Ledger>(
        &self,
        alloc: Global,
        session: &mut Session<L>,
        _steps: &mut Steps<L>,
    ) -> Result<String, Fail> {
        first_not_true(alloc, session)
    }
}

/// The same where the claimant is always employed.
fn not_true_of_employed(alloc: Global) -> Result<String, Fail> {
    let text = forty_rules(alloc)?;
    let line = "answer the claimant is employed = true";
    told_after(alloc, &[("main", text.as_str())], &[line], &FirstNotTrue)
}

#[test]
fn of_forty_rules(rt: HostRuntime) -> Result<(), Fail> {
    let phrase = not_true_of_employed(rt.alloc())?;
    assert_eq!(rt; phrase.as_str(), "");
    Ok(())
}
