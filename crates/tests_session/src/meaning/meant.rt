// What is determined freshly of a claimant: by the whole rule, and by its parts.
ghost use Rattle.std.specs.Prelude.{◌<◌, IfOk};
ghost use Rattle.std.specs.List.{AllByRecursion};
ghost use Rattle.opa_case.specs.Cases.{CaseView, IsLive};
ghost use Rattle.opa_date.specs.declared.TheConstants.{DAYS};

use crate::input::points::{attribute, instance};
use crate::input::printed::value_words;
use crate::input::told::{Telling, told_after};
use crate::samples::texts;
use opa_case::InstanceId;
use opa_date::DAYS;
use opa_io::{List, NoMemory, Steps};
use opa_mean::{Held, tree_value, value_on};
use opa_model::{AttrId, Kind};
use opa_session::Session;
use opa_tree::Expr;
use opa_value::Value;
use std::alloc::Global;
use std::sync::ledger::Ledger;
use std::test::Fail;

/// What is answered of an adult and of a veteran, and whether the claimant is entitled.
const ANSWERS: [(&str, &str, &str); 6] = [
    ("uncertain", "unknown", "unknown"),
    ("uncertain", "true", "uncertain"),
    ("uncertain", "false", "false"),
    ("false", "unknown", "false"),
    ("unknown", "unknown", "unknown"),
    ("true", "true", "true"),
];

/// What is told of a claimant of whom this is answered.
fn told_of_claimant<T: Telling<String>>(
    alloc: Global,
    adult: &str,
    veteran: &str,
    telling: &T,
) -> Result<String, Fail> {
    let adult = format!(in alloc; "answer the claimant is an adult = {adult}")?;
    let veteran = format!(in alloc; "answer the claimant is a veteran = {veteran}")?;
    let files = [("main", texts::CLAIMANT)];
    told_after(alloc, &files, &[adult.as_str(), veteran.as_str()], telling)
}

/// The value that is determined freshly, where the attribute has a place.
fn fresh_value<L: Ledger>(
    alloc: Global,
    session: &Session<L>,
    attr: AttrId,
    inst: &InstanceId,
    day: u32,
) -> Result<Option<Value>, NoMemory>
    requires { day < DAYS }
{
    if !session.has_place(attr, inst) {
        return Ok(None);
    }
    let value = value_on(alloc, session.base(), session.case(), attr, inst, day)?;
    Ok(Some(value))
}

/// Whether the claimant is entitled, by a fresh determination.
fn entitled<L: Ledger>(alloc: Global, session: &Session<L>, day: u32) -> Result<String, Fail>
    requires { day < DAYS }
{
    let model = &session.base().model;
    let attr = attribute(model, "the claimant is entitled")?;
    let inst = instance(alloc, model, attr, "")?;
    match fresh_value(alloc, session, attr, &inst, day)? {
        Some(value) => words_of(alloc, &value),
        None => Ok(String::from_str(alloc, "no place")?),
    }
}

fn words_of(alloc: Global, value: &Value) -> Result<String, Fail> {
    let words = value_words(alloc, Kind::Bool, value)?;
    Ok(String::from_str(alloc, words.as_str())?)
}

#[derive(Clone, Copy)]
struct EntitledOn {
    day: u32,
    ghost within: { day < DAYS },
}

impl Telling<String> for EntitledOn {
    fn told<L: Ledger>(
        &self,
        alloc: Global,
        session: &mut Session<L>,
        _steps: &mut Steps<L>,
    ) -> Result<String, Fail> {
        entitled(alloc, session, self.day)
    }
}

/// The same of a claimant of whom this is answered.
fn entitled_after(alloc: Global, adult: &str, veteran: &str, day: u32) -> Result<String, Fail>
    requires { day < DAYS }
{
    told_of_claimant(alloc, adult, veteran, &EntitledOn { day })
}

#[test]
fn freshly_determined(rt: HostRuntime) -> Result<(), Fail> {
    for (adult, veteran, want) in ANSWERS {
        let found = entitled_after(rt.alloc(), adult, veteran, 154_893)?;
        assert_eq!(rt; found.as_str(), want);
    }
    Ok(())
}

#[test]
fn on_the_first_and_the_last_day(rt: HostRuntime) -> Result<(), Fail> {
    let adult = "uncertain; from 2399-12-31 false";
    for (day, want) in [(0, "uncertain"), (292_193, "false")] {
        let found = entitled_after(rt.alloc(), adult, "true", day)?;
        assert_eq!(rt; found.as_str(), want);
    }
    Ok(())
}

/// The global instance as the only enclosing one.
fn global_alone(alloc: Global) -> Result<List<InstanceId>, NoMemory>
    ensures { IfOk result (λ all. (case : CaseView) → AllByRecursion (IsLive case) all) }
{
    let mut all = List::new(alloc);
    all.push(InstanceId::global(alloc)?)?;
    Ok(all)
}

/// The values of a rule's tree and of its parts, at the global instance.
fn parts<H: Held>(alloc: Global, held: &H, tree: &Expr, day: u32) -> Result<List<Value>, NoMemory>
    requires { day < DAYS }
{
    let enclosing = global_alone(alloc)?;
    let mut values = List::new(alloc);
    values.push(tree_value(alloc, held, tree, &enclosing, day)?)?;
    if let Expr::All(parts) = tree {
        for part in parts.as_slice() {
            values.push(tree_value(alloc, held, part, &enclosing, day)?)?;
        }
    }
    Ok(values)
}

fn rule_parts<H: Held>(
    alloc: Global,
    held: &H,
    attr: AttrId,
    day: u32,
) -> Result<List<Value>, NoMemory>
    requires { day < DAYS }
{
    match held.base().rules.of(attr) {
        Some(rule) => parts(alloc, held, &rule.expr, day),
        None => Ok(List::new(alloc)),
    }
}

/// What the rule of being entitled gives, and what its parts give.
fn told_parts<L: Ledger>(alloc: Global, session: &Session<L>, day: u32) -> Result<String, Fail>
    requires { day < DAYS }
{
    let attr = attribute(&session.base().model, "the claimant is entitled")?;
    let values = rule_parts(alloc, session, attr, day)?;
    let mut out = String::new(alloc);
    for value in values.as_slice() {
        out.push_str(" ")?;
        out.push_str(words_of(alloc, value)?.as_str())?;
    }
    Ok(out)
}

#[derive(Clone, Copy)]
struct PartsTrial;

impl Telling<String> for PartsTrial {
    fn told<L: Ledger>(
        &self,
        alloc: Global,
        session: &mut Session<L>,
        _steps: &mut Steps<L>,
    ) -> Result<String, Fail> {
        told_parts(alloc, session, 154_893)
    }
}

#[test]
fn values_of_parts(rt: HostRuntime) -> Result<(), Fail> {
    for (adult, veteran, entitled) in ANSWERS {
        let found = told_of_claimant(rt.alloc(), adult, veteran, &PartsTrial)?;
        let want = format!(in rt.alloc(); " {entitled} {adult} {veteran}")?;
        assert_eq!(rt; found.as_str(), want.as_str());
    }
    Ok(())
}
