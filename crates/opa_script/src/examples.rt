// The example rulebase, and input for it of any size.
ghost use Rattle.std.specs.Prelude.{◌≡◌, ◌≤◌, ◌<◌, ◌+◌, decimal, IfOk};
ghost use Rattle.std.specs.String.{string_bytes};
ghost use Rattle.opa_script.specs.Examples as meant;
ghost use Rattle.opa_script.specs.Examples.{rules_text, input_text};

use opa_io::{NoMemory, Txt};
use std::alloc::Global;

/// A main file of rules, and input lines for it.
#[derive(Debug, Drop)]
pub struct Generated {
    pub rules: Txt,
    pub input: Txt,
}

/// The example rulebase, and an input with so many people whose incomes depend on the seed.
pub fn generate(alloc: Global, seed: u32, size: u32) -> Result<Generated, NoMemory>
    requires least { 1 ≤ size }
    requires most { size ≤ 1000 }
    ensures rules { IfOk result (λ g. g.rules ≡ rules_text) }
    ensures input { IfOk result (λ g. g.input ≡ input_text seed size) }
{
    Ok(Generated {
        rules: rules(alloc)?,
        input: input(alloc, seed, size)?,
    })
}

fn rules(alloc: Global) -> Result<Txt, NoMemory>
    ensures { IfOk result (λ t. t ≡ rules_text) }
{
    Txt::from_str(
        alloc,
        "global\n  currency the total\n  number the number above\nentity the person\n  in global: the people\n  currency the person's income\ngoal the total\ngoal the number above\nthe total = InstanceSum(the people, the person's income)\nthe number above = InstanceCountIf(the people, the person's income > 300)\n",
    )
}

fn input(alloc: Global, seed: u32, size: u32) -> Result<Txt, NoMemory>
    requires { size ≤ 1000 }
    ensures { IfOk result (λ t. t ≡ input_text seed size) }
{
    let list = list_line(alloc, size)?;
    let answers = answers(alloc, seed, size)?;
    let text = format!(in alloc; "{}{}goals\nstats\n", list.as_str(), answers.as_str())?;
    Ok(Txt::from_string(text))
}

fn list_line(alloc: Global, size: u32) -> Result<Txt, NoMemory>
    requires { size ≤ 1000 }
    ensures { IfOk result (λ t. t ≡ meant.list_line size) }
{
    let people = people(alloc, size)?;
    let text = format!(in alloc; "list the people = {}\n", people.as_str())?;
    Ok(Txt::from_string(text))
}

fn people(alloc: Global, size: u32) -> Result<String, NoMemory>
    requires { size ≤ 1000 }
    ensures { IfOk result (λ s. string_bytes s ≡ meant.people size) }
{
    let mut out = String::new(alloc);
    for k in 0..size {
        let name = person(alloc, k + 1)?;
        out.push_str(gap_before(k + 1))?;
        out.push_str(name.as_str())?;
    }
    Ok(out)
}

fn gap_before(k: u32) -> &'static str
    ensures { result.now ≡ meant.gap_before k }
{
    if k == 1 { "" } else { ", " }
}

fn person(alloc: Global, k: u32) -> Result<Txt, NoMemory>
    ensures { IfOk result (λ t. t ≡ meant.person k) }
{
    let text = format!(in alloc; "\"P{k}\"")?;
    Ok(Txt::from_string(text))
}

fn answers(alloc: Global, seed: u32, size: u32) -> Result<String, NoMemory>
    requires { size ≤ 1000 }
    ensures { IfOk result (λ s. string_bytes s ≡ meant.answers seed size) }
{
    let mut out = String::new(alloc);
    for k in 0..size {
        let line = answer_line(alloc, seed, k + 1)?;
        out.push_str(line.as_str())?;
        out.push_str("\n")?;
    }
    Ok(out)
}

fn answer_line(alloc: Global, seed: u32, k: u32) -> Result<Txt, NoMemory>
    requires { k ≤ 1000 }
    ensures { IfOk result (λ t. t ≡ meant.answer_line seed k) }
{
    let first = first_income(alloc, seed, k)?;
    let later = later_income(alloc, seed, k)?;
    let text = format!(in alloc; "{}{}", first.as_str(), later.as_str())?;
    Ok(Txt::from_string(text))
}

fn first_income(alloc: Global, seed: u32, k: u32) -> Result<Txt, NoMemory>
    requires { k ≤ 1000 }
    ensures { IfOk result (λ t. t ≡ meant.first_income seed k) }
{
    let name = person(alloc, k)?;
    let amount = income(seed, k);
    let text = format!(in alloc;
        "answer the person's income of {} = {amount}",
        name.as_str()
    )?;
    Ok(Txt::from_string(text))
}

fn later_income(alloc: Global, seed: u32, k: u32) -> Result<Txt, NoMemory>
    requires { k ≤ 1000 }
    ensures { IfOk result (λ t. t ≡ meant.later_income seed k) }
{
    let month = two_digits(alloc, month(k))?;
    let amount = income(seed, k) + 5;
    let text = format!(in alloc; "; from 2024-{}-01 {amount}", month.as_str())?;
    Ok(Txt::from_string(text))
}

/// The first income of a person.
fn income(seed: u32, k: u32) -> u64
    requires { k ≤ 1000 }
    ensures value { result ≡ meant.income seed k }
    ensures bound { result ≤ 590 }
{
    (31 * u64::from(seed) + 17 * u64::from(k)) % 50 * 10 + 100
}

/// The month in which it rises.
fn month(k: u32) -> u32
    ensures { result ≡ meant.month k }
{
    k % 12 + 1
}

fn two_digits(alloc: Global, n: u32) -> Result<Txt, NoMemory>
    ensures { IfOk result (λ t. t ≡ meant.two_digits n) }
{
    let text = if n < 10 {
        format!(in alloc; "0{n}")?
    } else {
        format!(in alloc; "{n}")?
    };
    Ok(Txt::from_string(text))
}
