// Rules that are loaded, and printed as text that loads as the same rule.
use crate::samples::load_text;
use opa_io::NoMemory;
use opa_tree::Rulebase;
use opa_wording::rule_text;
use std::alloc::Global;
use std::test::Fail;

/// What the rules of the rows speak of.
const DECLARED: &str = "verb is / is not / is /
global
  bool the claimant [is] entitled
  bool the claimant [is] an adult
  bool the claimant [is] a veteran
  number the income
  number the amount
  text the name
  date the day
entity the child
  in global: the children
  number the age
";

/// A rule as it is written, and as it is printed.
const CONDITIONS: [(&str, &str); 6] = [
    (
        "the claimant is entitled if\n  the claimant is an adult and\n  the claimant is a veteran\n",
        "the claimant is entitled if\n  the claimant is an adult and\n  the claimant is a veteran\n",
    ),
    (
        "the claimant is entitled if\n\tall\n\t\tthe claimant is not an adult\n",
        "the claimant is entitled if\n  not the claimant is an adult\n",
    ),
    (
        "the claimant is entitled if\n  either\n    true or\n    the claimant is a veteran or\n    uncertain\n  and\n  false\n",
        "the claimant is entitled if\n  ((true) or (the claimant is a veteran) or (uncertain)) and\n  false\n",
    ),
    (
        "the claimant is entitled if\n  it is not true that\n    true and\n    not Certain(the claimant is an adult)\n",
        "the claimant is entitled if\n  not ((true) and (not Certain(the claimant is an adult)))\n",
    ),
    (
        "the claimant is entitled if\n  (true and false) or\n  (true)\n",
        "the claimant is entitled if\n  ((true) and (false)) or\n  true\n",
    ),
    (
        "the claimant is entitled if\n  1 = 2\n",
        "the claimant is entitled if\n  1 = 2\n",
    ),
];

const EQUATIONS: [(&str, &str); 8] = [
    (
        "the amount = ((1 + 2)) * 3 - 4 / 5\n",
        "the amount = ((1 + 2) * 3) - (4 / 5)\n",
    ),
    (
        "the claimant is entitled = 1 - 2 - 3.50 = -6\n",
        "the claimant is entitled = ((1 - 2) - 3.5) = -6\n",
    ),
    ("the amount = -the income\n", "the amount = -(the income)\n"),
    (
        "the day = AddDays( 2024-02-29 ,1 )\n",
        "the day = AddDays(2024-02-29, 1)\n",
    ),
    (
        "the name = Concatenate(\"a \"\"b\"\"\", \"\")\n",
        "the name = Concatenate(\"a \"\"b\"\"\", \"\")\n",
    ),
    (
        "the amount = Round(1/3,2)\n",
        "the amount = Round(1 / 3, 2)\n",
    ),
    (
        "the claimant is entitled = TemporalAlwaysDays(30, the claimant is a veteran)\n",
        "the claimant is entitled = TemporalAlwaysDays(30, the claimant is a veteran)\n",
    ),
    (
        "the claimant is entitled = (true or false)\n",
        "the claimant is entitled = ((true) or (false))\n",
    ),
];

const CASES_AND_LISTS: [(&str, &str); 5] = [
    (
        "the amount =\n  1 if\n    the claimant is an adult\n  2 otherwise\n",
        "the amount =\n  1 if\n    the claimant is an adult\n  2 otherwise\n",
    ),
    (
        "the amount =\n  1 + 1 if\n    true or\n    any\n      false\n  (2) if\n    true and\n    both\n      true and\n      false\n  uncertain otherwise\n",
        "the amount =\n  1 + 1 if\n    true or\n    false\n  2 if\n    true and\n    ((true) and (false))\n  uncertain otherwise\n",
    ),
    (
        "the claimant is entitled if\n  for all of the children\n    the age > 3\n",
        "the claimant is entitled if\n  ForAll(the children, the age > 3)\n",
    ),
    (
        "the claimant is entitled if\n  for at least one of the children\n    the age = 3 and\n    false\n",
        "the claimant is entitled if\n  Exists(the children, ((the age = 3) and (false)))\n",
    ),
    (
        "the amount = InstanceSumIf(the children, the income, the age <> 300)\n",
        "the amount = InstanceSumIf(the children, the income, the age <> 300)\n",
    ),
];

/// The text of the first rule.
fn printed(alloc: Global, base: &Rulebase) -> Result<Vec<u8>, NoMemory> {
    match base.rules.as_slice() {
        [] => Ok(Vec::new(alloc)),
        [rule, ..] => rule_text(alloc, &base.model, rule),
    }
}

/// Whether the rule, as it is written, is printed so.
fn is_printed(alloc: Global, rule: &str, want: &str) -> Result<bool, Fail> {
    let text = format!(in alloc; "{DECLARED}{rule}")?;
    let base = load_text(alloc, text.as_str())?;
    let found = printed(alloc, &base);
    drop(base);
    Ok(found?.as_slice() == want.as_bytes())
}

/// The first rule that isn't printed as its row says, or whose text isn't printed as it stands.
fn first_other(alloc: Global, rows: &[(&str, &str)]) -> Result<Option<usize>, Fail> {
    for (place, (rule, want)) in rows.iter().enumerate() {
        if !is_printed(alloc, rule, want)? || !is_printed(alloc, want, want)? {
            return Ok(Some(place));
        }
    }
    Ok(None)
}

#[test]
fn printed_and_loaded_again(rt: HostRuntime) -> Result<(), Fail> {
    assert_eq!(rt; first_other(rt.alloc(), &CONDITIONS)?, None);
    assert_eq!(rt; first_other(rt.alloc(), &EQUATIONS)?, None);
    assert_eq!(rt; first_other(rt.alloc(), &CASES_AND_LISTS)?, None);
    Ok(())
}
