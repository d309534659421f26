// What the lines of findings say.
ghost use Rattle.std.specs.Prelude.{◌≡◌, IfOk};
ghost use Rattle.std.specs.String.{string_bytes};
ghost use Rattle.opa_rules.specs.Reviewing.Printed as meant;

use crate::reviewing::alike::differ_in_case;
use crate::reviewing::compared_words::compared_words;
use crate::reviewing::finding::{
    AlikeAttributes, AlikeLists, Finding, Level, RoundedCurrency, SettledGoal, UncertainEnding,
    UnreachedRow, UnusedAttribute,
};
use crate::reviewing::phrases::{list_phrase_of, phrase_of};
use opa_io::NoMemory;
use opa_model::Model;
use opa_tree::Rulebase;
use std::alloc::Global;

/// What the earlier row has.
fn reason(always: bool, differs: bool) -> &'static str
    ensures { result.now ≡ meant.reason always differs }
{
    if always {
        "is always true"
    } else if differs {
        "has the same condition and another value"
    } else {
        "has the same condition"
    }
}

fn row_words(alloc: Global, model: &Model, row: UnreachedRow) -> Result<String, NoMemory>
    ensures { IfOk result (λ t. string_bytes t ≡ meant.row_words model.now row) }
{
    let text = format!(in alloc;
        "in the rule for '{}' row {} is never reached: row {} {}",
        phrase_of(model, row.attr),
        row.row,
        row.earlier,
        reason(row.always, row.differs)
    )?;
    Ok(text)
}

fn unused_words(alloc: Global, model: &Model, unused: UnusedAttribute) -> Result<String, NoMemory>
    ensures { IfOk result (λ t. string_bytes t ≡ meant.unused_words model.now unused) }
{
    let text = format!(in alloc; "no goal looks at '{}'", phrase_of(model, unused.attr))?;
    Ok(text)
}

fn settled_words(alloc: Global, model: &Model, goal: SettledGoal) -> Result<String, NoMemory>
    ensures { IfOk result (λ t. string_bytes t ≡ meant.settled_words model.now goal) }
{
    let text = format!(in alloc; "no answer changes '{}'", phrase_of(model, goal.attr))?;
    Ok(text)
}

/// How two phrases differ.
fn how(in_case: bool) -> &'static str
    ensures { result.now ≡ meant.how in_case }
{
    if in_case {
        "differ only in capital letters"
    } else {
        "differ by one letter"
    }
}

/// That two phrases differ, and how.
fn pair_words(alloc: Global, first: &str, second: &str) -> Result<String, NoMemory>
    ensures { IfOk result (λ t. string_bytes t ≡ meant.pair_words first.now second.now) }
{
    let text = format!(in alloc;
        "'{}' and '{}' {}",
        first,
        second,
        how(differ_in_case(first, second))
    )?;
    Ok(text)
}

fn attributes_words(alloc: Global, model: &Model, pair: AlikeAttributes) -> Result<String, NoMemory>
    ensures { IfOk result (λ t. string_bytes t ≡ meant.attributes_words model.now pair) }
{
    pair_words(
        alloc,
        phrase_of(model, pair.first),
        phrase_of(model, pair.second),
    )
}

fn lists_words(alloc: Global, model: &Model, pair: AlikeLists) -> Result<String, NoMemory>
    ensures { IfOk result (λ t. string_bytes t ≡ meant.lists_words model.now pair) }
{
    pair_words(
        alloc,
        list_phrase_of(model, pair.first),
        list_phrase_of(model, pair.second),
    )
}

fn rounding_words(
    alloc: Global,
    model: &Model,
    rounded: RoundedCurrency,
) -> Result<String, NoMemory>
    ensures { IfOk result (λ t. string_bytes t ≡ meant.rounding_words model.now rounded) }
{
    let text = format!(in alloc;
        "'{}' is rounded to two decimals, and another currency is concluded from it",
        phrase_of(model, rounded.attr)
    )?;
    Ok(text)
}

fn ending_words(alloc: Global, model: &Model, ending: UncertainEnding) -> Result<String, NoMemory>
    ensures { IfOk result (λ t. string_bytes t ≡ meant.ending_words model.now ending) }
{
    let text = format!(in alloc;
        "in the rule for '{}' the value is uncertain where no row holds",
        phrase_of(model, ending.attr)
    )?;
    Ok(text)
}

/// The place of the file of a finding: the main file, where the place isn't known.
pub(crate) fn file_of(finding: Finding) -> u32
    ensures { result ≡ meant.file_of finding }
{
    match finding {
        Finding::Row(row) => row.file,
        Finding::Compared(compared) => compared.file,
        Finding::Unused(unused) => unused.file,
        Finding::Settled(goal) => goal.file,
        Finding::Attributes(_) | Finding::Lists(_) => 0,
        Finding::Rounding(rounded) => rounded.file,
        Finding::Ending(ending) => ending.file,
    }
}

pub(crate) fn line_of(finding: Finding) -> u32
    ensures { result ≡ meant.line_of finding }
{
    match finding {
        Finding::Row(row) => row.line,
        Finding::Compared(compared) => compared.line,
        Finding::Unused(unused) => unused.line,
        Finding::Settled(goal) => goal.line,
        Finding::Attributes(_) | Finding::Lists(_) => 0,
        Finding::Rounding(rounded) => rounded.line,
        Finding::Ending(ending) => ending.line,
    }
}

pub(crate) fn level_of(finding: Finding) -> Level
    ensures { result ≡ meant.level_of finding }
{
    match finding {
        Finding::Row(_) | Finding::Compared(_) | Finding::Unused(_) | Finding::Settled(_) =>
            Level::Warning,
        Finding::Attributes(_) | Finding::Lists(_) | Finding::Rounding(_) | Finding::Ending(_) =>
            Level::Note,
    }
}

pub(crate) fn level_text(level: Level) -> &'static str
    ensures { result.now ≡ meant.level_text level }
{
    match level {
        Level::Warning => "warning",
        Level::Note => "note",
    }
}

pub(crate) fn words_of(alloc: Global, base: &Rulebase, finding: Finding) -> Result<String, NoMemory>
    ensures { IfOk result (λ t. string_bytes t ≡ meant.words_of base.now finding) }
{
    match finding {
        Finding::Row(row) => row_words(alloc, &base.model, row),
        Finding::Compared(compared) => compared_words(alloc, base, compared),
        Finding::Unused(unused) => unused_words(alloc, &base.model, unused),
        Finding::Settled(goal) => settled_words(alloc, &base.model, goal),
        Finding::Attributes(pair) => attributes_words(alloc, &base.model, pair),
        Finding::Lists(pair) => lists_words(alloc, &base.model, pair),
        Finding::Rounding(rounded) => rounding_words(alloc, &base.model, rounded),
        Finding::Ending(ending) => ending_words(alloc, &base.model, ending),
    }
}
