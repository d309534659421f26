// What a finding about a comparison says.
ghost use Rattle.std.specs.Prelude.{◌≡◌, ◌++◌, pos, codes, IfOk};
ghost use Rattle.std.specs.String.{string_bytes};
ghost use Rattle.opa_rules.specs.declared.reviewing.finding.Operand.TheVariants as operand;
ghost use Rattle.opa_rules.specs.Reviewing.ComparedWords as meant;

use crate::reviewing::finding::{Compared, Comparison, Operand, Verdict};
use crate::reviewing::judging::{Bounds, bounds_of, decimals_of};
use crate::reviewing::phrases::phrase_of;
use opa_io::NoMemory;
use opa_model::{AttrId, Model};
use opa_tree::{OpKind, Rulebase};
use opa_value::Number;
use std::alloc::Global;

fn number_words(alloc: Global, count: i64) -> Result<String, NoMemory>
    ensures { IfOk result (λ t. string_bytes t ≡ meant.number_words count) }
{
    match Number::from_count(i128::from(count)) {
        Some(number) => {
            let text = number.text(alloc, false)?;
            let words = format!(in alloc; "{}", text.as_str())?;
            Ok(words)
        }
        None => Ok(String::new(alloc)),
    }
}

fn quoted(alloc: Global, model: &Model, attr: AttrId) -> Result<String, NoMemory>
    ensures { IfOk result (λ t. string_bytes t ≡ meant.quoted model.now attr) }
{
    let words = format!(in alloc; "'{}'", phrase_of(model, attr))?;
    Ok(words)
}

fn side_words(alloc: Global, model: &Model, side: Operand) -> Result<String, NoMemory>
    ensures { IfOk result (λ t. string_bytes t ≡ meant.side_words model.now side) }
{
    match side {
        Operand::Number(count) => number_words(alloc, count),
        Operand::Attr(attr) => quoted(alloc, model, attr),
    }
}

fn sign(operation: OpKind) -> &'static str
    ensures { result.now ≡ meant.sign operation }
{
    match operation {
        OpKind::Eq => "=",
        OpKind::Ne => "<>",
        OpKind::Lt => "<",
        OpKind::Le => "<=",
        OpKind::Gt => ">",
        OpKind::Ge => ">=",
        OpKind::Add
        | OpKind::Sub
        | OpKind::Mul
        | OpKind::Div
        | OpKind::Neg
        | OpKind::Round
        | OpKind::Min
        | OpKind::Max
        | OpKind::AddDays
        | OpKind::AddMonths
        | OpKind::AddYears
        | OpKind::DaysBetween
        | OpKind::YearsBetween
        | OpKind::YearOf
        | OpKind::MonthOf
        | OpKind::DayOf
        | OpKind::Concatenate => "",
    }
}

fn comparison_words(
    alloc: Global,
    model: &Model,
    comparison: Comparison,
) -> Result<String, NoMemory>
    ensures { IfOk result (λ t. string_bytes t ≡ meant.comparison_words model.now comparison) }
{
    let left = side_words(alloc, model, comparison.left)?;
    let right = side_words(alloc, model, comparison.right)?;
    let words = format!(in alloc;
        "{} {} {}",
        left.as_str(),
        sign(comparison.operation),
        right.as_str()
    )?;
    Ok(words)
}

/// Which of an attribute's bounds keeps it apart from what lies in others.
fn limit_words(alloc: Global, mine: Bounds, others: Bounds) -> Result<String, NoMemory>
    ensures { IfOk result (λ t. string_bytes t ≡ meant.limit_words mine others) }
{
    if mine.least == mine.most {
        let number = number_words(alloc, mine.least)?;
        let words = format!(in alloc; " is {}", number.as_str())?;
        Ok(words)
    } else if others.most <= mine.least {
        let number = number_words(alloc, mine.least)?;
        let words = format!(in alloc; " is at least {}", number.as_str())?;
        Ok(words)
    } else {
        let number = number_words(alloc, mine.most)?;
        let words = format!(in alloc; " is at most {}", number.as_str())?;
        Ok(words)
    }
}

fn bound_words(
    alloc: Global,
    model: &Model,
    attr: AttrId,
    mine: Bounds,
    others: Bounds,
) -> Result<String, NoMemory>
    ensures { IfOk result (λ t. string_bytes t ≡ meant.bound_words model.now attr mine others) }
{
    let name = quoted(alloc, model, attr)?;
    let limit = limit_words(alloc, mine, others)?;
    let words = format!(in alloc; "{}{}", name.as_str(), limit.as_str())?;
    Ok(words)
}

/// The bounds of two attributes.
fn both_words(
    alloc: Global,
    model: &Model,
    left: AttrId,
    right: AttrId,
    mine: Bounds,
    others: Bounds,
) -> Result<String, NoMemory>
    ensures { IfOk result (λ t. string_bytes t ≡ meant.between_words model.now (operand.Attr left) (operand.Attr right) mine others) }
{
    let first = bound_words(alloc, model, left, mine, others)?;
    let second = bound_words(alloc, model, right, others, mine)?;
    let words = format!(in alloc; ": {}, and {}", first.as_str(), second.as_str())?;
    Ok(words)
}

/// The bounds of one attribute.
fn one_words(
    alloc: Global,
    model: &Model,
    attr: AttrId,
    mine: Bounds,
    others: Bounds,
) -> Result<String, NoMemory>
    ensures { IfOk result (λ t. string_bytes t ≡ codes ": " ++ meant.bound_words model.now attr mine others) }
{
    let bound = bound_words(alloc, model, attr, mine, others)?;
    let words = format!(in alloc; ": {}", bound.as_str())?;
    Ok(words)
}

/// The bounds of the attributes among two sides.
fn between_words(
    alloc: Global,
    model: &Model,
    left: Operand,
    right: Operand,
    mine: Bounds,
    others: Bounds,
) -> Result<String, NoMemory>
    ensures { IfOk result (λ t. string_bytes t ≡ meant.between_words model.now left right mine others) }
{
    match (left, right) {
        (Operand::Attr(left), Operand::Attr(right)) => {
            both_words(alloc, model, left, right, mine, others)
        }
        (Operand::Attr(left), Operand::Number(_)) => one_words(alloc, model, left, mine, others),
        (Operand::Number(_), Operand::Attr(right)) => one_words(alloc, model, right, others, mine),
        (Operand::Number(_), Operand::Number(_)) => Ok(String::new(alloc)),
    }
}

fn bounds_reason(alloc: Global, base: &Rulebase, comparison: Comparison) -> Result<String, NoMemory>
    ensures { IfOk result (λ t. string_bytes t ≡ meant.bounds_reason base.now comparison) }
{
    let left = bounds_of(base, comparison.left);
    let right = bounds_of(base, comparison.right);
    match (left, right) {
        (Some(mine), Some(others)) => between_words(
            alloc,
            &base.model,
            comparison.left,
            comparison.right,
            mine,
            others,
        ),
        (Some(_), None) | (None, Some(_)) | (None, None) => Ok(String::new(alloc)),
    }
}

/// What an attribute with so many decimals is.
fn decimals_words(alloc: Global, decimals: Option<u8>) -> Result<String, NoMemory>
    ensures { IfOk result (λ t. string_bytes t ≡ meant.decimals_words decimals) }
{
    match decimals {
        None => Ok(String::new(alloc)),
        Some(0) => {
            let words = format!(in alloc; " is a whole number")?;
            Ok(words)
        }
        Some(1) => {
            let words = format!(in alloc; " has at most 1 decimal")?;
            Ok(words)
        }
        Some(count) => {
            let words = format!(in alloc; " has at most {count} decimals")?;
            Ok(words)
        }
    }
}

/// How many decimals an attribute can have.
fn attribute_decimals(alloc: Global, base: &Rulebase, attr: AttrId) -> Result<String, NoMemory>
    ensures { IfOk result (λ t. string_bytes t ≡ meant.decimals_reason base.now (operand.Attr attr) (operand.Number (pos 0))) }
{
    let name = quoted(alloc, &base.model, attr)?;
    let decimals = decimals_words(alloc, decimals_of(base, attr))?;
    let words = format!(in alloc; "{}{}", name.as_str(), decimals.as_str())?;
    Ok(words)
}

/// The decimals of the attribute among two sides.
fn decimals_reason(
    alloc: Global,
    base: &Rulebase,
    left: Operand,
    right: Operand,
) -> Result<String, NoMemory>
    ensures { IfOk result (λ t. string_bytes t ≡ meant.decimals_reason base.now left right) }
{
    match (left, right) {
        (Operand::Attr(attr), Operand::Attr(_) | Operand::Number(_))
        | (Operand::Number(_), Operand::Attr(attr)) => attribute_decimals(alloc, base, attr),
        (Operand::Number(_), Operand::Number(_)) => Ok(String::new(alloc)),
    }
}

fn verdict_words(
    alloc: Global,
    base: &Rulebase,
    comparison: Comparison,
    verdict: Verdict,
) -> Result<String, NoMemory>
    ensures { IfOk result (λ t. string_bytes t ≡ meant.verdict_words base.now comparison verdict) }
{
    match verdict {
        Verdict::NeverTrue => {
            let reason = bounds_reason(alloc, base, comparison)?;
            let words = format!(in alloc; " is never true{}", reason.as_str())?;
            Ok(words)
        }
        Verdict::NeverFalse => {
            let reason = bounds_reason(alloc, base, comparison)?;
            let words = format!(in alloc; " is never false{}", reason.as_str())?;
            Ok(words)
        }
        Verdict::NeverEqual => {
            let reason = decimals_reason(alloc, base, comparison.left, comparison.right)?;
            let words = format!(in alloc; " is with a number that can't be: {}", reason.as_str())?;
            Ok(words)
        }
    }
}

/// What a finding about a comparison says.
pub(crate) fn compared_words(
    alloc: Global,
    base: &Rulebase,
    found: Compared,
) -> Result<String, NoMemory>
    ensures { IfOk result (λ t. string_bytes t ≡ meant.compared_words base.now found) }
{
    let name = quoted(alloc, &base.model, found.attr)?;
    let comparison = comparison_words(alloc, &base.model, found.comparison)?;
    let verdict = verdict_words(alloc, base, found.comparison, found.verdict)?;
    let words = format!(in alloc;
        "in the rule for {} the comparison {}{}",
        name.as_str(),
        comparison.as_str(),
        verdict.as_str()
    )?;
    Ok(words)
}
