// What the bounds and the decimals of its sides say of a comparison.
ghost use Rattle.std.specs.Prelude.{◌≡◌, ◌++◌, ◌<◌, ◌-◌, ◌^◌, flat_map, OnOk};
ghost use Rattle.std.specs.Option.{option_copied};
ghost use Rattle.opa_case.specs.Steps as step;
ghost use Rattle.opa_mean.specs.Mean.{is_money as of_money};
ghost use Rattle.opa_model.specs.Lookups.{attribute_at};
ghost use Rattle.opa_rules.specs.declared.reviewing.finding.Operand.TheVariants as operand;
ghost use Rattle.opa_rules.specs.Reviewing.Compared as meant;

use crate::reviewing::comparisons::comparisons;
use crate::reviewing::finding::{Compared, Comparison, Finding, Operand, Verdict};
use opa_io::{List, NoMemory};
use opa_model::{AttrId, Attribute, Kind, Model};
use opa_tree::{OpKind, Rule, Rulebase};
use std::alloc::Global;

/// The least and the greatest that a side of a comparison can be.
#[derive(Clone, Copy, Debug, PartialEq, Eq)]
pub(crate) struct Bounds {
    pub(crate) least: i64,
    pub(crate) most: i64,
}

fn is_number(kind: Kind) -> bool
    ensures { result ≡ step.is_number kind }
{
    match kind {
        Kind::Number | Kind::Currency => true,
        Kind::Bool | Kind::Words | Kind::Date => false,
    }
}

fn is_money(kind: Kind) -> bool
    ensures { result ≡ of_money kind }
{
    match kind {
        Kind::Currency => true,
        Kind::Bool | Kind::Number | Kind::Words | Kind::Date => false,
    }
}

/// Whether an attribute has a rule.
fn is_concluded(base: &Rulebase, attr: AttrId) -> bool
    ensures { result ≡ meant.is_concluded base.now attr }
{
    base.rules.of(attr).is_some()
}

/// What is declared of an attribute.
#[tactic(auto, using(std::proofs::lemmas::Option::slice_get_past))]
pub(crate) fn declared(model: &Model, attr: AttrId) -> Option<&Attribute>
    ensures { option_copied result ≡ attribute_at model.now attr }
{
    if attr.0 < model.attribute_count() {
        Some(model.attribute(attr))
    } else {
        None
    }
}

fn declared_bounds(attribute: &Attribute) -> Option<Bounds>
    ensures { result ≡ meant.declared_bounds attribute.now }
{
    if is_number(attribute.kind) {
        Some(Bounds {
            least: attribute.least,
            most: attribute.most,
        })
    } else {
        None
    }
}

/// The bounds of an attribute that is answered.
fn attribute_bounds(base: &Rulebase, attr: AttrId) -> Option<Bounds>
    ensures { result ≡ meant.bounds_of base.now (operand.Attr attr) }
{
    if is_concluded(base, attr) {
        None
    } else {
        match declared(&base.model, attr) {
            Some(attribute) => declared_bounds(attribute),
            None => None,
        }
    }
}

pub(crate) fn bounds_of(base: &Rulebase, side: Operand) -> Option<Bounds>
    ensures { result ≡ meant.bounds_of base.now side }
{
    match side {
        Operand::Number(count) => Some(Bounds {
            least: count,
            most: count,
        }),
        Operand::Attr(attr) => attribute_bounds(base, attr),
    }
}

/// Whether a comparison of what lies in the first bounds with what lies in the second is never true.
fn never_true(operation: OpKind, left: Bounds, right: Bounds) -> bool
    ensures { result ≡ meant.never_true operation left right }
{
    match operation {
        OpKind::Lt => right.most <= left.least,
        OpKind::Gt => left.most <= right.least,
        OpKind::Le => right.most < left.least,
        OpKind::Ge => left.most < right.least,
        OpKind::Eq => right.most < left.least || left.most < right.least,
        OpKind::Ne => right.most <= left.least && left.most <= right.least,
        OpKind::Add
        | OpKind::Sub
        | OpKind::Mul
        | OpKind::Div
        | OpKind::Neg
        | OpKind::Round
        | OpKind::Min
        | OpKind::Max
        | OpKind::AddDays
        | OpKind::AddMonths
        | OpKind::AddYears
        | OpKind::DaysBetween
        | OpKind::YearsBetween
        | OpKind::YearOf
        | OpKind::MonthOf
        | OpKind::DayOf
        | OpKind::Concatenate => false,
    }
}

/// What is true exactly if the operation is false.
fn opposite(operation: OpKind) -> OpKind
    ensures { result ≡ meant.opposite operation }
{
    match operation {
        OpKind::Lt => OpKind::Ge,
        OpKind::Gt => OpKind::Le,
        OpKind::Le => OpKind::Gt,
        OpKind::Ge => OpKind::Lt,
        OpKind::Eq => OpKind::Ne,
        OpKind::Ne => OpKind::Eq,
        OpKind::Add
        | OpKind::Sub
        | OpKind::Mul
        | OpKind::Div
        | OpKind::Neg
        | OpKind::Round
        | OpKind::Min
        | OpKind::Max
        | OpKind::AddDays
        | OpKind::AddMonths
        | OpKind::AddYears
        | OpKind::DaysBetween
        | OpKind::YearsBetween
        | OpKind::YearOf
        | OpKind::MonthOf
        | OpKind::DayOf
        | OpKind::Concatenate => operation,
    }
}

fn never_between(operation: OpKind, left: Option<Bounds>, right: Option<Bounds>) -> bool
    ensures { result ≡ meant.never_between operation left right }
{
    match (left, right) {
        (Some(left), Some(right)) => never_true(operation, left, right),
        (Some(_), None) | (None, Some(_)) | (None, None) => false,
    }
}

fn decimals_by(concluded: bool, attribute: &Attribute) -> Option<u8>
    ensures { result ≡ meant.decimals_by concluded attribute.now }
{
    if concluded {
        if is_money(attribute.kind) {
            Some(2)
        } else {
            None
        }
    } else if is_number(attribute.kind) {
        Some(attribute.decimals)
    } else {
        None
    }
}

/// How many decimals an attribute can have, if that is known.
pub(crate) fn decimals_of(base: &Rulebase, attr: AttrId) -> Option<u8>
    ensures { result ≡ meant.decimals_of base.now attr }
{
    match declared(&base.model, attr) {
        Some(attribute) => decimals_by(is_concluded(base, attr), attribute),
        None => None,
    }
}

/// The count of the last of so many decimals.
fn unit(decimals: u8) -> u64
    ensures value { result ≡ 10 ^ (4 - decimals) }
    ensures positive { 0 < result }
{
    match decimals {
        0 => 10_000,
        1 => 1_000,
        2 => 100,
        3 => 10,
        _ => 1,
    }
}

/// Whether a count of 1/10000 has at most so many decimals.
fn has_decimals(decimals: u8, count: i64) -> bool
    ensures { result ≡ step.has_decimals decimals count }
{
    count.unsigned_abs() % unit(decimals) == 0
}

/// Whether a number has more decimals than an attribute can have.
fn cant_be(base: &Rulebase, attr: AttrId, count: i64) -> bool
    ensures { result ≡ meant.cant_be base.now attr count }
{
    match decimals_of(base, attr) {
        Some(decimals) => !has_decimals(decimals, count),
        None => false,
    }
}

fn never_equal(base: &Rulebase, left: Operand, right: Operand) -> bool
    ensures { result ≡ meant.never_equal base.now left right }
{
    match (left, right) {
        (Operand::Attr(attr), Operand::Number(count)) => cant_be(base, attr, count),
        (Operand::Number(count), Operand::Attr(attr)) => cant_be(base, attr, count),
        (Operand::Attr(_), Operand::Attr(_)) | (Operand::Number(_), Operand::Number(_)) => false,
    }
}

/// What holds of a comparison in every case, if something does.
fn verdict_of(base: &Rulebase, comparison: Comparison) -> Option<Verdict>
    ensures { result ≡ meant.verdict_of base.now comparison }
{
    let left = bounds_of(base, comparison.left);
    let right = bounds_of(base, comparison.right);
    if never_between(comparison.operation, left, right) {
        Some(Verdict::NeverTrue)
    } else if never_between(opposite(comparison.operation), left, right) {
        Some(Verdict::NeverFalse)
    } else if never_equal(base, comparison.left, comparison.right) {
        Some(Verdict::NeverEqual)
    } else {
        None
    }
}

/// Adds what is found of a comparison in a rule.
fn push_comparison(
    findings: &mut List<Finding>,
    base: &Rulebase,
    rule: &Rule,
    comparison: Comparison,
) -> Result<(), NoMemory>
    ensures { OnOk result (findings.new ≡ findings.old ++ meant.of_comparison base.now rule.now comparison) }
{
    match verdict_of(base, comparison) {
        None => Ok(()),
        Some(verdict) => findings.push(Finding::Compared(Compared {
            attr: rule.attr,
            file: rule.file,
            line: rule.line,
            comparison,
            verdict,
        })),
    }
}

/// Adds what is found of comparisons in a rule.
fn push_comparisons(
    findings: &mut List<Finding>,
    base: &Rulebase,
    rule: &Rule,
    comparisons: &[Comparison],
) -> Result<(), NoMemory>
    ensures { OnOk result (findings.new ≡ findings.old ++ flat_map (meant.of_comparison base.now rule.now) comparisons.now) }
{
    for comparison in comparisons {
        push_comparison(findings, base, rule, *comparison)?;
    }
    Ok(())
}

/// Adds what is found of the comparisons of a rule.
pub(crate) fn push_compared(
    alloc: Global,
    findings: &mut List<Finding>,
    base: &Rulebase,
    rule: &Rule,
) -> Result<(), NoMemory>
    ensures { OnOk result (findings.new ≡ findings.old ++ meant.compared_in base.now rule.now) }
{
    let all = comparisons(alloc, &rule.expr)?;
    push_comparisons(findings, base, rule, all.as_slice())
}
