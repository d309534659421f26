// The first line of a report that isn't held up.
ghost use Rattle.std.specs.Prelude.{◌≡◌, ◌↔◌, ◌<◌, ◌≤◌, ◌∷◌, [], Some, IsTrue, IfOk, OnOk, MatchOption};
ghost use Rattle.opa_date.specs.declared.TheConstants.{DAYS};
ghost use Rattle.opa_case.specs.Shapes.{shape_of};
ghost use Rattle.opa_line.specs.Lines.{StandsFor};
ghost use Rattle.opa_mean.specs.Given.{base_of};
ghost use Rattle.opa_mean.specs.Mean.{is_money as of_money};
ghost use Rattle.opa_report.specs.Promises.{HaveDays};
ghost use Rattle.opa_report.specs.declared.lines.ReportLine.TheVariants as line;
ghost use Rattle.opa_verify.specs.Listed.Steady.{IsConcludedOn};
ghost use Rattle.opa_verify.specs.Listed.Ways as way;
ghost use Rattle.opa_tree.specs.Rules.{rule_of};
ghost use Rattle.opa_verify.specs.Support.Faults.{AreKept, IsFirstFault, concluded_shade};
ghost use Rattle.opa_verify.specs.Support.Ledgers.{told_listing};
ghost use Rattle.opa_verify.specs.Support.Proofs.{AreHeldUp, IsHeldUp};

use crate::listed::{Shade, concluded_line, is_rooted, is_steady};
use crate::support::ledger::{Told, told_by};
use crate::support::page::Page;
use opa_cells::{Cells, InstanceId};
use opa_io::{List, NoMemory, front};
use opa_line::Line;
use opa_mean::is_money;
use opa_model::AttrId;
use opa_report::ReportLine;
use opa_tree::{Rule, Rulebase};
use opa_value::Value;
use std::alloc::Global;

/// Lines of what rules conclude: each is made once, and kept.
type Kept = Cells<Line<Shade>>;

/// The place of the first line that isn't held up. None exactly where all are.
pub fn first_fault(
    alloc: Global,
    base: &Rulebase,
    lines: &[ReportLine],
) -> Result<Option<usize>, NoMemory>
    requires days { HaveDays lines.now }
    ensures { IfOk result (λ o. MatchOption o (AreHeldUp (base_of base.now) lines.now)
        (IsFirstFault (base_of base.now) lines.now)) }
{
    let told = told_by(alloc, lines)?;
    let mut kept = Cells::new(alloc);
    let mut place = 0;
    let mut rest = lines;
    while let Some((line, later)) = front(rest) {
        if !is_held_up(alloc, base, &told, &mut kept, line)? {
            return Ok(Some(place));
        }
        place += 1;
        rest = later;
    }
    Ok(None)
}

fn is_held_up(
    alloc: Global,
    base: &Rulebase,
    told: &Told,
    kept: &mut Kept,
    line: &ReportLine,
) -> Result<bool, NoMemory>
    requires days { HaveDays (line.now ∷ []) }
    requires kept { AreKept (base_of base.now) (told_listing told.now) kept.old }
    ensures kept { OnOk result (AreKept (base_of base.now) (told_listing told.now) kept.new) }
    ensures held { IfOk result (λ b. IsTrue b ↔ IsHeldUp (base_of base.now) (told_listing told.now) line.now) }
{
    match line {
        ReportLine::Point {
            attr,
            inst,
            first,
            last,
            value,
        } => is_point_held_up(alloc, base, told, kept, *attr, inst, *first, *last, value),
        ReportLine::Members {
            rel: _,
            inst,
            names: _,
        } => Ok(is_told_rooted(base, told, inst)),
        ReportLine::Member {
            rel: _,
            container: _,
            inst: _,
        } => Ok(true),
    }
}

fn is_told_rooted(base: &Rulebase, told: &Told, inst: &InstanceId) -> bool
    ensures { result ≡ way.is_rooted (told_listing told.now).container inst.now }
{
    let model = &base.model;
    is_rooted(&Page { model, told }, inst)
}

fn is_point_held_up(
    alloc: Global,
    base: &Rulebase,
    told: &Told,
    kept: &mut Kept,
    attr: AttrId,
    inst: &InstanceId,
    first: u32,
    last: u32,
    value: &Value,
) -> Result<bool, NoMemory>
    requires order { first ≤ last }
    requires within { last < DAYS }
    requires kept { AreKept (base_of base.now) (told_listing told.now) kept.old }
    ensures kept { OnOk result (AreKept (base_of base.now) (told_listing told.now) kept.new) }
    ensures held { IfOk result (λ b. IsTrue b ↔ IsHeldUp (base_of base.now) (told_listing told.now) (line.Point attr inst.now first last value.now)) }
{
    if !is_told_rooted(base, told, inst) {
        return Ok(false);
    }
    match base.rules.of(attr) {
        None => Ok(true),
        Some(rule) => is_concluded(
            alloc, base, told, kept, attr, rule, inst, first, last, value,
        ),
    }
}

/// Whether a rule concludes a value from one day to another.
fn is_concluded(
    alloc: Global,
    base: &Rulebase,
    told: &Told,
    kept: &mut Kept,
    attr: AttrId,
    rule: &Rule,
    inst: &InstanceId,
    first: u32,
    last: u32,
    value: &Value,
) -> Result<bool, NoMemory>
    requires order { first ≤ last }
    requires within { last < DAYS }
    requires rule { rule_of base.now.rules attr ≡ Some rule.now }
    requires kept { AreKept (base_of base.now) (told_listing told.now) kept.old }
    ensures kept { OnOk result (AreKept (base_of base.now) (told_listing told.now) kept.new) }
    ensures held { IfOk result (λ b. IsTrue b ↔ IsConcludedOn (shape_of base.now.model) (told_listing told.now) (of_money ((shape_of base.now.model).attribute attr).kind) rule.now.expr (inst.now ∷ []) first last value.now) }
{
    keep_line(alloc, base, told, kept, attr, rule, inst)?;
    match kept.get(attr.0, inst) {
        None => Err(NoMemory),
        Some(line) => {
            let there = Shade::there(value.copy(alloc)?);
            Ok(is_steady(line, first, last, &there))
        }
    }
}

/// Makes the line of an attribute and an instance, where it isn't kept yet.
fn keep_line(
    alloc: Global,
    base: &Rulebase,
    told: &Told,
    kept: &mut Kept,
    attr: AttrId,
    rule: &Rule,
    inst: &InstanceId,
) -> Result<(), NoMemory>
    requires rule { rule_of base.now.rules attr ≡ Some rule.now }
    requires kept { AreKept (base_of base.now) (told_listing told.now) kept.old }
    ensures { OnOk result (AreKept (base_of base.now) (told_listing told.now) kept.new) }
{
    if kept.get(attr.0, inst).is_none() {
        let line = line_of(alloc, base, told, attr, rule, inst)?;
        let key = inst.copy(alloc)?;
        kept.insert(attr.0, key, line)?;
    }
    Ok(())
}

/// What a rule concludes over what is told.
fn line_of(
    alloc: Global,
    base: &Rulebase,
    told: &Told,
    attr: AttrId,
    rule: &Rule,
    inst: &InstanceId,
) -> Result<Line<Shade>, NoMemory>
    ensures { IfOk result (StandsFor DAYS (concluded_shade (base_of base.now) (told_listing told.now) rule.now attr inst.now)) }
{
    let model = &base.model;
    let page = Page { model, told };
    let mut enclosing = List::new(alloc);
    enclosing.push(inst.copy(alloc)?)?;
    let line = concluded_line(
        alloc,
        &page,
        is_money(model, attr),
        &rule.expr,
        enclosing.as_slice(),
    )?;
    Ok(line)
}
