// What is said of a text that was read.
ghost use Rattle.std.specs.Prelude.{◌≡◌, ◌+◌, None, Some, IfOk};
ghost use Rattle.std.specs.Option.{option_copied};
ghost use Rattle.opa_report.specs.Promises.{HaveDays};
ghost use Rattle.opa_verify.specs.Spelling.Reading.{IsTextOf};
ghost use Rattle.opa_verify.specs.Verdict.Judging.{IsReadAs, IsTextOfReport};
ghost use Rattle.opa_verify.specs.Verdict.Naming.{asked_point};
ghost use Rattle.opa_verify.specs.Verdict.Telling.{Tells};
ghost use Rattle.opa_verify.specs.Support.Told.{listing_of, value_by};

use crate::spelling::Spelled;
use crate::support::first_fault;
use crate::verdict::naming::{Naming, asked_named, lines_named};
use crate::verdict::telling::{Told, refused, supported};
use crate::verdict::verdict::Verdict;
use opa_cells::InstanceId;
use opa_io::{NoMemory, front};
use opa_model::AttrId;
use opa_report::{Report, ReportLine};
use opa_tree::Rulebase;
use opa_value::Value;
use std::alloc::Global;

/// What is said of a text that is spelled so.
pub(crate) fn judge(
    alloc: Global,
    base: &Rulebase,
    text: &[u8],
    spelled: &Spelled,
) -> Result<Told, NoMemory>
    requires { IsTextOf text.now spelled.now }
    ensures { IfOk result (λ t. Tells base.now text.now t.verdict t.text) }
{
    match asked_named(alloc, base, &spelled.asked)? {
        None => unnamed(alloc, base, text, spelled),
        Some((attr, inst)) => judge_lines(alloc, base, text, spelled, attr, inst),
    }
}

/// The point of the first line is none.
fn unnamed(alloc: Global, base: &Rulebase, text: &[u8], spelled: &Spelled) -> Result<Told, NoMemory>
    requires text { IsTextOf text.now spelled.now }
    requires none { asked_point base.now spelled.now.asked ≡ None }
    ensures { IfOk result (λ t. Tells base.now text.now t.verdict t.text) }
{
    let _base = base;
    let _text = text;
    let _spelled = spelled;
    let told = refused(alloc, Verdict::Name(1))?;
    Ok(told)
}

fn judge_lines(
    alloc: Global,
    base: &Rulebase,
    text: &[u8],
    spelled: &Spelled,
    attr: AttrId,
    inst: InstanceId,
) -> Result<Told, NoMemory>
    requires text { IsTextOf text.now spelled.now }
    requires asked { asked_point base.now spelled.now.asked ≡ Some (attr, inst) }
    ensures { IfOk result (λ t. Tells base.now text.now t.verdict t.text) }
{
    match lines_named(alloc, base, spelled.printed.as_slice())? {
        Naming::Fault(place) => {
            let line = number_of(place)?;
            let told = refused(alloc, Verdict::Name(line))?;
            Ok(told)
        }
        Naming::All(lines) => {
            let day = spelled.day;
            derive(
                alloc,
                base,
                text,
                &Report {
                    attr,
                    inst,
                    day,
                    lines,
                },
            )
        }
    }
}

/// What is said of the text of a report.
fn derive(alloc: Global, base: &Rulebase, text: &[u8], report: &Report) -> Result<Told, NoMemory>
    requires text { IsTextOfReport base.now text.now report.now }
    requires read { IsReadAs base.now text.now report.now }
    requires days { HaveDays report.now.lines }
    ensures { IfOk result (λ t. Tells base.now text.now t.verdict t.text) }
{
    let _text = text;
    let lines = report.lines.as_slice();
    let Some(value) = listed(lines, report.attr, &report.inst, report.day) else {
        let told = refused(alloc, Verdict::NotDerived(1))?;
        return Ok(told);
    };
    match first_fault(alloc, base, lines)? {
        None => {
            let told = supported(alloc, base, report, value)?;
            Ok(told)
        }
        Some(place) => {
            let line = number_of(place)?;
            let told = refused(alloc, Verdict::NotDerived(line))?;
            Ok(told)
        }
    }
}

/// The value that lines list for a point: that of the first one that tells it.
fn listed<'a>(
    lines: &'a [ReportLine],
    attr: AttrId,
    inst: &InstanceId,
    day: u32,
) -> Option<&'a Value>
    ensures { option_copied result ≡ (listing_of lines.entry.now).value attr inst.now day }
{
    let mut rest = lines;
    while let Some((line, later)) = front(rest) {
        if let Some(value) = told_by(line, attr, inst, day) {
            return Some(value);
        }
        rest = later;
    }
    None
}

fn told_by<'a>(line: &'a ReportLine, attr: AttrId, inst: &InstanceId, day: u32) -> Option<&'a Value>
    ensures { option_copied result ≡ value_by attr inst.now day line.entry.now }
{
    match line {
        ReportLine::Point {
            attr: own,
            inst: place,
            first,
            last,
            value,
        } => {
            if attr.0 == own.0 && inst.equals(place) && *first <= day && day <= *last {
                Some(value)
            } else {
                None
            }
        }
        ReportLine::Members {
            rel: _,
            inst: _,
            names: _,
        } => None,
        ReportLine::Member {
            rel: _,
            container: _,
            inst: _,
        } => None,
    }
}

/// The number of the text's line that a line of a report is: the first line is the head.
fn number_of(place: usize) -> Result<u32, NoMemory>
    ensures { IfOk result (λ k. k ≡ place + 2) }
{
    if place > 4_294_967_293 {
        return Err(NoMemory);
    }
    Ok(place as u32 + 2)
}
