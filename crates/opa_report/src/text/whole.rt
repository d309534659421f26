// The text of a report.
ghost use Rattle.std.specs.Prelude.{◌≡◌, ◌++◌, ◌<◌, IfOk};
ghost use Rattle.std.specs.String.{string_bytes};
ghost use Rattle.opa_date.specs.declared.TheConstants.{DAYS};
ghost use Rattle.opa_case.specs.Shapes.{attribute_or};
ghost use Rattle.opa_model.specs.Models.{HasAttribute};
ghost use Rattle.opa_report.specs.Text.Texts as meant;

use crate::text::told::{first_line, member_line, members_line, origin_text, point_line};
use crate::{Report, ReportLine};
use opa_cells::InstanceId;
use opa_io::{NoMemory, Txt};
use opa_model::AttrId;
use opa_tree::Rulebase;
use std::alloc::Global;

/// The text of a line with its number.
fn line_text(
    alloc: Global,
    base: &Rulebase,
    number: u64,
    line: &ReportLine,
) -> Result<Txt, NoMemory>
    requires { meant.IsPrintable base.now.model line.now }
    ensures { IfOk result (λ t. t ≡ meant.line_text base.now number line.now) }
{
    match line {
        ReportLine::Point {
            attr,
            inst,
            first,
            last,
            value,
        } => {
            let origin = origin_text(alloc, base, *attr, value)?;
            let declared = base.model.attribute(*attr);
            point_line(
                alloc,
                number,
                &declared.phrase,
                declared.kind,
                inst,
                *first,
                *last,
                value,
                &origin,
            )
        }
        ReportLine::Members { rel, inst, names } => {
            let declared = base.model.relation(*rel);
            members_line(alloc, number, &declared.phrase, inst, names)
        }
        ReportLine::Member {
            rel,
            container,
            inst,
        } => {
            let declared = base.model.relation(*rel);
            member_line(alloc, number, &declared.phrase, container, inst)
        }
    }
}

/// The text of a report.
pub fn report_text(alloc: Global, base: &Rulebase, report: &Report) -> Result<Txt, NoMemory>
    requires { meant.ArePrintable base.now.model report.now }
    ensures { IfOk result (λ t. t ≡ meant.report_text base.now report.now) }
{
    let lines = report.lines.as_slice();
    let first = opening(alloc, base, report.attr, &report.inst, report.day)?;
    let mut text = String::from_str(alloc, first.as_str())?;
    for place in 0..lines.len() {
        let line = line_text(alloc, base, place as u64 + 1, &lines[place])?;
        text.push_str(line.as_str())?;
    }
    text.push_str("end\n")?;
    Ok(Txt::from_string(text))
}

/// The first line.
fn opening(
    alloc: Global,
    base: &Rulebase,
    attr: AttrId,
    inst: &InstanceId,
    day: u32,
) -> Result<Txt, NoMemory>
    requires attr { HasAttribute base.now.model attr }
    requires day { day < DAYS }
    ensures { IfOk result (λ t. t ≡ meant.first_line (attribute_or base.now.model attr).phrase inst.now day) }
{
    let declared = base.model.attribute(attr);
    first_line(alloc, &declared.phrase, inst, day)
}
