// What is told of a report.
ghost use Rattle.std.specs.Prelude.{◌≡◌, ◌<◌, IfOk};
ghost use Rattle.opa_date.specs.declared.TheConstants.{DAYS};
ghost use Rattle.opa_model.specs.Models.{HasAttribute};
ghost use Rattle.opa_report.specs.Promises.{IsAbout, IsExact, IsDeclaredBy, HasDays, ListsEntries};
ghost use Rattle.opa_report.specs.Text.Texts.{ArePrintable, report_text as text_of};
ghost use Rattle.opa_reply.specs.Reporting.Reports.{IsReportTold};

use crate::reporting::shown::refused_point;
use opa_case::InstanceId;
use opa_io::NoMemory;
use opa_mean::{Held, values_have_kinds};
use opa_model::AttrId;
use opa_report::{Report, report, report_text};
use opa_tree::Rulebase;
use std::alloc::Global;

/// The text of the report of an attribute for an instance at a day, or `refused: point` where the instance doesn't have it.
pub fn report_told<H: Held>(
    alloc: Global,
    held: &H,
    attr: AttrId,
    inst: &InstanceId,
    day: u32,
) -> Result<Vec<u8>, NoMemory>
    requires declared { HasAttribute (H.rules held.now).model attr }
    requires day { day < DAYS }
    ensures { IfOk result (λ t. IsReportTold (H.rules held.now) (H.held held.now) attr inst.now day t.items) }
{
    let found = report(alloc, held, attr, inst, day)?;
    match &found {
        None => {
            let text = refused_point(alloc)?;
            Ok(text)
        }
        Some(report) => {
            is_printable(held, attr, inst, day, report);
            let text = report_bytes(alloc, held.base(), report)?;
            Ok(text)
        }
    }
}

/// What a report says is declared, and its days are of the calendar.
fn is_printable<H: Held>(held: &H, attr: AttrId, inst: &InstanceId, day: u32, report: &Report)
    requires attr { HasAttribute (H.rules held.now).model attr }
    requires day { day < DAYS }
    requires about { IsAbout attr inst.now day report.now }
    requires entries { ListsEntries (H.rules held.now) (H.held held.now) report.now }
    requires days { HasDays report.now }
    requires declared { IsDeclaredBy (H.rules held.now) report.now }
    ensures { ArePrintable (H.rules held.now).model report.now }
{
    values_have_kinds();
    // The case fits the rulebase.
    let _case = held.case();
}

fn report_bytes(alloc: Global, base: &Rulebase, report: &Report) -> Result<Vec<u8>, NoMemory>
    requires { ArePrintable base.now.model report.now }
    ensures { IfOk result (λ t. t.items ≡ text_of base.now report.now) }
{
    let text = report_text(alloc, base, report)?;
    Ok(text.as_str().as_bytes().to_vec(alloc)?)
}
