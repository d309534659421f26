// What is printed of a verdict.
ghost use Rattle.std.specs.Prelude.{◌≡◌, ◌<◌, IfOk};
ghost use Rattle.opa_verify.specs.Verdict.Telling.{refused_report, refused_text as refusal, says_supported, supported_line as line, supported_text as meant};
ghost use Rattle.opa_date.specs.declared.TheConstants.{DAYS};
ghost use Rattle.opa_verify.specs.declared.verdict.verdict.Verdict.TheVariants as verdicts;
ghost use Rattle.opa_report.specs.Text.Texts.{ArePrintable};
ghost use Rattle.opa_text.specs.Texts.{IsOfCalendar};

use crate::verdict::shown::kind_of;
use crate::verdict::verdict::Verdict;
use opa_cells::InstanceId;
use opa_io::{NoMemory, Txt};
use opa_model::Kind;
use opa_report::Report;
use opa_text::{date_text, point_text, value_text};
use opa_tree::Rulebase;
use opa_value::Value;
use std::alloc::Global;

/// A verdict, and the line that is printed of it.
#[derive(Drop)]
pub struct Told {
    pub verdict: Verdict,
    pub text: Txt,
}

/// `refused: report N LINE`, where the verdict isn't Yes.
pub(crate) fn refused(alloc: Global, verdict: Verdict) -> Result<Told, NoMemory>
    ensures verdict { IfOk result (λ t. t.verdict ≡ verdict) }
    ensures text { IfOk result (λ t. t.text ≡ refusal verdict) }
{
    let text = refused_text(alloc, verdict)?;
    Ok(Told { verdict, text })
}

fn refused_text(alloc: Global, verdict: Verdict) -> Result<Txt, NoMemory>
    ensures { IfOk result (λ t. t ≡ refusal verdict) }
{
    match verdict {
        Verdict::Yes => Txt::from_str(alloc, ""),
        Verdict::Syntax(line) => numbered(alloc, 1, line),
        Verdict::Name(line) => numbered(alloc, 2, line),
        Verdict::NotDerived(line) => numbered(alloc, 3, line),
    }
}

fn numbered(alloc: Global, number: u8, line: u32) -> Result<Txt, NoMemory>
    ensures { IfOk result (λ t. t ≡ refused_report number line) }
{
    let text = format!(in alloc; "refused: report {number} {line}\n")?;
    Ok(Txt::from_string(text))
}

/// `supported: POINT at DATE is VALUE`
pub(crate) fn supported(
    alloc: Global,
    base: &Rulebase,
    report: &Report,
    value: &Value,
) -> Result<Told, NoMemory>
    requires printable { ArePrintable base.now.model report.now }
    requires day { IsOfCalendar value.now }
    ensures verdict { IfOk result (λ t. t.verdict ≡ verdicts.Yes) }
    ensures text { IfOk result (λ t. t.text ≡ meant base.now report.now value.now) }
{
    let text = supported_text(alloc, base, report, value)?;
    Ok(Told {
        verdict: Verdict::Yes,
        text,
    })
}

fn supported_text(
    alloc: Global,
    base: &Rulebase,
    report: &Report,
    value: &Value,
) -> Result<Txt, NoMemory>
    requires printable { ArePrintable base.now.model report.now }
    requires day { IsOfCalendar value.now }
    ensures { IfOk result (λ t. t ≡ meant base.now report.now value.now) }
{
    let declared = base.model.attribute(report.attr);
    let kind = kind_of(&base.model, report.attr);
    supported_line(
        alloc,
        &declared.phrase,
        kind,
        &report.inst,
        report.day,
        value,
    )
}

fn supported_line(
    alloc: Global,
    phrase: &Txt,
    kind: Kind,
    inst: &InstanceId,
    day: u32,
    value: &Value,
) -> Result<Txt, NoMemory>
    requires day { day < DAYS }
    requires value { IsOfCalendar value.now }
    ensures { IfOk result (λ t. t ≡ line phrase.now kind inst.now day value.now) }
{
    let point = point_text(alloc, phrase, inst)?;
    let date = date_text(alloc, day)?;
    let said = value_text(alloc, kind, value)?;
    joined(alloc, &point, &date, &said)
}

fn joined(alloc: Global, point: &Txt, date: &Txt, said: &Txt) -> Result<Txt, NoMemory>
    ensures { IfOk result (λ t. t ≡ says_supported point.now date.now said.now) }
{
    let text = format!(in alloc;
        "supported: {} at {} is {}\n",
        point.as_str(),
        date.as_str(),
        said.as_str()
    )?;
    Ok(Txt::from_string(text))
}
