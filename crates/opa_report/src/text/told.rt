// The lines of a report's text.
ghost use Rattle.std.specs.Prelude.{◌≡◌, ◌<◌, [], None, slice_index_or, IfOk};
ghost use Rattle.opa_date.specs.declared.TheConstants.{DAYS};
ghost use Rattle.opa_text.specs.Texts.{IsOfCalendar};
ghost use Rattle.opa_tree.specs.Rules.{rule_of};
ghost use Rattle.opa_report.specs.Text.Texts as meant;

use opa_cells::InstanceId;
use opa_io::{List, NoMemory, Txt};
use opa_model::{AttrId, Kind};
use opa_text::{date_text, names_text, point_text, value_text};
use opa_tree::Rulebase;
use opa_value::Value;
use opa_words::{printed_name, quoted};
use std::alloc::Global;

/// Where a value of an attribute comes from: its rule, or an answer.
pub fn origin_text(
    alloc: Global,
    base: &Rulebase,
    attr: AttrId,
    value: &Value,
) -> Result<Txt, NoMemory>
    ensures { IfOk result (λ t. t ≡ meant.origin_text base.now.files (rule_of base.now.rules attr) value.now) }
{
    match base.rules.of(attr) {
        None => unruled(alloc, value),
        Some(rule) => {
            let file = printed_name(alloc, file_name(base.files.as_slice(), rule.file))?;
            place_text(alloc, &file, rule.line)
        }
    }
}

/// The place of a rule.
fn place_text(alloc: Global, file: &Txt, line: u32) -> Result<Txt, NoMemory>
    ensures { IfOk result (λ t. t ≡ meant.place_text file.now line) }
{
    let text = format!(in alloc; "rule {}:{}", file.as_str(), line)?;
    Ok(Txt::from_string(text))
}

fn unruled(alloc: Global, value: &Value) -> Result<Txt, NoMemory>
    ensures { IfOk result (λ t. t ≡ meant.origin_text [] None value.now) }
{
    match value {
        Value::Unknown => Txt::from_str(alloc, "unanswered"),
        _ => Txt::from_str(alloc, "answer"),
    }
}

fn file_name(files: &[Txt], file: u32) -> &str
    ensures { result.now ≡ slice_index_or files.now file [] }
{
    match files.get(file as usize) {
        Some(name) => name.as_str(),
        None => "",
    }
}

pub(crate) fn point_line(
    alloc: Global,
    number: u64,
    phrase: &Txt,
    kind: Kind,
    inst: &InstanceId,
    first: u32,
    last: u32,
    value: &Value,
    origin: &Txt,
) -> Result<Txt, NoMemory>
    requires first { first < DAYS }
    requires last { last < DAYS }
    requires value { IsOfCalendar value.now }
    ensures { IfOk result (λ t. t ≡ meant.point_line number phrase.now kind inst.now first last value.now origin.now) }
{
    let point = point_text(alloc, phrase, inst)?;
    let span = span_text(alloc, first, last)?;
    let told = told_text(alloc, kind, value, origin)?;
    let placed = placed_text(alloc, &point, &span, &told)?;
    with_number(alloc, number, &placed)
}

fn with_number(alloc: Global, number: u64, told: &Txt) -> Result<Txt, NoMemory>
    ensures { IfOk result (λ t. t ≡ meant.with_number number told.now) }
{
    let text = format!(in alloc; "{} {}\n", number, told.as_str())?;
    Ok(Txt::from_string(text))
}

fn placed_text(alloc: Global, point: &Txt, span: &Txt, told: &Txt) -> Result<Txt, NoMemory>
    ensures { IfOk result (λ t. t ≡ meant.placed_text point.now span.now told.now) }
{
    let text = format!(in alloc; "{}, {}: {}", point.as_str(), span.as_str(), told.as_str())?;
    Ok(Txt::from_string(text))
}

fn span_text(alloc: Global, first: u32, last: u32) -> Result<Txt, NoMemory>
    requires first { first < DAYS }
    requires last { last < DAYS }
    ensures { IfOk result (λ t. t ≡ meant.span_text first last) }
{
    let from = date_text(alloc, first)?;
    let to = date_text(alloc, last)?;
    let text = format!(in alloc; "{} to {}", from.as_str(), to.as_str())?;
    Ok(Txt::from_string(text))
}

fn told_text(alloc: Global, kind: Kind, value: &Value, origin: &Txt) -> Result<Txt, NoMemory>
    requires { IsOfCalendar value.now }
    ensures { IfOk result (λ t. t ≡ meant.told_text kind value.now origin.now) }
{
    let value = value_text(alloc, kind, value)?;
    let text = format!(in alloc; "{}, {}", value.as_str(), origin.as_str())?;
    Ok(Txt::from_string(text))
}

pub(crate) fn members_line(
    alloc: Global,
    number: u64,
    phrase: &Txt,
    inst: &InstanceId,
    names: &Option<List<Txt>>,
) -> Result<Txt, NoMemory>
    ensures { IfOk result (λ t. t ≡ meant.members_line number phrase.now inst.now names.now) }
{
    let point = point_text(alloc, phrase, inst)?;
    let names = names_text(alloc, names.as_ref())?;
    let text = format!(in alloc; "{} list {}: {}\n", number, point.as_str(), names.as_str())?;
    Ok(Txt::from_string(text))
}

pub(crate) fn member_line(
    alloc: Global,
    number: u64,
    phrase: &Txt,
    container: &InstanceId,
    inst: &InstanceId,
) -> Result<Txt, NoMemory>
    ensures { IfOk result (λ t. t ≡ meant.member_line number phrase.now container.now inst.now) }
{
    let point = point_text(alloc, phrase, container)?;
    let name = quoted(alloc, inst.name.as_str())?;
    let text = format!(in alloc; "{} member {}: {}\n", number, point.as_str(), name.as_str())?;
    Ok(Txt::from_string(text))
}

pub(crate) fn first_line(
    alloc: Global,
    phrase: &Txt,
    inst: &InstanceId,
    day: u32,
) -> Result<Txt, NoMemory>
    requires { day < DAYS }
    ensures { IfOk result (λ t. t ≡ meant.first_line phrase.now inst.now day) }
{
    let point = point_text(alloc, phrase, inst)?;
    let date = date_text(alloc, day)?;
    heading(alloc, &point, &date)
}

fn heading(alloc: Global, point: &Txt, date: &Txt) -> Result<Txt, NoMemory>
    ensures { IfOk result (λ t. t ≡ meant.heading point.now date.now) }
{
    let text = format!(in alloc; "report {} at {}\n", point.as_str(), date.as_str())?;
    Ok(Txt::from_string(text))
}
