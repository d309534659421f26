// The text of a line.
ghost use Rattle.std.specs.Prelude.{◌≡◌, ◌<◌, ◌++◌, IfOk, ℕ, All, List};
ghost use Rattle.opa_value.specs.declared.value.Value.{Value};
ghost use Rattle.opa_date.specs.declared.TheConstants.{DAYS};
ghost use Rattle.opa_text.specs.Texts.{line_text as line_text_of, change_text as change_text_of, changes_text as changes_text_of, IsOfCalendar, HasDays};

use crate::values::{date_text, value_text};
use opa_io::{NoMemory, Txt, front};
use opa_line::Line;
use opa_model::Kind;
use opa_value::Value;
use std::alloc::Global;

/// The text of a line whose values are of a kind: `false; from 2024-01-01 true`.
pub fn line_text(alloc: Global, kind: Kind, line: &Line<Value>) -> Result<Txt, NoMemory>
    requires { HasDays line.now }
    ensures { IfOk result (λ t. t ≡ line_text_of kind line.now) }
{
    match front(line.segments()) {
        None => Txt::from_str(alloc, ""),
        Some((first, changes)) => {
            let start = value_text(alloc, kind, &first.1)?;
            let later = changes_text(alloc, kind, changes)?;
            let text = format!(in alloc; "{}{}", start.as_str(), later.as_str())?;
            Ok(Txt::from_string(text))
        }
    }
}

fn changes_text(alloc: Global, kind: Kind, changes: &[(u32, Value)]) -> Result<Txt, NoMemory>
    requires days { All (λ (p : ℕ × Value). p.0 < DAYS) changes.now }
    requires values { All (λ (p : ℕ × Value). IsOfCalendar p.1) changes.now }
    ensures { IfOk result (λ t. t ≡ changes_text_of kind changes.now) }
{
    let mut out = String::new(alloc);
    let mut rest = changes;
    while let Some((change, later)) = front(rest) {
        out.push_str(change_text(alloc, kind, change)?.as_str())?;
        rest = later;
    }
    Ok(Txt::from_string(out))
}

fn change_text(alloc: Global, kind: Kind, change: &(u32, Value)) -> Result<Txt, NoMemory>
    requires day { change.now.0 < DAYS }
    requires value { IsOfCalendar change.now.1 }
    ensures { IfOk result (λ t. t ≡ change_text_of kind change.now) }
{
    let day = date_text(alloc, change.0)?;
    let value = value_text(alloc, kind, &change.1)?;
    let text = format!(in alloc; "; from {} {}", day.as_str(), value.as_str())?;
    Ok(Txt::from_string(text))
}
