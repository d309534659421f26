// Values and lines as they are printed.
ghost use Rattle.std.specs.Prelude.{◌≡◌, true};
ghost use Rattle.opa_text.specs.Texts.{IsOfCalendar};

use opa_date::DAYS;
use opa_io::{NoMemory, Txt};
use opa_line::Line;
use opa_model::Kind;
use opa_text::value_text;
use opa_value::Value;
use std::alloc::Global;
use std::test::Fail;

/// Whether a day that the value holds is of the calendar.
fn is_of_calendar(value: &Value) -> bool
    ensures { result ≡ true → IsOfCalendar value.now }
{
    match value {
        Value::Day(day) => *day < DAYS,
        Value::Unknown => true,
        Value::Uncertain => true,
        Value::Bool(_) => true,
        Value::Num(_) => true,
        Value::Words(_) => true,
    }
}

/// The value, as it is printed.
pub fn value_words(alloc: Global, kind: Kind, value: &Value) -> Result<Txt, NoMemory> {
    if is_of_calendar(value) {
        value_text(alloc, kind, value)
    } else {
        Txt::from_str(alloc, "no day of the calendar")
    }
}

/// The first value, and then each change with its day.
pub fn line_words(alloc: Global, kind: Kind, line: &Line<Value>) -> Result<String, Fail> {
    let mut out = String::new(alloc);
    for (day, value) in line.segments() {
        if *day > 0 {
            out.push_str("; from ")?;
            out.push_str(value_words(alloc, Kind::Date, &Value::Day(*day))?.as_str())?;
            out.push_str(" ")?;
        }
        out.push_str(value_words(alloc, kind, value)?.as_str())?;
    }
    Ok(out)
}
