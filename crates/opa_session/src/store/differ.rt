// Whether two lines differ, where a missing one is unknown on every day.
ghost use Rattle.std.specs.Prelude.{◌≡◌, is_some, None, Some, IfOk};
ghost use Rattle.std.specs.Option.{option_copied};
ghost use Rattle.opa_date.specs.declared.TheConstants.{DAYS};
ghost use Rattle.opa_line.specs.Lines.{IsLine};
ghost use Rattle.opa_mean.specs.Changes.{first_difference};
ghost use Rattle.opa_mean.specs.Given.{line_value};

use opa_io::NoMemory;
use opa_line::Line;
use opa_value::Value;
use std::alloc::Global;

/// Whether the values differ at some day.
pub fn lines_differ(
    alloc: Global,
    old: Option<&Line<Value>>,
    new: Option<&Line<Value>>,
) -> Result<bool, NoMemory>
    ensures { IfOk result (λ differ. differ ≡ is_some
        (first_difference DAYS (line_value (option_copied old.entry)) (line_value (option_copied new.entry)))) }
{
    match old {
        Some(old) => differs_from(alloc, old, new),
        None => unknown_differs_from(alloc, new),
    }
}

fn differs_from(
    alloc: Global,
    old: &Line<Value>,
    new: Option<&Line<Value>>,
) -> Result<bool, NoMemory>
    ensures { IfOk result (λ differ. differ ≡ is_some (first_difference DAYS (line_value (Some old.now)) (line_value (option_copied new.entry)))) }
{
    match new {
        Some(new) => Ok(two_differ(old, new)),
        None => differs_from_unknown(alloc, old),
    }
}

fn unknown_differs_from(alloc: Global, new: Option<&Line<Value>>) -> Result<bool, NoMemory>
    ensures { IfOk result (λ differ. differ ≡ is_some (first_difference DAYS (line_value None) (line_value (option_copied new.entry)))) }
{
    match new {
        Some(new) => {
            let unknown = Line::constant(alloc, Value::Unknown)?;
            Ok(two_differ(&unknown, new))
        }
        None => Ok(false),
    }
}

fn differs_from_unknown(alloc: Global, old: &Line<Value>) -> Result<bool, NoMemory>
    ensures { IfOk result (λ differ. differ ≡ is_some (first_difference DAYS (line_value (Some old.now)) (line_value None))) }
{
    let unknown = Line::constant(alloc, Value::Unknown)?;
    Ok(two_differ(old, &unknown))
}

fn two_differ(old: &Line<Value>, new: &Line<Value>) -> bool
    ensures { result ≡ is_some (first_difference DAYS (line_value (Some old.now)) (line_value (Some new.now))) }
{
    let _old = old.segments();
    let _new = new.segments();
    old.first_difference(new).is_some()
}
