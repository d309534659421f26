// Functions over time, over lines of many change points.
ghost use Rattle.std.specs.Prelude.{◌≤◌};

use opa_line::{DAYS, Line, LineFault};
use opa_value::{Number, Value};
use opa_window::{interval_sum, rolling_always};
use std::alloc::Global;

/// How many change points the call's answer has, over a line of so many.
pub fn measured(alloc: Global, call: &str, count: u32) -> Option<usize>
    requires { count ≤ 146000 }
{
    match call {
        "rolling" => {
            let x = line(alloc, count, |point| Value::Bool(point % 2 == 0)).ok()?;
            let always = rolling_always(alloc, 36_600, &x).ok()?;
            Some(always.segments().len())
        }
        "sum" => {
            let x = line(alloc, count, number).ok()?;
            let start = Line::constant(alloc, Value::Day(0)).ok()?;
            let end = Line::constant(alloc, Value::Day(DAYS - 1)).ok()?;
            let sum = interval_sum(alloc, &start, &end, &x).ok()?;
            Some(sum.segments().len())
        }
        _ => None,
    }
}

fn number(point: u32) -> Value {
    match Number::from_count(i128::from(point % 7)) {
        Some(number) => Value::Num(number),
        None => Value::Uncertain,
    }
}

/// A line with a change point at every other day.
fn line<F: Fn(u32) -> Value>(alloc: Global, count: u32, value: F) -> Result<Line<Value>, LineFault>
    requires callable { F.IsAlwaysCallable value }
    requires few { count ≤ 146000 }
{
    let mut pairs = Vec::new(alloc);
    for point in 0..count {
        if pairs.push((2 * point, value(point))).is_err() {
            return Err(LineFault::NoMemory);
        }
    }
    Line::from_pairs(alloc, pairs)
}
