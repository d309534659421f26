// Lines of a function's answers on the values of other lines.
ghost use Rattle.std.specs.Prelude.{IfOk};
ghost use Rattle.opa_line.specs.Pointwise.{EachDay, MayJoin, Joins, MayMap, Maps};

use crate::walk::{next_day, reached_rest, reached_value};
use crate::{Builder, Line};
use opa_date::DAYS;
use opa_io::{NoMemory, Same};
use std::alloc::Global;

impl<T> Line<T> {
    /// The line whose value at each day is f's answer on the values of that day.
    pub fn zip<U, V: Same + Drop, F: Fn(&T, &U) -> Result<V, NoMemory>>(
        &self,
        alloc: Global,
        other: &Line<U>,
        f: F,
    ) -> Result<Line<V>, NoMemory>
    where
        F: Drop,
        requires { MayJoin F.Fn f DAYS self.now other.now }
        ensures { IfOk result (EachDay (Joins F.Fn f self.now other.now) DAYS) }
    {
        match (self.only(), other.only()) {
            (Some(x), Some(y)) => Line::constant(alloc, f(x, y)?),
            _ => joined(alloc, self, other, f),
        }
    }
}

impl<T> Line<T> {
    /// The line whose value at each day is f's answer on the value of that day.
    pub fn map<U: Same + Drop, F: Fn(&T) -> Result<U, NoMemory>>(
        &self,
        alloc: Global,
        f: F,
    ) -> Result<Line<U>, NoMemory>
    where
        F: Drop,
        requires { MayMap F.Fn f DAYS self.now }
        ensures { IfOk result (EachDay (Maps F.Fn f self.now) DAYS) }
    {
        match self.only() {
            Some(value) => Line::constant(alloc, f(value)?),
            None => mapped(alloc, self, f),
        }
    }
}

/// The same, day by day.
fn joined<T, U, V: Same + Drop, F: Fn(&T, &U) -> Result<V, NoMemory>>(
    alloc: Global,
    first: &Line<T>,
    second: &Line<U>,
    f: F,
) -> Result<Line<V>, NoMemory>
where
    F: Drop,
    requires { MayJoin F.Fn f DAYS first.now second.now }
    ensures { IfOk result (EachDay (Joins F.Fn f first.now second.now) DAYS) }
{
    let xs = first.segments();
    let ys = second.segments();
    let mut out = Builder::with_room(alloc, xs.len().max(ys.len()));
    let mut x = &xs[0].1;
    let mut y = &ys[0].1;
    let mut left = &xs[1..];
    let mut right = &ys[1..];
    while let Some(day) = next_day(left, right) {
        let value = f(x, y)?;
        out.until(day, value)?;
        x = reached_value(day, x, left);
        y = reached_value(day, y, right);
        left = reached_rest(day, left);
        right = reached_rest(day, right);
    }
    let last = f(x, y)?;
    out.until(DAYS, last)?;
    Ok(out.finish())
}

/// The same, pair by pair.
fn mapped<T, U: Same + Drop, F: Fn(&T) -> Result<U, NoMemory>>(
    alloc: Global,
    line: &Line<T>,
    f: F,
) -> Result<Line<U>, NoMemory>
where
    F: Drop,
    requires { MayMap F.Fn f DAYS line.now }
    ensures { IfOk result (EachDay (Maps F.Fn f line.now) DAYS) }
{
    let pairs = line.segments();
    let mut out = Builder::with_room(alloc, pairs.len());
    let mut value = &pairs[0].1;
    let mut rest = &pairs[1..];
    while let [next, after @ ..] = rest {
        let answer = f(value)?;
        out.until(next.0, answer)?;
        value = &next.1;
        rest = after;
    }
    let last = f(value)?;
    out.until(DAYS, last)?;
    Ok(out.finish())
}
