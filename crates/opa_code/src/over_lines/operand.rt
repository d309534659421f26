// Lines as operands: those that are looked up stay where they are.
ghost use Rattle.std.specs.Prelude.{◌≡◌, ◌<◌, ◌++◌, ◌∷◌, [], length, IfOk, MatchOption};
ghost use Rattle.opa_date.specs.declared.TheConstants.{DAYS};
ghost use Rattle.opa_line.specs.Lines.{StandsFor};
ghost use Rattle.opa_value.specs.declared.value.Value.TheVariants.{Uncertain};
ghost use Rattle.opa_window.specs.Days.{day_value};
ghost use Rattle.opa_mean.specs.Meaning.{first_value};
ghost use Rattle.opa_code.specs.OverLines.Lines.{Has, values_at};

use crate::over_lines::lines::same_line;
use opa_io::{List, NoMemory};
use opa_line::Line;
use opa_value::Value;
use std::alloc::Global;
use std::marker::Model;

/// Where a line is.
#[derive(Debug, Drop)]
enum Place<'a> {
    Made(Line<Value>),
    Seen(&'a Line<Value>),
}

/// A line that was made, or one that is looked up.
#[derive(Debug, Drop)]
pub struct Operand<'a> {
    place: Place<'a>,
}

impl<'a> Model for Operand<'a> {
    ghost use Rattle.std.specs.Prelude.{List, ℕ};
    ghost use Rattle.std.specs.Coded.{coded_list, coded×, coded_ℕ};
    ghost use Rattle.opa_value.specs.declared.value.Value.{Value as Meant};
    ghost use Rattle.opa_value.specs.contracts.value.Value as each;

    ghost Value = { List (ℕ × Meant) };

    ghost coded = { coded_list (coded× coded_ℕ each.the_row.coded) };

    ghost use Rattle.opa_code.specs.OverLines.Places.{line_at};

    ghost view = { λ o. line_at o.place };
}

impl<'a> Operand<'a> {
    pub fn made(line: Line<Value>) -> Operand<'a>
        ensures { result ≡ line }
    {
        Operand {
            place: Place::Made(line),
        }
    }

    pub fn seen(line: &'a Line<Value>) -> Operand<'a>
        ensures { result ≡ line.now }
    {
        Operand {
            place: Place::Seen(line),
        }
    }

    /// A line that was made with the same value at every day.
    pub fn constant(alloc: Global, value: Value) -> Result<Operand<'a>, NoMemory>
        ensures { IfOk result (StandsFor DAYS (λ _. value)) }
    {
        let line = Line::constant(alloc, value)?;
        Ok(Operand::made(line))
    }

    pub fn line(&self) -> &Line<Value>
        ensures { result.now ≡ self.now }
    {
        match &self.place {
            Place::Made(line) => line,
            Place::Seen(line) => line,
        }
    }

    /// An equal operand: a line that was made is copied.
    pub fn copy(&self, alloc: Global) -> Result<Operand<'a>, NoMemory>
        ensures { IfOk result (Has (day_value self.now)) }
    {
        match &self.place {
            Place::Made(line) => {
                let copied = same_line(alloc, line)?;
                Ok(Operand::made(copied))
            }
            Place::Seen(line) => Ok(Operand::seen(line)),
        }
    }

    /// The line by itself: one that is looked up is copied.
    pub fn into_line(self, alloc: Global) -> Result<Line<Value>, NoMemory>
        ensures { IfOk result (StandsFor DAYS (day_value self.entry)) }
    {
        let Operand { place } = self;
        match place {
            Place::Made(line) => whole(line),
            Place::Seen(line) => same_line(alloc, line),
        }
    }
}

/// A line stands for its own values.
fn whole(line: Line<Value>) -> Result<Line<Value>, NoMemory>
    ensures { IfOk result (StandsFor DAYS (day_value line)) }
{
    let _pairs = line.segments();
    Ok(line)
}

/// Takes the newest operand away.
pub fn take_newest<'a>(operands: &mut Vec<Operand<'a>>) -> Option<Operand<'a>>
    ensures { MatchOption result ((operands.old.items ≡ []) × (operands.new.items ≡ []))
        (λ x. operands.old.items ≡ operands.new.items ++ x ∷ []) }
{
    operands.pop()
}

/// Takes the newest operand away, where there is one.
pub fn newest<'a>(operands: &mut Vec<Operand<'a>>) -> Operand<'a>
    requires { 0 < length operands.old.items }
    ensures { operands.old.items ≡ operands.new.items ++ result ∷ [] }
{
    let Some(operand) = take_newest(operands) else {
        unreachable!()
    };
    operand
}

/// The only operand.
pub fn only(mut operands: Vec<Operand<'_>>) -> Operand<'_>
    requires { length operands.items ≡ 1 }
    ensures { operands.entry.items ≡ result ∷ [] }
{
    newest(&mut operands)
}

/// The first operand's line by itself, uncertain on every day where there is none.
pub fn taken_first(alloc: Global, mut operands: Vec<Operand<'_>>) -> Result<Line<Value>, NoMemory>
    ensures { IfOk result (StandsFor DAYS (λ d. first_value (values_at operands.entry.items d))) }
{
    match take_newest(&mut operands) {
        None => Line::constant(alloc, Value::Uncertain),
        Some(last) => first_or_last(alloc, &operands, last),
    }
}

/// The first operand's line by itself, that of the last one where it is the only one.
fn first_or_last(
    alloc: Global,
    before: &[Operand<'_>],
    last: Operand<'_>,
) -> Result<Line<Value>, NoMemory>
    ensures { IfOk result (StandsFor DAYS (λ d. first_value (values_at (before.now ++ last.entry ∷ []) d))) }
{
    match before {
        [] => last.into_line(alloc),
        [first, ..] => same_line(alloc, first.line()),
    }
}

/// The lines as operands.
pub fn seen_each<'a>(alloc: Global, lines: &'a [Line<Value>]) -> Result<List<Operand<'a>>, NoMemory>
    ensures { IfOk result (λ operands. operands ≡ lines.now) }
{
    let mut operands = List::new(alloc);
    for line in lines {
        operands.push(Operand::seen(line))?;
    }
    Ok(operands)
}

/// The first operand's line, or another that is uncertain on every day where there is none.
pub fn first_of<'b>(operands: &'b [Operand<'_>], other: &'b Line<Value>) -> &'b Line<Value>
    requires { StandsFor DAYS (λ _. Uncertain) other.now }
    ensures { Has (λ d. first_value (values_at operands.now d)) result.now }
{
    match operands {
        [] => other,
        [first, ..] => first.line(),
    }
}
