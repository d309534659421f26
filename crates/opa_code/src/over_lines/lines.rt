// Lines whose value at each day is made of the values of other lines at that day.
ghost use Rattle.std.specs.Prelude.{◌≡◌, ◌∷◌, [], cond as condition, true, IfOk};
ghost use Rattle.opa_date.specs.declared.TheConstants.{DAYS};
ghost use Rattle.opa_line.specs.Lines.{StandsFor};
ghost use Rattle.opa_line.specs.Pointwise.{EachDay};
ghost use Rattle.opa_value.specs.Fit.{fit_of};
ghost use Rattle.opa_value.specs.Truth.{not_of, strict};
ghost use Rattle.opa_value.specs.declared.value.Value.TheVariants as values;
ghost use Rattle.opa_window.specs.Days.{day_value};
ghost use Rattle.opa_mean.specs.Meaning as meant;
ghost use Rattle.opa_mean.specs.Operations.{op_of};
ghost use Rattle.opa_code.specs.OverLines.Lines.{Has, values_at};
ghost use Rattle.opa_code.specs.OverLines.Extremes.{AreBests, IsOneBest};
ghost use Rattle.opa_code.specs.OverLines.Sweeps.{is_best as best_of};
ghost use Rattle.opa_code.specs.OverLines.Tallies.{gather_of, is_most as most_of};

use crate::over_lines::bests::Bests;
use crate::over_lines::choice::Choice;
use crate::over_lines::gathering::Gathering;
use crate::over_lines::operand::{Operand, first_of, only, seen_each};
use crate::over_lines::operations::{strict_one, strict_two};
use crate::over_lines::steady::{constant_tally, told_first, truth_of};
use crate::over_lines::sums::amount;
use crate::over_lines::sweep::swept_over;
use crate::over_lines::tally::Tally;
use opa_io::NoMemory;
use opa_line::Line;
use opa_tree::{OpKind, Quant};
use opa_value::{Number, Value, fit};
use std::alloc::Global;

/// An equal line.
pub fn same_line(alloc: Global, x: &Line<Value>) -> Result<Line<Value>, NoMemory>
    ensures { IfOk result (StandsFor DAYS (day_value x.now)) }
{
    x.map(alloc, |v: &Value| v.copy(alloc))
}

/// Concluded values: a currency is rounded.
pub fn fitted_line(alloc: Global, money: bool, x: &Line<Value>) -> Result<Line<Value>, NoMemory>
    ensures { IfOk result (StandsFor DAYS (λ d. fit_of money (day_value x.now d))) }
{
    x.map(alloc, move |v: &Value| fitted(alloc, money, v))
}

fn fitted(alloc: Global, money: bool, value: &Value) -> Result<Value, NoMemory>
    ensures { IfOk result (λ v. v ≡ fit_of money value.now) }
{
    Ok(fit(money, value.copy(alloc)?))
}

pub fn not_line(alloc: Global, x: &Line<Value>) -> Result<Line<Value>, NoMemory>
    ensures { IfOk result (StandsFor DAYS (λ d. not_of (day_value x.now d))) }
{
    x.map(alloc, |v: &Value| Ok(Value::not(v)))
}

pub fn certain_line(alloc: Global, x: &Line<Value>) -> Result<Line<Value>, NoMemory>
    ensures { IfOk result (StandsFor DAYS (λ d. meant.certain_of (day_value x.now d))) }
{
    x.map(alloc, |v: &Value| Ok(certain(v)))
}

fn certain(value: &Value) -> Value
    ensures { result ≡ meant.certain_of value.now }
{
    match value {
        Value::Unknown => Value::Unknown,
        Value::Uncertain => Value::Bool(false),
        _ => Value::Bool(true),
    }
}

pub fn known_line(alloc: Global, x: &Line<Value>) -> Result<Line<Value>, NoMemory>
    ensures { IfOk result (StandsFor DAYS (λ d. meant.known_of (day_value x.now d))) }
{
    x.map(alloc, |v: &Value| Ok(known(v)))
}

fn known(value: &Value) -> Value
    ensures { result ≡ meant.known_of value.now }
{
    match value {
        Value::Unknown => Value::Bool(false),
        _ => Value::Bool(true),
    }
}

/// A strict operation.
pub fn op_line(alloc: Global, kind: OpKind, lines: &[Line<Value>]) -> Result<Line<Value>, NoMemory>
    ensures { IfOk result (StandsFor DAYS (λ d. strict (op_of kind) (values_at lines.now d))) }
{
    let operands = seen_each(alloc, lines)?;
    op_over(alloc, kind, operands.as_slice())
}

/// A strict operation over operands.
pub(crate) fn op_over(
    alloc: Global,
    kind: OpKind,
    operands: &[Operand<'_>],
) -> Result<Line<Value>, NoMemory>
    ensures { IfOk result (StandsFor DAYS (λ d. strict (op_of kind) (values_at operands.now d))) }
{
    match operands {
        [x] => one_line(alloc, kind, x.line()),
        [x, y] => two_line(alloc, kind, x.line(), y.line()),
        [] => gathered_over(alloc, Gathering::Open, operands),
        [_, _, _, ..] => gathered_over(alloc, Gathering::Open, operands),
    }
}

fn one_line(alloc: Global, kind: OpKind, x: &Line<Value>) -> Result<Line<Value>, NoMemory>
    ensures { IfOk result (StandsFor DAYS (λ d. strict (op_of kind) (day_value x.now d ∷ []))) }
{
    x.map(alloc, move |v: &Value| Ok(strict_one(kind, v)))
}

fn two_line(
    alloc: Global,
    kind: OpKind,
    x: &Line<Value>,
    y: &Line<Value>,
) -> Result<Line<Value>, NoMemory>
    ensures { IfOk result (StandsFor DAYS (λ d. strict (op_of kind) (day_value x.now d ∷ day_value y.now d ∷ []))) }
{
    x.zip(alloc, y, move |v: &Value, w: &Value| {
        strict_two(alloc, kind, v, w)
    })
}

/// Where the condition is true the value, where it is false the rest, and else what the condition is.
pub fn choice_line(
    alloc: Global,
    cond: &Line<Value>,
    value: &Line<Value>,
    rest: &Line<Value>,
) -> Result<Line<Value>, NoMemory>
    ensures { IfOk result (StandsFor DAYS (λ d. meant.choose (day_value cond.now d) (day_value value.now d)
        (day_value rest.now d))) }
{
    match truth_of(cond) {
        Some(holds) => same_line(alloc, either(holds, value, rest)),
        None => choice_by_day(alloc, cond, value, rest),
    }
}

/// The same over operands: one that is chosen on every day isn't copied.
pub(crate) fn choice_over<'a>(
    alloc: Global,
    cond: Operand<'a>,
    value: Operand<'a>,
    rest: Operand<'a>,
) -> Result<Operand<'a>, NoMemory>
    ensures { IfOk result (Has (λ d. meant.choose (day_value cond.entry d) (day_value value.entry d)
        (day_value rest.entry d))) }
{
    match truth_of(cond.line()) {
        Some(true) => Ok(value),
        Some(false) => Ok(rest),
        None => {
            let line = choice_by_day(alloc, cond.line(), value.line(), rest.line())?;
            Ok(Operand::made(line))
        }
    }
}

/// The first if it holds, else the second.
fn either<'a>(holds: bool, first: &'a Line<Value>, second: &'a Line<Value>) -> &'a Line<Value>
    ensures { result.now ≡ condition holds first.now second.now }
{
    if holds { first } else { second }
}

fn choice_by_day(
    alloc: Global,
    cond: &Line<Value>,
    value: &Line<Value>,
    rest: &Line<Value>,
) -> Result<Line<Value>, NoMemory>
    ensures { IfOk result (StandsFor DAYS (λ d. meant.choose (day_value cond.now d) (day_value value.now d)
        (day_value rest.now d))) }
{
    let choices = cond.zip(alloc, value, |c: &Value, v: &Value| Choice::of(alloc, c, v))?;
    choices.zip(alloc, rest, |c: &Choice, v: &Value| c.or(alloc, v))
}

/// What is gathered from lines at each day.
pub fn gathered(
    alloc: Global,
    gathering: Gathering,
    lines: &[Line<Value>],
) -> Result<Line<Value>, NoMemory>
    ensures { IfOk result (StandsFor DAYS (λ d. gather_of gathering (values_at lines.now d))) }
{
    let operands = seen_each(alloc, lines)?;
    gathered_over(alloc, gathering, operands.as_slice())
}

/// What is gathered from operands at each day.
pub(crate) fn gathered_over(
    alloc: Global,
    gathering: Gathering,
    operands: &[Operand<'_>],
) -> Result<Line<Value>, NoMemory>
    ensures { IfOk result (StandsFor DAYS (λ d. gather_of gathering (values_at operands.now d))) }
{
    match constant_tally(is_most(gathering), operands) {
        Some(tally) => {
            let value = told_first(alloc, gathering, &tally, operands)?;
            Line::constant(alloc, value)
        }
        None => gathered_by_day(alloc, gathering, operands),
    }
}

fn gathered_by_day(
    alloc: Global,
    gathering: Gathering,
    operands: &[Operand<'_>],
) -> Result<Line<Value>, NoMemory>
    ensures { IfOk result (StandsFor DAYS (λ d. gather_of gathering (values_at operands.now d))) }
{
    if is_best(gathering) {
        best_by_day(alloc, gathering, operands)
    } else {
        let none = Tally::none();
        swept_over(alloc, gathering, &none, operands)
    }
}

fn best_by_day(
    alloc: Global,
    gathering: Gathering,
    operands: &[Operand<'_>],
) -> Result<Line<Value>, NoMemory>
    requires { best_of gathering ≡ true }
    ensures { IfOk result (StandsFor DAYS (λ d. gather_of gathering (values_at operands.now d))) }
{
    let none = Line::constant(alloc, Value::Uncertain)?;
    let first = first_of(operands, &none);
    let bests = bests_over(alloc, is_most(gathering), operands)?;
    bests.zip(alloc, first, move |t: &Bests, v: &Value| t.told(alloc, v))
}

/// The first line, uncertain on every day where there is none.
pub fn first_line(alloc: Global, lines: &[Line<Value>]) -> Result<Line<Value>, NoMemory>
    ensures { IfOk result (StandsFor DAYS (λ d. meant.first_value (values_at lines.now d))) }
{
    match lines {
        [] => Line::constant(alloc, Value::Uncertain),
        [first, ..] => same_line(alloc, first),
    }
}

/// What the best of operands is told from at each day. These are halved, so that each change point is met once for each
/// halving.
#[cycle(halves)]
pub(crate) fn bests_over(
    alloc: Global,
    most: bool,
    operands: &[Operand<'_>],
) -> Result<Line<Bests>, NoMemory>
    ensures { IfOk result (EachDay (λ d t. AreBests most (values_at operands.now d) t) DAYS) }
{
    match operands {
        [] => Line::constant(alloc, Bests::none()),
        [operand] => one_best(alloc, operand.line()),
        [x, y] => two_bests(alloc, most, x.line(), y.line()),
        _ => {
            let (left, right) = operands.split_at(operands.len() / 2);
            let first = bests_over(alloc, most, left)?;
            let second = bests_over(alloc, most, right)?;
            first.zip(alloc, &second, move |s: &Bests, t: &Bests| {
                Ok(Bests::both(most, s, t))
            })
        }
    }
}

fn one_best(alloc: Global, line: &Line<Value>) -> Result<Line<Bests>, NoMemory>
    ensures { IfOk result (EachDay (λ d t. IsOneBest (day_value line.now d) t) DAYS) }
{
    line.map(alloc, |v: &Value| Ok(Bests::one(v)))
}

/// The same of two, without a line for each.
fn two_bests(
    alloc: Global,
    most: bool,
    x: &Line<Value>,
    y: &Line<Value>,
) -> Result<Line<Bests>, NoMemory>
    ensures { IfOk result (EachDay (λ d t. AreBests most (day_value x.now d ∷ day_value y.now d ∷ []) t) DAYS) }
{
    x.zip(alloc, y, move |v: &Value, w: &Value| {
        Ok(Bests::two(most, v, w))
    })
}

/// What a quantifier makes of a listed instance's operands.
pub fn item_line(
    alloc: Global,
    quant: Quant,
    operands: &[Operand<'_>],
) -> Result<Line<Value>, NoMemory>
    ensures { IfOk result (StandsFor DAYS (λ d. meant.item quant (values_at operands.now d))) }
{
    match (quant, operands) {
        (Quant::SumIf, [number, test]) => {
            let zero = Line::constant(alloc, amount(0))?;
            choice_line(alloc, test.line(), number.line(), &zero)
        }
        (_, [operand]) => same_line(alloc, operand.line()),
        _ => Line::constant(alloc, Value::Uncertain),
    }
}

/// The same of operands that are handed over: one by itself isn't copied.
pub(crate) fn item_over<'a>(
    alloc: Global,
    quant: Quant,
    operands: Vec<Operand<'a>>,
) -> Result<Operand<'a>, NoMemory>
    ensures { IfOk result (Has (λ d. meant.item quant (values_at operands.entry.items d))) }
{
    if operands.len() == 1 {
        return Ok(only(operands));
    }
    let line = item_line(alloc, quant, &operands)?;
    Ok(Operand::made(line))
}

/// What a quantifier makes of the items.
pub fn quantified(
    alloc: Global,
    quant: Quant,
    items: &[Line<Value>],
) -> Result<Line<Value>, NoMemory>
    ensures { IfOk result (StandsFor DAYS (λ d. meant.quant_of quant (values_at items.now d))) }
{
    match quant {
        Quant::ForAll => gathered(alloc, Gathering::All, items),
        Quant::Exists => gathered(alloc, Gathering::Any, items),
        Quant::For => first_line(alloc, items),
        Quant::Count => Line::constant(alloc, amount(items.len() as u64)),
        Quant::CountIf => gathered(alloc, Gathering::CountIf, items),
        Quant::Sum | Quant::SumIf => gathered(alloc, Gathering::Sum, items),
        Quant::Maximum => gathered(alloc, Gathering::Best(true), items),
        Quant::Minimum => gathered(alloc, Gathering::Best(false), items),
    }
}

pub(crate) fn is_most(gathering: Gathering) -> bool
    ensures { result ≡ most_of gathering }
{
    match gathering {
        Gathering::Best(most) => most,
        _ => true,
    }
}

/// Whether it is the greatest or the least.
pub(crate) fn is_best(gathering: Gathering) -> bool
    ensures { result ≡ best_of gathering }
{
    matches!(gathering, Gathering::Best(_))
}
