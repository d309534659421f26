// What is made of a list of values.
ghost use Rattle.std.specs.Prelude.{◌≡◌, ◌≤◌, ◌<◌, ◌*◌, ◌^◌, pos, neg_ℤ, ◌≤ℤ◌, ◌+ℤ◌, ◌+◌, ◌-◌, IfOk, if◌then◌else◌, length, filter, ◌∷◌};
ghost use Rattle.std.specs.List.{list_any};
ghost use Rattle.opa_value.specs.Truth as truth;
ghost use Rattle.opa_window.specs.Folds as meant;
ghost use Rattle.opa_mean.specs.Meaning as mean;

use opa_io::{NoMemory, front};
use opa_value::{Number, Value};
use std::alloc::Global;

fn has_unknown(values: &[Value]) -> bool
    ensures { result ≡ list_any truth.is_unknown values.now }
{
    values.iter().any(|value| matches!(value, Value::Unknown))
}

fn has_uncertain(values: &[Value]) -> bool
    ensures { result ≡ list_any truth.is_uncertain values.now }
{
    values.iter().any(|value| matches!(value, Value::Uncertain))
}

fn has_false(values: &[Value]) -> bool
    ensures { result ≡ list_any truth.is_false values.now }
{
    values
        .iter()
        .any(|value| matches!(value, Value::Bool(false)))
}

fn has_true(values: &[Value]) -> bool
    ensures { result ≡ list_any truth.is_true values.now }
{
    values
        .iter()
        .any(|value| matches!(value, Value::Bool(true)))
}

/// Unknown where one is unknown, else uncertain where one is uncertain, else the value given.
pub(crate) fn unless_open(values: &[Value], other: Value) -> Value
    ensures { result ≡ truth.unless_open values.now other }
{
    if has_unknown(values) {
        Value::Unknown
    } else if has_uncertain(values) {
        Value::Uncertain
    } else {
        other
    }
}

pub(crate) fn all_of(values: &[Value]) -> Value
    ensures { result ≡ truth.all_of values.now }
{
    if has_false(values) {
        Value::Bool(false)
    } else {
        unless_open(values, Value::Bool(true))
    }
}

pub(crate) fn any_of(values: &[Value]) -> Value
    ensures { result ≡ truth.any_of values.now }
{
    if has_true(values) {
        Value::Bool(true)
    } else {
        unless_open(values, Value::Bool(false))
    }
}

/// The number of a count of ten-thousandths, uncertain where it is out of range.
pub fn number_of(count: i128) -> Value
    ensures { result ≡ meant.number_of count }
{
    match Number::from_count(count) {
        Some(number) => Value::Num(number),
        None => Value::Uncertain,
    }
}

/// A number of things.
pub(crate) fn amount(count: usize) -> Value
    ensures { result ≡ mean.amount count }
{
    number_of(ten_thousands(count))
}

fn ten_thousands(count: usize) -> i128
    ensures { result ≡ pos (count * 10000) }
{
    (count as u128 * 10_000) as i128
}

/// How many values are true.
pub(crate) fn true_count(values: &[Value]) -> Value
    ensures { result ≡ mean.true_count values.now }
{
    amount(count_true(values))
}

fn count_true(values: &[Value]) -> usize
    ensures { result ≡ length (filter truth.is_true values.now) }
{
    values
        .iter()
        .filter(|value| matches!(value, Value::Bool(true)))
        .count()
}

/// The first value, uncertain where there is none.
pub(crate) fn first_value(alloc: Global, values: &[Value]) -> Result<Value, NoMemory>
    ensures { IfOk result (λ v. v ≡ mean.first_value values.now) }
{
    match front(values) {
        None => Ok(Value::Uncertain),
        Some((first, _)) => first.copy(alloc),
    }
}

/// The whole sum of the numbers, then its range.
pub(crate) fn sum(values: &[Value]) -> Value
    ensures { result ≡ meant.sum_value values.now }
{
    number_of(total(values))
}

fn total(values: &[Value]) -> i128
    ensures { result ≡ meant.total values.now }
{
    let mut sum = 0i128;
    let mut rest = values;
    while let Some((value, later)) = front(rest) {
        sum = plus(sum, count_of(value));
        rest = later;
    }
    sum
}

/// A number's count, and 0 for another value.
fn count_of(value: &Value) -> i64
    ensures value { result ≡ meant.count_of value.now }
    ensures low { neg_ℤ (pos (10 ^ 17)) ≤ℤ result }
    ensures high { result ≤ℤ pos (10 ^ 17) }
{
    match value {
        Value::Num(number) => number.count(),
        _ => 0,
    }
}

fn plus(a: i128, b: i64) -> i128
    requires low { neg_ℤ (pos (2 ^ 126)) ≤ℤ a }
    requires high { a ≤ℤ pos (2 ^ 126) }
    ensures { result ≡ a +ℤ b }
{
    a + i128::from(b)
}

/// The greatest of numbers or days, uncertain where there is none.
pub(crate) fn greatest(alloc: Global, values: &[Value]) -> Result<Value, NoMemory>
    ensures { IfOk result (λ v. v ≡ meant.greatest values.now) }
{
    match front(values) {
        None => Ok(Value::Uncertain),
        Some((first, later)) => best_from(true, first, later).copy(alloc),
    }
}

/// The least of numbers or days, uncertain where there is none.
pub(crate) fn least(alloc: Global, values: &[Value]) -> Result<Value, NoMemory>
    ensures { IfOk result (λ v. v ≡ meant.least values.now) }
{
    match front(values) {
        None => Ok(Value::Uncertain),
        Some((first, later)) => best_from(false, first, later).copy(alloc),
    }
}

fn best_from<'a>(most: bool, first: &'a Value, values: &'a [Value]) -> &'a Value
    ensures { result.now ≡ meant.best_from (meant.is_beaten_of most) first.now values.now }
{
    let mut best = first;
    let mut rest = values;
    while let Some((value, later)) = front(rest) {
        best = better(most, best, value);
        rest = later;
    }
    best
}

pub(crate) fn better<'a>(most: bool, v: &'a Value, w: &'a Value) -> &'a Value
    ensures { result.now ≡ (if meant.is_beaten_of most v.now w.now then w.now else v.now) }
{
    if is_beaten(most, v, w) { w } else { v }
}

fn is_beaten(most: bool, v: &Value, w: &Value) -> bool
    ensures { result ≡ meant.is_beaten_of most v.now w.now }
{
    if most { is_less(v, w) } else { is_less(w, v) }
}

fn is_less(v: &Value, w: &Value) -> bool
    ensures { result ≡ meant.is_less v.now w.now }
{
    match (v, w) {
        (Value::Num(m), Value::Num(n)) => m.count() < n.count(),
        (Value::Day(a), Value::Day(b)) => *a < *b,
        _ => false,
    }
}

/// How many values the longest run of true ones has, as a number.
pub(crate) fn run(values: &[Value]) -> Value
    ensures { result ≡ meant.run_value values.now }
{
    amount(longest(values))
}

fn longest(values: &[Value]) -> usize
    ensures { result ≡ meant.longest values.now }
{
    let mut ahead = 0;
    let mut most = 0;
    let mut place = values.len();
    while place > 0 {
        place -= 1;
        ahead = run_ahead(&values[place], ahead);
        most = most.max(ahead);
    }
    most
}

/// How many true values there are from one on, where so many follow it.
fn run_ahead(value: &Value, later: usize) -> usize
    requires { later < 2 ^ 64 - 1 }
    ensures { result ≡ (if truth.is_true value.now then later + 1 else 0) }
{
    if matches!(value, Value::Bool(true)) {
        later + 1
    } else {
        0
    }
}
