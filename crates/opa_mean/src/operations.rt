// What operations give on plain values.
ghost use Rattle.std.specs.Prelude.{◌≡◌, ◌<◌, ℤ, ℕ, pos, [], ◌∷◌, ◌*ℤ◌, ◌-ℤ◌, ◌+ℤ◌, neg_ℤ, not, if◌then◌else◌, IfOk};
ghost use Rattle.std.specs.Option.{option_map, option_and_then};
ghost use Rattle.opa_date.specs.Gregorian.{date_of};
ghost use Rattle.opa_date.specs.Moves as moves;
ghost use Rattle.opa_value.specs.Arithmetic as counts;
ghost use Rattle.opa_value.specs.Numbers.{kept};
ghost use Rattle.opa_value.specs.declared.value.Value.TheVariants as words;
ghost use Rattle.opa_window.specs.Folds as folds;
ghost use Rattle.opa_window.specs.Windows.{on_date, on_dates, years_value};
ghost use Rattle.opa_mean.specs.Operations as meant;
ghost use Rattle.opa_mean.specs.Memory.{takes_memory};

use crate::folds::{better, number_of};
use opa_date::{DAYS, add_days, add_months, add_years, parts, years_between};
use opa_io::limits::MOST_TEXT;
use opa_io::{NoMemory, Txt};
use opa_tree::OpKind;
use opa_value::{Number, Value};
use std::alloc::Global;

/// What an operation gives on plain values.
#[tactic(auto, using(crate::proofs::Arities::arities))]
pub(crate) fn op(alloc: Global, kind: OpKind, values: &[Value]) -> Result<Value, NoMemory>
    ensures { IfOk result (λ v. v ≡ meant.op_of kind values.now) }
{
    match values {
        [v] => Ok(op_of_one(kind, v)),
        [v, w] => op_of_two(alloc, kind, v, w),
        _ => Ok(Value::Uncertain),
    }
}

/// An operation on one value.
pub fn op_of_one(kind: OpKind, v: &Value) -> Value
    ensures { result ≡ meant.op_of kind (v.now ∷ []) }
{
    match kind {
        OpKind::Neg => negated(v),
        OpKind::YearOf => year_of(v),
        OpKind::MonthOf => month_of(v),
        OpKind::DayOf => day_of(v),
        _ => Value::Uncertain,
    }
}

fn negated(v: &Value) -> Value
    ensures { result ≡ meant.on_number (λ n. folds.number_of (neg_ℤ n)) v.now }
{
    match v {
        Value::Num(number) => number_of(-i128::from(number.count())),
        _ => Value::Uncertain,
    }
}

/// A whole number.
fn whole(n: i64) -> Value
    ensures { result ≡ meant.whole_value n }
{
    number_of(i128::from(n) * 10_000)
}

fn year_of(v: &Value) -> Value
    ensures { result ≡ on_date (λ s. meant.whole_value (date_of s).year) v.now }
{
    match v {
        Value::Day(day) if *day < DAYS => whole(i64::from(parts(*day).0)),
        _ => Value::Uncertain,
    }
}

fn month_of(v: &Value) -> Value
    ensures { result ≡ on_date (λ s. meant.whole_value (pos (date_of s).month)) v.now }
{
    match v {
        Value::Day(day) if *day < DAYS => whole(i64::from(parts(*day).1)),
        _ => Value::Uncertain,
    }
}

fn day_of(v: &Value) -> Value
    ensures { result ≡ on_date (λ s. meant.whole_value (pos (date_of s).day)) v.now }
{
    match v {
        Value::Day(day) if *day < DAYS => whole(i64::from(parts(*day).2)),
        _ => Value::Uncertain,
    }
}

/// The first text, then the second.
fn joined(alloc: Global, v: &Value, w: &Value) -> Result<Value, NoMemory>
    ensures { IfOk result (λ x. x ≡ meant.joined v.now w.now) }
{
    match (v, w) {
        (Value::Words(s), Value::Words(t)) => joined_texts(alloc, s, t),
        _ => Ok(Value::Uncertain),
    }
}

fn joined_texts(alloc: Global, s: &Txt, t: &Txt) -> Result<Value, NoMemory>
    ensures { IfOk result (λ x. x ≡ meant.joined (words.Words s.now) (words.Words t.now)) }
{
    if s.as_str().len() + t.as_str().len() > MOST_TEXT {
        return Ok(Value::Uncertain);
    }
    let mut text = String::from_str(alloc, s.as_str())?;
    text.push_str(t.as_str())?;
    Ok(Value::Words(Txt::from_str(alloc, text.as_str())?))
}

/// An operation on two values.
pub fn op_of_two(alloc: Global, kind: OpKind, v: &Value, w: &Value) -> Result<Value, NoMemory>
    ensures { IfOk result (λ x. x ≡ meant.op_of kind (v.now ∷ w.now ∷ [])) }
{
    match kind {
        OpKind::Min => better(false, v, w).copy(alloc),
        OpKind::Max => better(true, v, w).copy(alloc),
        OpKind::Concatenate => joined(alloc, v, w),
        _ => Ok(told_of_two(kind, v, w)),
    }
}

/// An operation on two values that takes no memory; uncertain for another one.
fn told_of_two(kind: OpKind, v: &Value, w: &Value) -> Value
    ensures { result ≡ (if takes_memory kind then words.Uncertain else meant.op_of kind (v.now ∷ w.now ∷ [])) }
{
    match kind {
        OpKind::Add => sum_of_two(v, w),
        OpKind::Sub => difference(v, w),
        OpKind::Mul => product(v, w),
        OpKind::Div => quotient(v, w),
        OpKind::Eq => truth(equal(v, w)),
        OpKind::Ne => truth(negation(equal(v, w))),
        OpKind::Lt => truth(less(v, w)),
        OpKind::Le => truth(negation(less(w, v))),
        OpKind::Gt => truth(less(w, v)),
        OpKind::Ge => truth(negation(less(v, w))),
        OpKind::Round => rounded(v, w),
        OpKind::AddDays => days_later(v, w),
        OpKind::AddMonths => months_later(v, w),
        OpKind::AddYears => years_later(v, w),
        OpKind::DaysBetween => days_between(v, w),
        OpKind::YearsBetween => whole_years(v, w),
        _ => Value::Uncertain,
    }
}

/// A number, if there is one.
fn held(number: Option<Number>) -> Value
    ensures { result ≡ folds.held number }
{
    match number {
        Some(number) => Value::Num(number),
        None => Value::Uncertain,
    }
}

fn sum_of_two(v: &Value, w: &Value) -> Value
    ensures { result ≡ meant.on_numbers (λ m n. folds.number_of (m +ℤ n)) v.now w.now }
{
    match (v, w) {
        (Value::Num(m), Value::Num(n)) => held(m.add(*n)),
        _ => Value::Uncertain,
    }
}

fn difference(v: &Value, w: &Value) -> Value
    ensures { result ≡ meant.on_numbers (λ m n. folds.number_of (m -ℤ n)) v.now w.now }
{
    match (v, w) {
        (Value::Num(m), Value::Num(n)) => held(m.sub(*n)),
        _ => Value::Uncertain,
    }
}

fn product(v: &Value, w: &Value) -> Value
    ensures { result ≡ meant.on_numbers (λ m n. folds.number_of (counts.product m n)) v.now w.now }
{
    match (v, w) {
        (Value::Num(m), Value::Num(n)) => held(m.mul(*n)),
        _ => Value::Uncertain,
    }
}

fn quotient(v: &Value, w: &Value) -> Value
    ensures { result ≡ meant.on_numbers (λ m n. folds.held (option_and_then kept (counts.quotient m n))) v.now w.now }
{
    match (v, w) {
        (Value::Num(m), Value::Num(n)) => held(m.div(*n)),
        _ => Value::Uncertain,
    }
}

/// A truth value, if there is one.
fn truth(holds: Option<bool>) -> Value
    ensures { result ≡ meant.truth holds }
{
    match holds {
        Some(holds) => Value::Bool(holds),
        None => Value::Uncertain,
    }
}

fn negation(holds: Option<bool>) -> Option<bool>
    ensures { result ≡ option_map not holds }
{
    match holds {
        Some(holds) => Some(!holds),
        None => None,
    }
}

/// Whether two values of one kind are equal; none where they aren't of one kind.
fn equal(v: &Value, w: &Value) -> Option<bool>
    ensures { result ≡ meant.equal v.now w.now }
{
    match (v, w) {
        (Value::Bool(a), Value::Bool(b)) => Some(is_alike(*a, *b)),
        (Value::Num(m), Value::Num(n)) => Some(m.count() == n.count()),
        (Value::Words(s), Value::Words(t)) => Some(s.as_str() == t.as_str()),
        (Value::Day(a), Value::Day(b)) => Some(*a == *b),
        _ => None,
    }
}

fn is_alike(a: bool, b: bool) -> bool
    ensures { result ≡ meant.is_alike a b }
{
    if a { b } else { !b }
}

/// Whether the first of two numbers or two days is less; none for other values.
fn less(v: &Value, w: &Value) -> Option<bool>
    ensures { result ≡ meant.less v.now w.now }
{
    match (v, w) {
        (Value::Num(m), Value::Num(n)) => Some(m.count() < n.count()),
        (Value::Day(a), Value::Day(b)) => Some(*a < *b),
        _ => None,
    }
}

fn rounded(v: &Value, w: &Value) -> Value
    ensures { result ≡ meant.on_numbers meant.round v.now w.now }
{
    match (v, w) {
        (Value::Num(n), Value::Num(k)) => round(*n, *k),
        _ => Value::Uncertain,
    }
}

/// A number with so many decimals, which are a whole number from 0 to 4.
fn round(n: Number, decimals: Number) -> Value
    ensures { result ≡ meant.round n decimals }
{
    let size = decimals.count().unsigned_abs();
    if decimals.count() >= 0 && size <= 40_000 && size % 10_000 == 0 {
        Value::Num(n.round((size / 10_000) as u8))
    } else {
        Value::Uncertain
    }
}

/// The whole number that a number is.
fn whole_of(number: Number) -> Option<i64>
    ensures { result ≡ meant.whole_of number }
{
    let size = number.count().unsigned_abs();
    if size % 10_000 != 0 {
        return None;
    }
    let whole = (size / 10_000) as i64;
    Some(if number.count() < 0 { -whole } else { whole })
}

/// A day, if there is one.
fn day_or_not(day: Option<u32>) -> Value
    ensures { result ≡ meant.day_or_not day }
{
    match day {
        Some(day) => Value::Day(day),
        None => Value::Uncertain,
    }
}

fn days_later(v: &Value, w: &Value) -> Value
    ensures { result ≡ meant.moved moves.add_days v.now w.now }
{
    match (v, w) {
        (Value::Day(day), Value::Num(n)) if *day < DAYS => match whole_of(*n) {
            Some(n) => day_or_not(add_days(*day, n)),
            None => Value::Uncertain,
        },
        _ => Value::Uncertain,
    }
}

fn months_later(v: &Value, w: &Value) -> Value
    ensures { result ≡ meant.moved moves.add_months v.now w.now }
{
    match (v, w) {
        (Value::Day(day), Value::Num(n)) if *day < DAYS => match whole_of(*n) {
            Some(n) => day_or_not(add_months(*day, n)),
            None => Value::Uncertain,
        },
        _ => Value::Uncertain,
    }
}

fn years_later(v: &Value, w: &Value) -> Value
    ensures { result ≡ meant.moved moves.add_years v.now w.now }
{
    match (v, w) {
        (Value::Day(day), Value::Num(n)) if *day < DAYS => match whole_of(*n) {
            Some(n) => day_or_not(add_years(*day, n)),
            None => Value::Uncertain,
        },
        _ => Value::Uncertain,
    }
}

fn days_between(v: &Value, w: &Value) -> Value
    ensures { result ≡ on_dates (λ s t. meant.whole_value (pos t -ℤ pos s)) v.now w.now }
{
    match (v, w) {
        (Value::Day(s), Value::Day(t)) if *s < DAYS && *t < DAYS => {
            whole(i64::from(*t) - i64::from(*s))
        }
        _ => Value::Uncertain,
    }
}

fn whole_years(v: &Value, w: &Value) -> Value
    ensures { result ≡ on_dates (λ s t. years_value (moves.years_between s t)) v.now w.now }
{
    match (v, w) {
        (Value::Day(s), Value::Day(t)) if *s < DAYS && *t < DAYS => years(years_between(*s, *t)),
        _ => Value::Uncertain,
    }
}

/// A number of years, if there is one.
pub(crate) fn years(years: Option<u32>) -> Value
    ensures { result ≡ years_value years }
{
    match years {
        Some(years) => number_of(i128::from(years) * 10_000),
        None => Value::Uncertain,
    }
}
