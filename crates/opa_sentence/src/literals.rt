// Literals.
ghost use Rattle.std.specs.Prelude.{◌≡◌, neg_ℤ};
ghost use Rattle.opa_value.specs.Numbers.{kept};
ghost use Rattle.opa_sentence.specs.Measures.{bounded};
ghost use Rattle.opa_sentence.specs.Literals.{number_in as number_of_text, negative_in as negative_of_text, day_in as day_of_text, number_literal as number_literal_of, negative_literal as negative_literal_of, date_literal as date_literal_of};

use crate::Reading;
use opa_date::parse_day;
use opa_value::{Number, Value};

/// The number that a text spells, if it is in the range of numbers.
pub fn number_in(text: &str) -> Option<Number>
    ensures { result ≡ number_of_text text.now }
{
    match Number::parse(text) {
        Ok(number) => Some(number),
        Err(_) => None,
    }
}

fn negative_in(text: &str) -> Option<Number>
    ensures { result ≡ negative_of_text text.now }
{
    negated(number_in(text)?)
}

fn negated(number: Number) -> Option<Number>
    ensures { result ≡ kept (neg_ℤ number) }
{
    Number::from_count(-i128::from(number.count()))
}

fn day_in(text: &str) -> Option<u32>
    ensures { result ≡ day_of_text text.now }
{
    match parse_day(text) {
        Ok(day) => Some(day),
        Err(_) => None,
    }
}

pub fn number_literal(text: &str) -> Option<Reading>
    ensures { result ≡ number_literal_of bounded text.now }
{
    Some(Reading::literal(Value::Num(number_in(text)?)))
}

pub fn negative_literal(text: &str) -> Option<Reading>
    ensures { result ≡ negative_literal_of bounded text.now }
{
    Some(Reading::literal(Value::Num(negative_in(text)?)))
}

pub fn date_literal(text: &str) -> Option<Reading>
    ensures { result ≡ date_literal_of bounded text.now }
{
    Some(Reading::literal(Value::Day(day_in(text)?)))
}
