// A number: a whole count of ten-thousandths in a fixed range.
ghost use Rattle.std.specs.Prelude.{◌≡◌, IfOk, if◌then◌else◌, ◌+ℤ◌, ◌-ℤ◌, ◌≤◌};
ghost use Rattle.std.specs.Option.{option_and_then};
ghost use Rattle.opa_value.specs.Arithmetic.{product, quotient, rounded};
ghost use Rattle.opa_value.specs.NumberText.{Reads, held_count, read_number, plain_text, money_text};
ghost use Rattle.opa_value.specs.Numbers.{InRange, kept};

use crate::arithmetic::{
    MOST, product as rounded_product, quotient as rounded_quotient, rounded as rounded_to,
};
use crate::reading::capped_count;
use crate::writing::{decimals_needed, number_text};
use opa_io::{NoMemory, Txt};
use std::alloc::Global;
use std::marker::Model;
use thiserror::Error;

/// Why a text isn't read as a number.
#[derive(Clone, Copy, Debug, PartialEq, Eq, Error)]
pub enum NumFault {
    #[error("not a number")]
    Form,
    #[error("a number out of range")]
    Range,
}

/// A count of ten-thousandths, at most 10^17 either way.
#[derive(Clone, Copy, Debug, PartialEq, Eq)]
pub struct Number {
    count: i64,
}

impl Model for Number {
    ghost use Rattle.std.specs.Prelude.{ℤ};
    ghost use Rattle.std.specs.Coded.{coded_ℤ};
    ghost use Rattle.opa_value.specs.Numbers.{InRange as IsCount};

    ghost Value = { ℤ };

    ghost coded = { coded_ℤ };

    ghost view = { λ n. n.count };

    ghost invariant = { λ n. IsCount n.count };

    ghost inverse = { λ z. record { count = z } };
}

/// The number of a count that was read.
fn held(count: Option<i128>) -> Result<Number, NumFault>
    ensures { result ≡ held_count count }
{
    let count = count.ok_or(NumFault::Form)?;
    Number::from_count(count).ok_or(NumFault::Range)
}

impl Number {
    /// The count of ten-thousandths.
    pub fn count(self) -> i64
        ensures value { result ≡ self }
        ensures range { InRange result }
    {
        self.count
    }

    /// The number of a count of ten-thousandths.
    pub fn from_count(count: i128) -> Option<Number>
        ensures { result ≡ kept count }
    {
        if count.unsigned_abs() <= MOST {
            Some(Number {
                count: count as i64,
            })
        } else {
            None
        }
    }

    /// The sum, where it is a number.
    pub fn add(self, other: Number) -> Option<Number>
        ensures { result ≡ kept (self +ℤ other) }
    {
        Number::from_count(i128::from(self.count) + i128::from(other.count))
    }

    /// The difference, where it is a number.
    pub fn sub(self, other: Number) -> Option<Number>
        ensures { result ≡ kept (self -ℤ other) }
    {
        Number::from_count(i128::from(self.count) - i128::from(other.count))
    }

    /// The product, rounded to the nearest count, where it is a number.
    pub fn mul(self, other: Number) -> Option<Number>
        ensures { result ≡ kept (product self other) }
    {
        Number::from_count(rounded_product(self.count, other.count))
    }

    /// The quotient, rounded to the nearest count, where it is a number. By zero it is none.
    pub fn div(self, other: Number) -> Option<Number>
        ensures { result ≡ option_and_then kept (quotient self other) }
    {
        Number::from_count(rounded_quotient(self.count, other.count)?)
    }

    /// The number rounded to so many decimals, halves away from zero. It has four, so with more than four it stays.
    pub fn round(self, decimals: u8) -> Number
        ensures { result ≡ rounded decimals self }
    {
        Number {
            count: rounded_to(self.count, decimals) as i64,
        }
    }

    /// Reads a number: an optional minus, one or more digits, and optionally a point with one to four digits.
    #[tactic(auto, using(crate::proofs::HeldCounts::held_counts))]
    pub fn parse(text: &str) -> Result<Number, NumFault>
        ensures value { result ≡ read_number text.now }
        ensures cause { Reads text.now result }
    {
        held(capped_count(text))
    }

    /// The text with the decimals that the number needs, or with two; further ones are then left out.
    #[tactic(auto, unfolding(crate::specs::NumberText::plain_text, crate::specs::NumberText::money_text))]
    pub fn text(self, alloc: Global, decimals_shown: bool) -> Result<Txt, NoMemory>
        ensures { IfOk result (λ text. text ≡ (if decimals_shown then money_text self else plain_text self)) }
    {
        let decimals = if decimals_shown {
            2
        } else {
            decimals_needed(self.count.unsigned_abs())
        };
        let text = number_text(alloc, self.count, decimals)?;
        Ok(Txt::from_string(text))
    }
}
