// Writes the text of a number.
ghost use Rattle.std.specs.Prelude.{◌≡◌, ◌≤◌, ◌<◌, ◌++◌, OnOk, IfOk, EachIndex, slice_index};
ghost use Rattle.std.specs.String.{string_bytes};
ghost use Rattle.opa_value.specs.NumberText.{digit_of, four_digits as digits_behind, decimals_needed as needed, number_text as text_of};

use std::alloc::{AllocError, Global};

/// The text of a number's last digit.
fn digit(number: u64) -> u8
    ensures { result ≡ digit_of number }
{
    b'0' + (number % 10) as u8
}

/// The four digits of a size behind the point.
fn four_digits(size: u64) -> [u8; 4]
    ensures { result ≡ digits_behind size }
{
    [
        digit(size / 1000),
        digit(size / 100),
        digit(size / 10),
        digit(size),
    ]
}

/// How many digits behind the point a size needs.
pub fn decimals_needed(size: u64) -> usize
    ensures value { result ≡ needed size }
    ensures bound { result ≤ 4 }
{
    if size % 10_000 == 0 {
        0
    } else if size % 1000 == 0 {
        1
    } else if size % 100 == 0 {
        2
    } else if size % 10 == 0 {
        3
    } else {
        4
    }
}

/// Appends digits to a text.
fn push_digits(text: &mut String, digits: &[u8]) -> Result<(), AllocError>
    requires { EachIndex digits.now (λ k. slice_index digits.now k < 128) }
    ensures { OnOk result (string_bytes text.new ≡ string_bytes text.old ++ digits.now) }
{
    for digit in digits {
        text.push(char::from(*digit))?;
    }
    Ok(())
}

/// The text of a count with so many decimals.
#[tactic(auto, unfolding(crate::specs::NumberText::number_text))]
pub fn number_text(alloc: Global, count: i64, decimals: usize) -> Result<String, AllocError>
    requires { decimals ≤ 4 }
    ensures { IfOk result (λ text. string_bytes text ≡ text_of decimals count) }
{
    let size = count.unsigned_abs();
    let whole = size / 10_000;
    let mut text = if count < 0 {
        format!(in alloc; "-{whole}")?
    } else {
        format!(in alloc; "{whole}")?
    };
    if decimals > 0 {
        text.push('.')?;
        push_digits(&mut text, &four_digits(size)[..decimals])?;
    }
    Ok(text)
}
