// Days as texts of the form YYYY-MM-DD.
ghost use Rattle.std.specs.Prelude.{◌≡◌, ◌+◌, ◌<◌, pos, IsTrue, IfOk, Ok};
ghost use Rattle.std.specs.Int.{IsInRange};
ghost use Rattle.jiff_core.specs.Calendar.{IsBetween};
ghost use Rattle.opa_date.specs.Texts as meant;

use crate::civil::{day_of_date, parts};
use crate::{DAYS, DayFault};
use jiff_core::civil::Date;

fn is_day_form(bytes: &[u8]) -> bool
    ensures value { result ≡ meant.is_day_form bytes.now }
    ensures form { IsTrue result → meant.IsDayForm bytes.now }
{
    bytes.len() == 10
        && bytes[0].is_ascii_digit()
        && bytes[1].is_ascii_digit()
        && bytes[2].is_ascii_digit()
        && bytes[3].is_ascii_digit()
        && bytes[4] == b'-'
        && bytes[5].is_ascii_digit()
        && bytes[6].is_ascii_digit()
        && bytes[7] == b'-'
        && bytes[8].is_ascii_digit()
        && bytes[9].is_ascii_digit()
}

/// The number of two digits.
fn two_digits(tens: u8, units: u8) -> u8
    requires tens_in { IsInRange 48 57 tens }
    requires units_in { IsInRange 48 57 units }
    ensures value { result ≡ meant.two_digits tens units }
    ensures bound { result < 100 }
{
    (tens - b'0') * 10 + (units - b'0')
}

/// The day of a year, a month and a day of the month.
fn day_named(year: i16, month: u8, day: u8) -> Result<u32, DayFault>
    requires year_in { IsBetween (pos 0) (pos 9999) year }
    requires month_in { month < 100 }
    requires day_in { day < 100 }
    ensures value { result ≡ meant.day_of_named (record { year = year; month = month; day = day }) }
    ensures bound { IfOk result (λ d. d < DAYS) }
{
    let Ok(date) = Date::new(year, month as i8, day as i8) else {
        return Err(DayFault::NoSuchDay);
    };
    if date.year < 1600 {
        return Err(DayFault::Range);
    }
    if date.year > 2399 {
        return Err(DayFault::Range);
    }
    Ok(day_of_date(date))
}

/// The same for a year that has no sign.
fn day_of_digits(year: u16, month: u8, day: u8) -> Result<u32, DayFault>
    requires year_in { year < 10_000 }
    requires month_in { month < 100 }
    requires day_in { day < 100 }
    ensures value { result ≡ meant.day_of_named (record { year = pos year; month = month; day = day }) }
    ensures bound { IfOk result (λ d. d < DAYS) }
{
    day_named(year as i16, month, day)
}

/// The day that a text names, or the first fault of its form, its date and its year.
pub fn parse_day(text: &str) -> Result<u32, DayFault>
    ensures value { result ≡ meant.read_day text.now }
    ensures bound { IfOk result (λ d. d < DAYS) }
    ensures text { IfOk result (λ d. text.now ≡ meant.day_text d) }
{
    let bytes = text.as_bytes();
    if !is_day_form(bytes) {
        return Err(DayFault::Form);
    }
    let century = two_digits(bytes[0], bytes[1]);
    let year = u16::from(century) * 100 + u16::from(two_digits(bytes[2], bytes[3]));
    let month = two_digits(bytes[5], bytes[6]);
    let day = two_digits(bytes[8], bytes[9]);
    day_of_digits(year, month, day)
}

fn digit(n: u32) -> u8
    requires { n < 10 }
    ensures { result ≡ 48 + n }
{
    b'0' + n as u8
}

fn text_bytes(day: u32) -> [u8; 10]
    requires { day < DAYS }
    ensures { result ≡ meant.day_text day }
{
    let (year, month, day) = parts(day);
    let year = year as u32;
    [
        digit(year / 1000),
        digit(year / 100 % 10),
        digit(year / 10 % 10),
        digit(year % 10),
        b'-',
        digit(month / 10),
        digit(month % 10),
        b'-',
        digit(day / 10),
        digit(day % 10),
    ]
}

/// The text of a day, which is read as that day.
pub fn day_text(day: u32) -> [u8; 10]
    requires { day < DAYS }
    ensures text { result ≡ meant.day_text day }
    ensures reads_back { meant.read_day result ≡ Ok day }
{
    text_bytes(day)
}
