// Days so many days, months or years away.
ghost use Rattle.std.specs.Prelude.{◌≡◌, ◌<◌, pos, neg_ℤ, IfSome};
ghost use Rattle.jiff_core.specs.Calendar.{IsBetween};
ghost use Rattle.opa_date.specs.Moves as meant;

use crate::DAYS;
use crate::civil::{date_of_day, day_of_date};
use jiff_span::date;

/// The day that many days later, if the calendar has it.
pub fn add_days(day: u32, n: i64) -> Option<u32>
    requires { day < DAYS }
    ensures value { result ≡ meant.add_days day n }
    ensures bound { IfSome result (λ d. d < DAYS) }
{
    let sum = i64::from(day).checked_add(n)?;
    if 0 <= sum && sum < i64::from(DAYS) {
        Some(sum as u32)
    } else {
        None
    }
}

/// The same day of the month that many months later, or that month's last day, if the calendar has it.
fn shifted(day: u32, n: i32) -> Option<u32>
    requires day_in { day < DAYS }
    requires n_in { IsBetween (neg_ℤ (pos 10_000)) (pos 10_000) n }
    ensures value { result ≡ meant.add_months day n }
    ensures bound { IfSome result (λ d. d < DAYS) }
{
    let Ok(later) = date::add_months(date_of_day(day), n) else {
        return None;
    };
    if later.year < 1600 || later.year > 2399 {
        return None;
    }
    Some(day_of_date(later))
}

/// The same day of the month that many months later, or that month's last day, if the calendar has it.
pub fn add_months(day: u32, n: i64) -> Option<u32>
    requires { day < DAYS }
    ensures value { result ≡ meant.add_months day n }
    ensures bound { IfSome result (λ d. d < DAYS) }
{
    // No two days lie 10,000 months apart.
    if n < -10_000 || n > 10_000 {
        return None;
    }
    shifted(day, n as i32)
}

/// The same day of the year that many years later, or 28 February for a 29 February, if the calendar has it.
pub fn add_years(day: u32, n: i64) -> Option<u32>
    requires { day < DAYS }
    ensures value { result ≡ meant.add_years day n }
    ensures bound { IfSome result (λ d. d < DAYS) }
{
    if n < -833 || n > 833 {
        return None;
    }
    shifted(day, n as i32 * 12)
}
