// Whole years between days.
ghost use Rattle.std.specs.Prelude.{◌≡◌, ◌+◌, ◌<◌, ◌≤◌, ◌↔◌, pos, IsNone, IfSome};
ghost use Rattle.std.specs.Int.{IsInRange};
ghost use Rattle.jiff_core.specs.Calendar.{IsBetween};
ghost use Rattle.opa_date.specs.Gregorian.{date_of, day_number};
ghost use Rattle.opa_date.specs.Moves as meant;

use crate::DAYS;
use crate::civil::{BEFORE, date_of_day};
use jiff_span::date;

/// The days from -9999-01-01 to the date that many months later.
fn count_after(day: u32, months: i32) -> u32
    requires day_in { day < DAYS }
    requires months_in { IsBetween (pos 0) (pos 9_600) months }
    ensures { result ≡ day_number (meant.months_later (date_of day) months) + 4_236_447 }
{
    match date::add_months(date_of_day(day), months) {
        Ok(later) => later.days_since_min(),
        Err(_) => unreachable!(),
    }
}

/// The days from -9999-01-01 to the date that many years later.
fn anniversary(day: u32, years: u32) -> u32
    requires day_in { day < DAYS }
    requires years_in { years ≤ 800 }
    ensures { result ≡ meant.years_later day years + 4_236_447 }
{
    count_after(day, (years * 12) as i32)
}

fn year_of(day: u32) -> u32
    requires { day < DAYS }
    ensures value { pos result ≡ (date_of day).year }
    ensures bound { IsInRange 1600 2399 result }
{
    date_of_day(day).year as u32
}

/// The whole years from a day to one that isn't earlier.
pub fn years_between(start: u32, end: u32) -> Option<u32>
    requires start_in { start < DAYS }
    requires end_in { end < DAYS }
    ensures none { IsNone result ↔ (end < start) }
    ensures greatest { IfSome result (meant.IsYearsBetween start end) }
    ensures value { result ≡ meant.years_between start end }
{
    if end < start {
        return None;
    }
    let years = year_of(end) - year_of(start);
    if anniversary(start, years) <= end + BEFORE {
        Some(years)
    } else {
        Some(years - 1)
    }
}
