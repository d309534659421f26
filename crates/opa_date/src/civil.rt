// Days as dates of `jiff`.
ghost use Rattle.std.specs.Prelude.{◌≡◌, ◌<◌, pos};
ghost use Rattle.std.specs.Int.{IsInRange};
ghost use Rattle.jiff_core.specs.Calendar.{IsBetween};
ghost use Rattle.opa_date.specs.Gregorian.{date_of, day_number, IsCalendarYear};

use crate::DAYS;
use jiff_core::civil::Date;

/// The days from -9999-01-01, the first date of `jiff`, to 1600-01-01.
pub(crate) const BEFORE: u32 = 4_236_447;

pub(crate) fn date_of_day(day: u32) -> Date
    requires { day < DAYS }
    ensures year { result.year ≡ (date_of day).year }
    ensures month { result.month ≡ (date_of day).month }
    ensures day { result.day ≡ (date_of day).day }
    ensures in_calendar { IsBetween (pos 1600) (pos 2399) result.year }
{
    Date::from_days_since_min(day + BEFORE)
}

pub(crate) fn day_of_date(date: Date) -> u32
    requires { IsBetween (pos 1600) (pos 2399) date.year }
    ensures value { result ≡ day_number (record { year = date.year; month = date.month; day = date.day }) }
    ensures bound { result < DAYS }
{
    date.days_since_min() - BEFORE
}

/// The year, the month and the day of the month.
pub fn parts(day: u32) -> (i32, u32, u32)
    requires { day < DAYS }
    ensures year { result.0 ≡ (date_of day).year }
    ensures month { result.1 ≡ (date_of day).month }
    ensures day { result.2 ≡ (date_of day).day }
    ensures year_in { IsCalendarYear result.0 }
    ensures month_in { IsInRange 1 12 result.1 }
    ensures day_in { IsInRange 1 31 result.2 }
{
    let date = date_of_day(day);
    (
        i32::from(date.year),
        u32::from(date.month),
        u32::from(date.day),
    )
}
