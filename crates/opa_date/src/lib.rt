//! The days from 1600-01-01 (day 0) to 2399-12-31 (day 292,193) by number: for lines and for texts of dates.
#![tactic(auto)]

mod civil;
mod fault;
mod laws;
mod moves;
mod texts;
mod years;

pub use civil::parts;
pub use fault::DayFault;
pub use laws::{
    agrees_with_jiff, dates_have_days, days_have_dates, only_texts_are_read, texts_are_read,
    years_are_added, years_rise,
};
pub use moves::{add_days, add_months, add_years};
pub use texts::{day_text, parse_day};
pub use years::years_between;

/// How many days the calendar has.
pub const DAYS: u32 = 292_194;
