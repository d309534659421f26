// Why a text is no day.
use thiserror::Error;

/// Why a text is no day: it hasn't the form, no calendar has such a day, or it lies before 1600 or after 2399.
#[derive(Clone, Copy, Debug, PartialEq, Eq, Error)]
pub enum DayFault {
    #[error("not of the form YYYY-MM-DD")]
    Form,
    #[error("no such day")]
    NoSuchDay,
    #[error("not a day of the years 1600 to 2399")]
    Range,
}
