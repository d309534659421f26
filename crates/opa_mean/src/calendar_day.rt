// A day of the calendar.
ghost use Rattle.std.specs.Prelude.{◌≡◌, ◌<◌};
ghost use Rattle.opa_date.specs.declared.TheConstants.{DAYS};

use std::marker::Model;

/// A day of the calendar, so that what goes down a tree at a day has no condition.
#[derive(Clone, Copy)]
pub(crate) struct CalendarDay {
    day: u32,
}

impl Model for CalendarDay {
    ghost use Rattle.std.specs.Prelude.{ℕ, ◌<◌};
    ghost use Rattle.std.specs.Coded.{coded_ℕ};
    ghost use Rattle.opa_date.specs.declared.TheConstants.{DAYS as COUNT};

    ghost Value = { ℕ };

    ghost coded = { coded_ℕ };

    ghost view = { λ d. d.day };

    ghost invariant = { λ d. d.day < COUNT };

    ghost inverse = { λ n. record { day = n } };
}

impl CalendarDay {
    pub(crate) fn new(day: u32) -> CalendarDay
        requires { day < DAYS }
        ensures { result ≡ day }
    {
        CalendarDay { day }
    }

    pub(crate) fn number(self) -> u32
        ensures value { result ≡ self }
        ensures range { result < DAYS }
    {
        self.day
    }
}
