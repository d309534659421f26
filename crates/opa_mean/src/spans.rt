// Windows of days.
ghost use Rattle.std.specs.Prelude.{◌≡◌, ◌≤◌, ◌<◌, ◌+◌, ◌-◌, ℕ, ◌∷◌, []};
ghost use Rattle.opa_date.specs.declared.TheConstants.{DAYS};
ghost use Rattle.opa_value.specs.declared.value.Value.{Value as Values};
ghost use Rattle.opa_value.specs.Truth.{unless_open};
ghost use Rattle.opa_window.specs.Windows.{on_dates};
ghost use Rattle.opa_mean.specs.Spans.{by_dates};

use crate::calendar_day::CalendarDay;
use opa_date::DAYS;
use opa_value::Value;
use std::marker::Model;

/// The days from one on and below another, both at most the calendar's end.
#[derive(Clone, Copy)]
pub(crate) struct Span {
    first: u32,
    end: u32,
}

impl Model for Span {
    ghost use Rattle.std.specs.Prelude.{ℕ, ◌≤◌};
    ghost use Rattle.std.specs.Coded.{coded×, coded_ℕ};
    ghost use Rattle.opa_date.specs.declared.TheConstants.{DAYS as COUNT};

    ghost Value = { ℕ × ℕ };

    ghost coded = { coded× coded_ℕ coded_ℕ };

    ghost view = { λ s. (s.first, s.end) };

    ghost invariant = { λ s. (s.first ≤ COUNT) × (s.end ≤ COUNT) };

    ghost inverse = { λ p. record { first = p.0; end = p.1 } };
}

impl Span {
    pub(crate) fn new(first: u32, end: u32) -> Span
        requires first { first ≤ DAYS }
        requires end { end ≤ DAYS }
        ensures { result ≡ (first, end) }
    {
        Span { first, end }
    }

    pub(crate) fn first(self) -> u32
        ensures value { result ≡ self.0 }
        ensures range { result ≤ DAYS }
    {
        self.first
    }

    pub(crate) fn end(self) -> u32
        ensures value { result ≡ self.1 }
        ensures range { result ≤ DAYS }
    {
        self.end
    }

    /// So many days that end with a day, cut at day 0.
    pub(crate) fn last_days(count: u32, day: CalendarDay) -> Span
        ensures { result ≡ (day + 1 - count, day + 1) }
    {
        let end = day.number() + 1;
        Span::new(end.saturating_sub(count), end)
    }
}

/// What two dates tell: a value where they are open or no days, else a window.
pub(crate) enum Dates {
    Open(Value),
    Between(Span),
}

pub(crate) fn between(start: &Value, end: &Value) -> Dates
    ensures { (f : ℕ → ℕ → Values) → by_dates result f ≡ unless_open (start.now ∷ end.now ∷ []) (on_dates f start.now end.now) }
{
    match (start, end) {
        (Value::Unknown, _) | (_, Value::Unknown) => Dates::Open(Value::Unknown),
        (Value::Day(first), Value::Day(end)) if *first < DAYS && *end < DAYS => {
            Dates::Between(Span::new(*first, *end))
        }
        _ => Dates::Open(Value::Uncertain),
    }
}
