// What holds of the calendar's days.
ghost use Rattle.opa_date.specs.Laws as law;

/// Each day has a date of the years 1600 to 2399, whose number it is.
pub fn days_have_dates()
    ensures { law.DaysHaveDates }
{}

/// Each date of the years 1600 to 2399 has a day, whose date it is.
pub fn dates_have_days()
    ensures { law.DatesHaveDays }
{}

/// The calendar is that of `jiff`.
pub fn agrees_with_jiff()
    ensures { law.AgreesWithJiff }
{}

/// The text of a day is read as that day.
pub fn texts_are_read()
    ensures { law.TextsAreRead }
{}

/// A text that is read as a day is the text of that day.
pub fn only_texts_are_read()
    ensures { law.OnlyTextsAreRead }
{}

/// Years that are added are years of the calendar of all years.
pub fn years_are_added()
    ensures { law.YearsAreAdded }
{}

/// The day more years later is a later day.
pub fn years_rise()
    ensures { law.YearsRise }
{}
