// Days that a reader can look up.
use opa_date::{
    DAYS, DayFault, add_days, add_months, add_years, day_text, parse_day, parts, years_between,
};

/// A text, and its day or the fault.
const READ: [(&str, Result<u32, DayFault>); 8] = [
    ("1600-01-01", Ok(0)),
    ("1600-02-29", Ok(59)),
    ("1700-02-29", Err(DayFault::NoSuchDay)),
    ("1800-01-01", Ok(73_049)),
    ("2399-12-31", Ok(292_193)),
    ("2400-01-01", Err(DayFault::Range)),
    ("1599-12-31", Err(DayFault::Range)),
    ("2024-2-01", Err(DayFault::Form)),
];

/// Whether each text is read as its row says, and each day's text is that text.
fn are_read(rows: &[(&str, Result<u32, DayFault>)]) -> bool {
    rows.iter().all(|(text, want)| {
        let found = parse_day(text);
        found == *want
    })
}

/// How a day is moved.
#[derive(Clone, Copy, Debug, Drop)]
enum Move {
    Days(i64),
    Months(i64),
    Years(i64),
}

/// A day, how it is moved, and where to; none where that is outside the calendar.
const MOVES: [(&str, Move, Option<&str>); 6] = [
    ("2024-01-31", Move::Months(1), Some("2024-02-29")),
    ("2024-01-31", Move::Days(30), Some("2024-03-01")),
    ("1600-01-01", Move::Days(-1), None),
    ("2000-02-29", Move::Years(1), Some("2001-02-28")),
    ("2000-02-29", Move::Years(400), None),
    ("2399-12-31", Move::Days(1), None),
];

/// The day, moved.
fn moved(day: u32, how: Move) -> Option<u32> {
    if day >= DAYS {
        return None;
    }
    match how {
        Move::Days(count) => add_days(day, count),
        Move::Months(count) => add_months(day, count),
        Move::Years(count) => add_years(day, count),
    }
}

/// Whether each day is moved where its row says.
fn are_moved(rows: &[(&str, Move, Option<&str>)]) -> bool {
    rows.iter().all(|(from, how, to)| {
        let found = parse_day(from).ok().and_then(|day| moved(day, *how));
        found == to.and_then(|text| parse_day(text).ok())
    })
}

/// Two days, and the whole years between them.
const YEARS: [(&str, &str, Option<u32>); 4] = [
    ("2000-02-29", "2001-02-28", Some(1)),
    ("2000-02-29", "2001-02-27", Some(0)),
    ("2000-02-29", "2399-12-31", Some(399)),
    ("2000-02-29", "1999-12-31", None),
];

/// The whole years between two days of the calendar.
fn years(start: &str, end: &str) -> Option<u32> {
    let start = parse_day(start).ok()?;
    let end = parse_day(end).ok()?;
    if start < DAYS && end < DAYS {
        years_between(start, end)
    } else {
        None
    }
}

/// Whether so many years lie between the days of each row.
fn are_apart(rows: &[(&str, &str, Option<u32>)]) -> bool {
    rows.iter()
        .all(|(start, end, want)| years(start, end) == *want)
}

#[test]
fn days(rt: HostRuntime) {
    assert!(rt; are_read(&READ));
    assert!(rt; are_moved(&MOVES));
    assert!(rt; are_apart(&YEARS));
    assert!(rt; day_text(73_049) == *b"1800-01-01");
    assert!(rt; day_text(DAYS - 1) == *b"2399-12-31");
    assert!(rt; parts(73_049) == (1800, 1, 1));
}
