// Numbers, truth tables and values.
use opa_io::{Same, Txt};
use opa_value::{NumFault, Number, Value, fit};
use std::alloc::Global;
use std::test::Fail;

const F: Value = Value::Bool(false);

const U: Value = Value::Unknown;

const C: Value = Value::Uncertain;

const T: Value = Value::Bool(true);

/// Two values, and all and any of them.
const PAIRS: [(Value, Value, Value, Value); 16] = [
    (F, F, F, F),
    (F, U, F, U),
    (F, C, F, C),
    (F, T, F, T),
    (U, F, F, U),
    (U, U, U, U),
    (U, C, U, U),
    (U, T, U, T),
    (C, F, F, C),
    (C, U, U, U),
    (C, C, C, C),
    (C, T, C, T),
    (T, F, F, T),
    (T, U, U, T),
    (T, C, C, T),
    (T, T, T, T),
];

/// Whether all and any of each row's two values are what it says.
fn are_joined(rows: &[(Value, Value, Value, Value)]) -> bool {
    rows.iter().all(|(a, b, all, any)| Value::all2(a, b).same(all) && Value::any2(a, b).same(any))
}

/// A value, and what denies it.
const DENIED: [(Value, Value); 4] = [(F, T), (U, U), (C, C), (T, F)];

fn are_denied(rows: &[(Value, Value)]) -> bool {
    rows.iter().all(|(a, other)| Value::not(a).same(other))
}

#[test]
fn tables(rt: HostRuntime) {
    assert!(rt; are_joined(&PAIRS));
    assert!(rt; are_denied(&DENIED));
}

/// A text, and its count or the fault.
const READ: [(&str, Result<i64, NumFault>); 14] = [
    ("0.0001", Ok(1)),
    ("-0.0001", Ok(-1)),
    ("0.6667", Ok(6667)),
    ("007.50", Ok(75_000)),
    ("-0", Ok(0)),
    ("10000000000000", Ok(100_000_000_000_000_000)),
    ("-10000000000000.0000", Ok(-100_000_000_000_000_000)),
    ("10000000000000.0001", Err(NumFault::Range)),
    (
        "99999999999999999999999999999999999999999",
        Err(NumFault::Range),
    ),
    ("1.23456", Err(NumFault::Form)),
    ("1.", Err(NumFault::Form)),
    (".5", Err(NumFault::Form)),
    ("+1", Err(NumFault::Form)),
    ("", Err(NumFault::Form)),
];

fn are_read(rows: &[(&str, Result<i64, NumFault>)]) -> bool {
    rows.iter().all(|(text, want)| {
        let found = Number::parse(text).map(|number| number.count());
        found == *want
    })
}

const GREATEST: i64 = 100_000_000_000_000_000;

/// Two counts, and those of the sum, the difference, the product and the quotient.
type Result4 = (i64, i64, [Option<i64>; 4]);

const RESULTS: [Result4; 7] = [
    (
        20_000,
        30_000,
        [Some(50_000), Some(-10_000), Some(60_000), Some(6667)],
    ),
    (
        10_000,
        200_000_000,
        [
            Some(200_010_000),
            Some(-199_990_000),
            Some(200_000_000),
            Some(1),
        ],
    ),
    (
        -10_000,
        200_000_000,
        [
            Some(199_990_000),
            Some(-200_010_000),
            Some(-200_000_000),
            Some(-1),
        ],
    ),
    (
        -20_000,
        -30_000,
        [Some(-50_000), Some(10_000), Some(60_000), Some(6667)],
    ),
    (100, 50, [Some(150), Some(50), Some(1), Some(20_000)]),
    (
        GREATEST,
        1,
        [None, Some(GREATEST - 1), Some(10_000_000_000_000), None],
    ),
    (10_000, 0, [Some(10_000), Some(10_000), Some(0), None]),
];

fn number(count: i64) -> Option<Number> {
    Number::from_count(i128::from(count))
}

/// The results of a row's two numbers.
fn results(a: i64, b: i64) -> Option<[Option<i64>; 4]> {
    let x = number(a)?;
    let y = number(b)?;
    let count = |found: Option<Number>| found.map(|number| number.count());
    Some([
        count(x.add(y)),
        count(x.sub(y)),
        count(x.mul(y)),
        count(x.div(y)),
    ])
}

fn are_counted(rows: &[Result4]) -> bool {
    rows.iter()
        .all(|(a, b, want)| results(*a, *b) == Some(*want))
}

#[test]
fn counts(rt: HostRuntime) {
    assert!(rt; are_read(&READ));
    assert!(rt; are_counted(&RESULTS));
    assert_eq!(rt; number(-GREATEST).map(|n| n.count()), Some(-GREATEST));
    assert_eq!(rt; number(GREATEST + 1), None);
    assert_eq!(rt; number(-GREATEST - 1), None);
}

/// A number, its plain text, and the text of the two decimals to which it is rounded.
const TEXTS: [(&str, &str, &str); 5] = [
    ("0012.3400", "12.34", "12.34"),
    ("-0.125", "-0.125", "-0.13"),
    ("0.005", "0.005", "0.01"),
    ("-7", "-7", "-7.00"),
    ("-0.0", "0", "0.00"),
];

/// The first number that is written otherwise than its row says.
fn first_other(alloc: Global, rows: &[(&str, &str, &str)]) -> Result<Option<usize>, Fail> {
    for (place, (text, plain, money)) in rows.iter().enumerate() {
        let number = Number::parse(text)?;
        let rounded = number.round(2);
        let fitted = fit(true, Value::Num(number));
        if number.text(alloc, false)?.as_str() != *plain
            || rounded.text(alloc, true)?.as_str() != *money
            || !fitted.same(&Value::Num(rounded))
        {
            return Ok(Some(place));
        }
    }
    Ok(None)
}

#[test]
fn texts(rt: HostRuntime) -> Result<(), Fail> {
    assert_eq!(rt; first_other(rt.alloc(), &TEXTS)?, None);
    Ok(())
}

#[test]
fn copies(rt: HostRuntime) -> Result<(), Fail> {
    let alloc = rt.alloc();
    let words = Value::Words(Txt::from_str(alloc, "a text")?);
    assert!(rt; words.copy(alloc)?.same(&words));
    assert!(rt; !words.same(&Value::Unknown));
    Ok(())
}
