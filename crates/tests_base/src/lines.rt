// Values over time that a reader can look up.
use opa_line::{DAYS, Line, LineFault};
use std::alloc::Global;
use std::test::Fail;

fn steady(alloc: Global, pairs: &[(u32, bool)]) -> Result<Line<bool>, LineFault> {
    let Ok(given) = Vec::from_slice(alloc, pairs) else {
        return Err(LineFault::NoMemory);
    };
    Line::from_pairs(alloc, given)
}

/// Pairs, and how many the line of them has, or the fault.
const PAIRS: [(&[(u32, bool)], Result<usize, LineFault>); 6] = [
    (&[], Err(LineFault::Empty)),
    (&[(1, true)], Err(LineFault::FirstDay)),
    (&[(0, true), (5, false), (5, true)], Err(LineFault::Order)),
    (&[(0, true), (DAYS, false)], Err(LineFault::Range)),
    (&[(0, false), (DAYS - 1, true)], Ok(2)),
    (&[(0, false), (9, false), (154_863, true)], Ok(2)),
];

/// The first pairs of which the line is another than their row says.
fn first_other(
    alloc: Global,
    rows: &[(&[(u32, bool)], Result<usize, LineFault>)],
) -> Option<usize> {
    rows.iter().position(|(pairs, want)| {
        let found = steady(alloc, pairs).map(|line| line.segments().len());
        found != *want
    })
}

/// Values of a line at days.
const VALUES: [(u32, bool); 6] = [
    (0, false),
    (154_862, false),
    (154_863, true),
    (155_044, true),
    (155_045, false),
    (DAYS - 1, false),
];

fn are_at(line: &Line<bool>, rows: &[(u32, bool)]) -> bool {
    rows.iter()
        .all(|(day, value)| *day < DAYS && line.at(*day) == value)
}

#[test]
fn pairs(rt: HostRuntime) -> Result<(), Fail> {
    assert_eq!(rt; first_other(rt.alloc(), &PAIRS), None);
    // From 2024-01-01 to 2024-07-01.
    let employed = steady(rt.alloc(), &[(0, false), (154_863, true), (155_045, false)])?;
    assert!(rt; are_at(&employed, &VALUES));
    Ok(())
}

#[test]
fn answers(rt: HostRuntime) -> Result<(), Fail> {
    let alloc = rt.alloc();
    let left = steady(alloc, &[(0, false), (10, true), (20, false)])?;
    let right = steady(alloc, &[(0, true), (15, false)])?;
    let both = left.zip(alloc, &right, |a: &bool, b: &bool| Ok(*a && *b))?;
    assert!(rt; both.segments() == [(0, false), (10, true), (15, false)].as_slice());
    let turned = right.map(alloc, |a: &bool| Ok(!*a))?;
    assert!(rt; turned.segments() == [(0, false), (15, true)].as_slice());
    assert!(rt; left.first_difference(&right) == Some(0));
    assert!(rt; both.first_difference(&left) == Some(15));
    assert!(rt; both.first_difference(&both).is_none());
    Ok(())
}
