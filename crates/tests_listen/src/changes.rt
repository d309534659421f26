// Changes, and what is said of them.
ghost use Rattle.std.specs.Prelude.{◌<◌};
ghost use Rattle.opa_date.specs.declared.TheConstants.{DAYS};
ghost use Rattle.opa_listen.specs.Days.{IsInCalendar};

use opa_cells::InstanceId;
use opa_io::Txt;
use opa_listen::{Change, words};
use opa_model::{AttrId, Kind};
use opa_value::Value;
use std::alloc::Global;
use std::test::Fail;

fn truth(held: Option<bool>) -> Value
    ensures { IsInCalendar result }
{
    match held {
        None => Value::Unknown,
        Some(held) => Value::Bool(held),
    }
}

/// A truth value that changes on a day.
pub(crate) fn change(
    alloc: Global,
    attr: u32,
    phrase: &str,
    day: u32,
    values: (Option<bool>, Option<bool>),
) -> Result<Change, Fail>
    requires { day < DAYS }
{
    Ok(Change {
        attr: AttrId(attr),
        kind: Kind::Bool,
        phrase: Txt::from_str(alloc, phrase)?,
        inst: InstanceId::global(alloc)?,
        day,
        was: truth(values.0),
        now: truth(values.1),
    })
}

/// The first changes of two, so many.
pub(crate) fn first_of_two(alloc: Global, count: u32) -> Result<Vec<Change>, Fail> {
    let mut all = Vec::new(alloc);
    if count > 0 {
        all.push(change(alloc, 1, "the claimant is entitled", 0, (None, Some(true)))?)?;
    }
    if count > 1 {
        all.push(change(
            alloc,
            2,
            "the claimant is exempt",
            366,
            (Some(true), Some(false)),
        )?)?;
    }
    Ok(all)
}

/// What is said in a style of so many changes.
fn said(alloc: Global, style: u32, count: u32) -> Result<Txt, Fail> {
    let kept = first_of_two(alloc, count)?;
    Ok(words(alloc, style, &kept)?)
}

const ROWS: [(u32, u32, &str); 9] = [
    (0, 0, ""),
    (
        0,
        1,
        "the claimant is entitled on 1600-01-01: unknown to true\n",
    ),
    (
        0,
        2,
        "the claimant is entitled on 1600-01-01: unknown to true\nthe claimant is exempt on 1601-01-01: true to false\n",
    ),
    (1, 0, "0 changes\n"),
    (
        1,
        1,
        "1 changes, last: the claimant is entitled on 1600-01-01: unknown to true\n",
    ),
    (
        1,
        2,
        "2 changes, last: the claimant is exempt on 1601-01-01: true to false\n",
    ),
    (2, 0, ""),
    (2, 1, ""),
    (2, 2, ""),
];

#[test]
fn each_style_says_its_words(rt: HostRuntime) -> Result<(), Fail> {
    for (style, count, want) in ROWS {
        let found = said(rt.alloc(), style, count)?;
        assert_eq!(rt; found.as_str(), want, "style {style} of {count}");
    }
    Ok(())
}
