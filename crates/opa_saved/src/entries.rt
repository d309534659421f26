// What a saved case has: its version, its answers and its lists.
use opa_io::{List, Txt};
use opa_line::Line;
use opa_value::Value;

/// A phrase, and the name of an instance.
#[derive(PartialEq, Eq, PartialOrd, Ord, Drop)]
pub(crate) struct Point {
    pub(crate) phrase: Txt,
    pub(crate) name: Txt,
}

/// What is answered at a point.
#[derive(Drop)]
pub(crate) struct AnswerEntry {
    pub(crate) point: Point,
    pub(crate) line: Line<Value>,
}

/// What a list at a point names.
#[derive(Drop)]
pub(crate) struct ListEntry {
    pub(crate) point: Point,
    pub(crate) names: List<Txt>,
}

/// The first version, or the second with a digest.
#[derive(Clone, Copy)]
pub(crate) enum Version {
    First,
    Second(u64),
}

/// All that a saved case has.
#[derive(Drop)]
pub(crate) struct Entries {
    pub(crate) version: Version,
    pub(crate) answers: Vec<AnswerEntry>,
    pub(crate) lists: Vec<ListEntry>,
}
