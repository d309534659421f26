// What groups of lines say, and how they are read.
use crate::Head;
use opa_io::List;
use opa_sentence::{Measure, Parts, Reading};
use opa_tree::{RbKind, Row};

/// The word between the items of a group.
#[derive(Clone, Copy, Debug, PartialEq, Eq)]
pub enum Joint {
    And,
    Or,
}

/// A fault that a line has by itself.
#[derive(Clone, Copy, Debug, PartialEq, Eq)]
pub struct Mark {
    pub line: u32,
    pub kind: RbKind,
}

/// What lines say, and the faults that they have by themselves, in their order.
#[derive(Drop)]
pub struct Said {
    pub reading: Reading,
    pub marks: List<Mark>,
}

/// What a group says, and the connector of its items, if it has several.
#[derive(Drop)]
pub struct Group {
    pub joint: Option<Joint>,
    pub said: Said,
}

/// What several items say.
#[derive(Drop)]
pub struct Several {
    pub parts: Parts,
    pub marks: List<Mark>,
}

/// The items before another one, each with its connector.
#[derive(Drop)]
pub enum Front {
    Nothing,
    Joined(Joint, Several),
}

/// A group at a level, up to an item.
#[derive(Drop)]
pub struct Items {
    pub level: u32,
    pub front: Front,
}

/// Cases, each with its value and its group: their rows, if all of them are named and within their numbers, and their measure.
#[derive(Drop)]
pub struct Cases {
    pub rows: Option<List<Row>>,
    pub measure: Measure,
    pub marks: List<Mark>,
}

/// What is to be read next: an item; what follows an item with deeper lines; the first case, or another; nothing that a
/// block has.
#[derive(Drop)]
pub enum Sort {
    Item(Items),
    After(Items, Said),
    FirstCase,
    Case(Cases),
    Wrong,
}

/// What a group that was read belongs to: the head of an item, which stands on the line of this number, or a case, whose
/// value was read.
#[derive(Drop)]
pub enum Frame {
    Head(Items, u32, Head),
    Case(Cases, Said),
}
