// What a line of a block is to the grammar.
use opa_sentence::{Reading, Relation};

/// The word that a line ends with, where it joins lines or says what follows.
#[derive(Clone, Copy, Debug, PartialEq, Eq)]
pub enum Ending {
    Nothing,
    And,
    Or,
    If,
    Otherwise,
}

/// A line over a group: `all` or `both`, `any` or `either`, `it is not true that`, `for all of` and
/// `for at least one of` a relation.
#[derive(Clone, Copy, Debug, PartialEq, Eq)]
pub enum Head {
    All,
    Any,
    Not,
    ForAll(Relation),
    Exists(Relation),
}

/// A line of a block, cut: its level and number, its ending, and what stands before the ending: whether it is bare, what it
/// is as a head, and what it says as a line.
#[derive(Drop)]
pub struct Line {
    pub level: u32,
    pub number: u32,
    pub ending: Ending,
    pub is_bare: bool,
    pub head: Option<Head>,
    pub says: Option<Reading>,
}
