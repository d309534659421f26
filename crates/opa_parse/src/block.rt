// What blocks say.
use crate::Said;
use opa_io::Txt;
use opa_model::{AttrId, RelId};

/// What a block is, by its first word.
#[derive(Clone, Copy, Debug, PartialEq, Eq)]
pub enum BlockSort {
    Declaration,
    Members,
    Rule,
}

/// How a rule begins: with words that conclude an attribute, if they are its phrase, and then `if`, a line, or cases.
#[derive(Clone, Copy, Debug, PartialEq, Eq)]
pub enum Opening {
    Nothing,
    If(Option<AttrId>),
    Is(Option<AttrId>),
    Cases(Option<AttrId>),
}

/// What a rule says: the attribute that it concludes, if it is declared, and from what.
#[derive(Drop)]
pub struct Statement {
    pub attr: Option<AttrId>,
    pub by_if: bool,
    pub said: Said,
}

/// A block that is a rule, at its first line: what it says, if it is spelled.
#[derive(Drop)]
pub struct RuleBlock {
    pub file: u32,
    pub line: u32,
    pub statement: Option<Statement>,
}

/// What a membership block says: the phrase of an inferred relation, the relation that it is taken from, if that is
/// declared with `every`, and what a member meets.
#[derive(Drop)]
pub struct Membership {
    pub phrase: Txt,
    pub every: Option<RelId>,
    pub said: Said,
}

/// A membership block, at its first line: what it says, if it is spelled.
#[derive(Drop)]
pub struct MemberBlock {
    pub file: u32,
    pub line: u32,
    pub membership: Option<Membership>,
}
