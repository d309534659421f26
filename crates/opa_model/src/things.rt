// Declared things.
use crate::{AttrId, EntityId, RelId};
use opa_io::{List, Txt};

/// What the plain values of an attribute are. Number and currency are both numbers.
#[derive(Clone, Copy, Debug, PartialEq, Eq)]
pub enum Kind {
    Bool,
    Number,
    Currency,
    Words,
    Date,
}

/// The forms of a verb: `is`, `is not`, and the parts of a question before and behind its subject.
#[derive(Debug, Drop)]
pub struct Verb {
    pub positive: Txt,
    pub negative: Txt,
    pub ask: Txt,
    pub rest: Txt,
}

/// What a true-or-false attribute says. The verb is a place in the declared verbs.
#[derive(Debug, Drop)]
pub struct Sentence {
    pub subject: Txt,
    pub verb: u32,
    pub rest: Txt,
}

/// A sort of instances. Each of them lies in the list of an instance of the parent, by the containment relation.
/// The first entity's `contained` means nothing.
#[derive(Debug, Drop)]
pub struct Entity {
    pub phrase: Txt,
    pub parent: EntityId,
    pub contained: RelId,
}

/// What instances of an entity have a value of. `least` and `most` are counts of 1/10000 and bound answers alone. For a
/// kind other than number and currency they and `decimals` are 0.
#[derive(Debug, Drop)]
pub struct Attribute {
    pub entity: EntityId,
    pub kind: Kind,
    pub phrase: Txt,
    pub sentence: Option<Sentence>,
    pub least: i64,
    pub most: i64,
    pub decimals: u8,
}

/// What instances of the source list of the target: those that they contain, or those that they refer to. `every` holds
/// for a relation from the global instance to all instances of the target, wherever they are contained.
#[derive(Debug, Drop)]
pub struct Relation {
    pub phrase: Txt,
    pub source: EntityId,
    pub target: EntityId,
    pub contains: bool,
    pub one: bool,
    pub every: bool,
}

/// What a screen asks for.
#[derive(Clone, Copy, Debug, PartialEq, Eq)]
pub enum Item {
    Attr(AttrId),
    Members(RelId),
}

/// Questions that are shown together.
#[derive(Debug, Drop)]
pub struct Screen {
    pub title: Txt,
    pub items: List<Item>,
}
