// What the lines of declaration blocks say.
use opa_io::{List, Txt};
use opa_model::Verb;

/// A line of a file.
#[derive(Clone, Copy, Debug, PartialEq, Eq)]
pub struct Place {
    pub file: u32,
    pub line: u32,
}

/// A name, and the line on which it stands.
#[derive(Debug, Drop)]
pub struct Name {
    pub place: Place,
    pub text: Txt,
}

/// A line `verb POS / NEG / ASK / REST`.
#[derive(Debug, Drop)]
pub struct VerbLine {
    pub place: Place,
    pub verb: Verb,
}

/// The lines `entity PHRASE` and `in PARENT: PHRASE`. Without a parent it is the global entity.
#[derive(Debug, Drop)]
pub struct EntityLines {
    pub phrase: Name,
    pub parent: Option<Name>,
    pub inside: Name,
}

/// SUBJECT, POS and REST of a line `bool SUBJECT [POS] REST`.
#[derive(Debug, Drop)]
pub struct Said {
    pub subject: Txt,
    pub positive: Txt,
    pub rest: Txt,
}

/// Between which numbers an answer lies, as counts of 1/10000, and how many decimals it may have.
#[derive(Clone, Copy, Debug, PartialEq, Eq)]
pub struct Bounds {
    pub least: i64,
    pub most: i64,
    pub decimals: u8,
}

/// What a line says of its attribute beside the phrase.
#[derive(Debug, Drop)]
pub enum Sort {
    Bool(Said),
    Number(Bounds),
    Currency(Bounds),
    Words,
    Date,
}

/// A line `bool`, `number`, `currency`, `text` or `date`, of a `global` block or of an `entity` block.
#[derive(Debug, Drop)]
pub struct AttributeLine {
    pub of_global: bool,
    pub phrase: Name,
    pub sort: Sort,
}

/// How many instances of the target a relation lists.
#[derive(Clone, Copy, Debug, PartialEq, Eq)]
pub enum Reach {
    One,
    Many,
    Every,
}

/// A line `reference PHRASE: one ENTITY`, `reference PHRASE: many ENTITY` or `every PHRASE: ENTITY`.
#[derive(Debug, Drop)]
pub struct RelationLine {
    pub of_global: bool,
    pub phrase: Name,
    pub target: Name,
    pub reach: Reach,
}

/// A line `screen TEXT` with the phrases below it.
#[derive(Debug, Drop)]
pub struct ScreenLines {
    pub title: Name,
    pub items: List<Name>,
}

/// What a line of a declaration block says, or two, or a screen's.
#[derive(Debug, Drop)]
pub enum Item {
    Verb(VerbLine),
    Entity(EntityLines),
    Attribute(AttributeLine),
    Relation(RelationLine),
    Goal(Name),
    Screen(ScreenLines),
    File(Name),
}
