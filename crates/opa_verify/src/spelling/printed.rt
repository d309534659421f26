// What stands in a printed report, as texts: nothing of it is looked up.
use opa_io::{List, Txt};
use opa_model::Kind;
use opa_value::Value;

/// A phrase, and the name of the instance, which the global one lacks.
#[derive(Debug, Drop)]
pub struct Spot {
    pub phrase: Txt,
    pub name: Option<Txt>,
}

/// The rule of a file and a line, an answer, or the lack of one.
#[derive(Debug, Drop)]
pub enum Origin {
    Rule { file: Txt, line: u32 },
    Answer,
    Unanswered,
}

/// A point line with its first and last day, its value as one of a kind and its origin; a members line; a member line.
#[derive(Debug, Drop)]
pub enum Printed {
    Point {
        spot: Spot,
        first: u32,
        last: u32,
        kind: Kind,
        value: Value,
        origin: Origin,
    },
    Members {
        spot: Spot,
        names: Option<List<Txt>>,
    },
    Member {
        spot: Spot,
        name: Txt,
    },
}

/// What is printed: the point that is asked of, its day, and the lines.
#[derive(Debug, Drop)]
pub struct Spelled {
    pub asked: Spot,
    pub day: u32,
    pub printed: List<Printed>,
}
