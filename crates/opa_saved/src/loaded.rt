// What is loaded.
use opa_case::Case;

/// What is loaded: a case, and where it comes from.
#[derive(Drop)]
pub struct Loaded {
    pub case: Case,
    pub origin: Origin,
}

/// Where a case comes from: version 2 of this model, of another one, or version 1.
#[derive(Clone, Copy, Debug, PartialEq, Eq)]
pub enum Origin {
    Same,
    Other,
    First,
}
