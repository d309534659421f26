// What is kept of a case.
use opa_case::Case;
use opa_io::{List, Txt};

/// A case with how many slots its last change reached.
#[derive(Drop)]
pub struct KeptCase {
    pub case: Case,
    pub reached: u64,
}

/// A case that is open: it stands on what was kept for suppositions, the last one last.
#[derive(Drop)]
pub struct OpenCase {
    pub case: Case,
    pub reached: u64,
    pub pile: List<KeptCase>,
}

/// The case that a session holds: its name, the number of slots that its last change reached, and what was kept of it for
/// suppositions.
#[derive(Drop)]
pub struct Current {
    pub name: Txt,
    pub reached: u64,
    pub pile: List<KeptCase>,
}
