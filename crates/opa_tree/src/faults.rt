// Why a rulebase is refused.
ghost use Rattle.std.specs.Prelude.{◌≡◌};
ghost use Rattle.opa_tree.specs.declared.faults.RbError.TheVariants as errors;
ghost use Rattle.opa_tree.specs.Faults.{number_of};

use opa_io::{List, NoMemory};
use opa_model::AttrId;
use std::alloc::AllocError;

/// What is wrong: the bytes of a file, the spelling, a name, an attribute that no enclosing instance reaches, a kind, a
/// thing that stands twice, a circle of rules, a limit, or a file that isn't there.
#[derive(Clone, Copy, Debug, PartialEq, Eq)]
pub enum RbKind {
    Bytes,
    Syntax,
    Name,
    Scope,
    Kind,
    Twice,
    Cycle,
    Limit,
    Missing,
}

impl RbKind {
    /// The number that is printed.
    pub fn number(self) -> u8
        ensures { result ≡ number_of self }
    {
        match self {
            RbKind::Bytes => 1,
            RbKind::Syntax => 2,
            RbKind::Name => 3,
            RbKind::Scope => 4,
            RbKind::Kind => 5,
            RbKind::Twice => 6,
            RbKind::Cycle => 7,
            RbKind::Limit => 8,
            RbKind::Missing => 9,
        }
    }
}

/// What is wrong, and where. The file is a place in the rulebase's files. The attributes are those of a circle.
#[derive(Debug, Drop)]
pub struct RbFault {
    pub file: u32,
    pub line: u32,
    pub kind: RbKind,
    pub cycle: List<AttrId>,
}

/// Why there is no rulebase.
#[derive(Debug, Drop)]
pub enum RbError {
    Refused(RbFault),
    NoMemory,
}

impl From<NoMemory> for RbError {
    ghost from_gives = { λ _ e. e ≡ errors.NoMemory };

    fn from(_: NoMemory) -> Self {
        RbError::NoMemory
    }
}

impl From<AllocError> for RbError {
    ghost from_gives = { λ _ e. e ≡ errors.NoMemory };

    fn from(_: AllocError) -> Self {
        RbError::NoMemory
    }
}
