// The head of a column.
ghost use Rattle.std.specs.Prelude.{◌≡◌};
ghost use Rattle.opa_batch.specs.declared.head.HeadFault.TheVariants as fault;

use opa_io::{List, NoMemory};
use std::alloc::{AllocError, AllocFailed};

/// What the cells of a column are: answers of an attribute, or the names of a relation.
#[derive(Clone, Copy, Debug, PartialEq, Eq)]
pub enum Sort {
    Answer,
    Names,
}

/// The head of a column: its text, which is a point, and what the cells below it are.
#[derive(Drop)]
pub struct Head {
    pub text: List<u8>,
    pub sort: Sort,
}

/// Why a cell of the heading is no head: it hasn't the shape of a point, its phrase names nothing, or there was no memory.
#[derive(Clone, Copy, Debug, PartialEq, Eq)]
pub enum HeadFault {
    Shape,
    Name,
    NoMemory,
}

impl From<NoMemory> for HeadFault {
    ghost from_gives = { λ _ e. e ≡ fault.NoMemory };

    fn from(_: NoMemory) -> Self {
        HeadFault::NoMemory
    }
}

impl From<AllocError> for HeadFault {
    ghost from_gives = { λ _ e. e ≡ fault.NoMemory };

    fn from(_: AllocError) -> Self {
        HeadFault::NoMemory
    }
}

impl<T: Drop> From<AllocFailed<T>> for HeadFault {
    ghost from_gives = { λ _ e. e ≡ fault.NoMemory };

    fn from(_: AllocFailed<T>) -> Self {
        HeadFault::NoMemory
    }
}
