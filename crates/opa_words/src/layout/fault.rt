// Why a text has no layout.
ghost use Rattle.std.specs.Prelude.{◌≡◌};
ghost use Rattle.opa_words.specs.declared.layout.fault.LayoutFault.TheVariants as faults;

use opa_io::NoMemory;
use std::alloc::AllocFailed;
use thiserror::Error;

/// The number of the line is counted from 1.
#[derive(Clone, Copy, Debug, PartialEq, Eq, Error)]
pub enum LayoutFault {
    #[error("line {0} has a wrong indentation")]
    Indent(u32),
    #[error("line {0} is too long or too deep")]
    Limit(u32),
    #[error("out of memory")]
    NoMemory,
}

impl From<NoMemory> for LayoutFault {
    ghost from_gives = { λ _ e. e ≡ faults.NoMemory };

    fn from(_: NoMemory) -> LayoutFault {
        LayoutFault::NoMemory
    }
}

impl<T: Drop> From<AllocFailed<T>> for LayoutFault {
    ghost from_gives = { λ _ e. e ≡ faults.NoMemory };

    fn from(_: AllocFailed<T>) -> LayoutFault {
        LayoutFault::NoMemory
    }
}
