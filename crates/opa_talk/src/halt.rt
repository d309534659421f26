// Why a talk halts before its end.
ghost use Rattle.std.specs.Prelude.{◌≡◌};
ghost use Rattle.opa_talk.specs.declared.halt.Halt.TheVariants as halt;

use opa_io::NoMemory;
use std::alloc::{AllocError, AllocFailed};

/// Why a talk halts before its end: the source or the sink failed, taking or keeping a file failed, there was no memory,
/// or the input is too long.
#[derive(Clone, Copy, Debug, PartialEq, Eq)]
pub enum Halt {
    Input,
    Output,
    Take,
    Keep,
    Memory,
    Limit,
}

impl From<NoMemory> for Halt {
    ghost from_gives = { λ _ e. e ≡ halt.Memory };

    fn from(_: NoMemory) -> Self {
        Halt::Memory
    }
}

impl From<AllocError> for Halt {
    ghost from_gives = { λ _ e. e ≡ halt.Memory };

    fn from(_: AllocError) -> Self {
        Halt::Memory
    }
}

impl<T: Drop> From<AllocFailed<T>> for Halt {
    ghost from_gives = { λ _ e. e ≡ halt.Memory };

    fn from(_: AllocFailed<T>) -> Self {
        Halt::Memory
    }
}
