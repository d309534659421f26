// Why an input isn't read to its end.
ghost use Rattle.std.specs.Prelude.{◌≡◌};
ghost use Rattle.opa_talk.specs.declared.whole_input.stop.Stop.TheVariants as stop;

use std::alloc::{AllocError, AllocFailed};

/// Why an input isn't read to its end: the source failed, there was no memory, or it has too many bytes.
#[derive(Clone, Copy, Debug, PartialEq, Eq)]
pub enum Stop {
    Input,
    Memory,
    Limit,
}

impl From<AllocError> for Stop {
    ghost from_gives = { λ _ e. e ≡ stop.Memory };

    fn from(_: AllocError) -> Self {
        Stop::Memory
    }
}

impl<T: Drop> From<AllocFailed<T>> for Stop {
    ghost from_gives = { λ _ e. e ≡ stop.Memory };

    fn from(_: AllocFailed<T>) -> Self {
        Stop::Memory
    }
}
