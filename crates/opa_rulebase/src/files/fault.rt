// Why the files of a rulebase can't be read.
ghost use Rattle.std.specs.Prelude.{◌≡◌};
ghost use Rattle.opa_rulebase.specs.declared.files.fault.TakeError.TheVariants as errors;

use opa_io::{NoMemory, Txt};
use opa_tree::RbFault;
use std::alloc::AllocError;

/// The first fault of the files, and the name of the file that has it.
#[derive(Debug, Drop)]
pub struct Unread {
    pub fault: RbFault,
    pub name: Txt,
}

/// Why there are no files: one is refused, or the shelf failed.
#[derive(Debug, Drop)]
pub enum TakeError {
    Refused(Unread),
    ReadFault,
    NoMemory,
}

impl From<NoMemory> for TakeError {
    ghost from_gives = { λ _ e. e ≡ errors.NoMemory };

    fn from(_: NoMemory) -> Self {
        TakeError::NoMemory
    }
}

impl From<AllocError> for TakeError {
    ghost from_gives = { λ _ e. e ≡ errors.NoMemory };

    fn from(_: AllocError) -> Self {
        TakeError::NoMemory
    }
}
