// Why a text isn't read.
ghost use Rattle.std.specs.Prelude.{◌≡◌};
ghost use Rattle.opa_text.specs.declared.fault.ReadFault.TheVariants.{NoMemory as no_memory};

use opa_io::NoMemory;
use thiserror::Error;

#[derive(Clone, Copy, Debug, PartialEq, Eq, Error)]
pub enum ReadFault {
    #[error("not what is read here")]
    Value,
    #[error("no memory")]
    NoMemory,
}

impl From<NoMemory> for ReadFault {
    ghost from_gives = { λ _ e. e ≡ no_memory };

    fn from(_failed: NoMemory) -> ReadFault {
        ReadFault::NoMemory
    }
}
