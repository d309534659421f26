// Why a line is no command.
ghost use Rattle.std.specs.Prelude.{◌≡◌};
ghost use Rattle.opa_script.specs.declared.fault.CmdFault.TheVariants.{NoMemory as no_memory};

use opa_io::NoMemory;
use thiserror::Error;

#[derive(Clone, Copy, Debug, PartialEq, Eq, Error)]
pub enum CmdFault {
    #[error("no command has this shape")]
    NotACommand,
    #[error("nothing of the right sort has this name")]
    Name,
    #[error("what is given isn't read")]
    Value,
    #[error("no memory")]
    NoMemory,
}

impl From<NoMemory> for CmdFault {
    ghost from_gives = { λ _ e. e ≡ no_memory };

    fn from(_failed: NoMemory) -> CmdFault {
        CmdFault::NoMemory
    }
}
