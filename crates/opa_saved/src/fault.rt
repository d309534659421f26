// Why a saved case isn't loaded.
ghost use Rattle.std.specs.Prelude.{◌≡◌};
ghost use Rattle.opa_saved.specs.Faults.{fault_number};
ghost use Rattle.opa_saved.specs.declared.fault.LoadFault.TheVariants.{NoMemory as no_memory};

use opa_io::NoMemory;
use thiserror::Error;

#[derive(Clone, Copy, Debug, PartialEq, Eq, Error)]
pub enum LoadFault {
    #[error("no JSON value")]
    NotJson,
    #[error("not of a saved case's form")]
    Shape,
    #[error("a name that nothing here has")]
    Name,
    #[error("a value of another kind")]
    Kind,
    #[error("a value or a list out of range")]
    Range,
    #[error("more than the limits allow")]
    Limit,
    #[error("no memory")]
    NoMemory,
}

impl From<NoMemory> for LoadFault {
    ghost from_gives = { λ _ e. e ≡ no_memory };

    fn from(_failed: NoMemory) -> LoadFault {
        LoadFault::NoMemory
    }
}

impl LoadFault {
    /// The number that is printed: 1 to 6, and 0 for want of memory, which is never printed.
    pub fn number(self) -> u8
        ensures { result ≡ fault_number self }
    {
        match self {
            LoadFault::NotJson => 1,
            LoadFault::Shape => 2,
            LoadFault::Name => 3,
            LoadFault::Kind => 4,
            LoadFault::Range => 5,
            LoadFault::Limit => 6,
            LoadFault::NoMemory => 0,
        }
    }
}
