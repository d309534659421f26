// Why no rulebase is loaded.
ghost use Rattle.std.specs.Prelude.{◌≡◌};
ghost use Rattle.opa_rulebase.specs.declared.fault.Unaccepted.TheVariants as unaccepted;
ghost use Rattle.opa_rulebase.specs.declared.fault.LoadError.TheVariants as load;

use opa_io::{List, NoMemory, Txt};
use opa_tree::RbFault;

/// The first fault of files, and the phrases of the attributes of its circle.
#[derive(Debug, Drop)]
pub struct Refusal {
    pub fault: RbFault,
    pub circle: List<Txt>,
}

/// Why files aren't a rulebase.
#[derive(Debug, Drop)]
pub enum Unaccepted {
    Refused(Refusal),
    NoMemory,
}

impl From<NoMemory> for Unaccepted {
    ghost from_gives = { λ _ e. e ≡ unaccepted.NoMemory };

    fn from(_: NoMemory) -> Self {
        Unaccepted::NoMemory
    }
}

/// Why no rulebase is loaded: it is refused, with the text that is printed, or a file couldn't be taken.
#[derive(Debug, Drop)]
pub enum LoadError {
    Refused { fault: RbFault, text: Txt },
    ReadFault,
    NoMemory,
}

impl From<NoMemory> for LoadError {
    ghost from_gives = { λ _ e. e ≡ load.NoMemory };

    fn from(_: NoMemory) -> Self {
        LoadError::NoMemory
    }
}
