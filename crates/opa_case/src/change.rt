// What may be asked of a case, and why it is refused.
ghost use Rattle.std.specs.Prelude.{◌≡◌};
ghost use Rattle.opa_case.specs.Refusals.{number_of};
ghost use Rattle.opa_case.specs.declared.change.Refusal.TheVariants as refusals;

use opa_cells::InstanceId;
use opa_io::{List, NoMemory, Txt};
use opa_line::Line;
use opa_model::{AttrId, RelId};
use opa_value::Value;

/// A change of a case. The lists' names are in the order in which they stand.
#[derive(Debug, Drop)]
pub enum ChangeCommand {
    Answer(AttrId, InstanceId, Line<Value>),
    Withdraw(AttrId, InstanceId),
    SetList(RelId, InstanceId, List<Txt>),
    Forget(RelId, InstanceId),
}

/// Why a change is refused.
#[derive(Clone, Copy, Debug, PartialEq, Eq)]
pub enum Refusal {
    Name,
    Kind,
    Range,
    Limit,
    NoMemory,
}

impl From<NoMemory> for Refusal {
    ghost from_gives = { λ _ e. e ≡ refusals.NoMemory };

    fn from(_: NoMemory) -> Refusal {
        Refusal::NoMemory
    }
}

impl Refusal {
    /// The number that is printed: 1 to 4, and 0 for want of memory, which is never printed.
    pub fn number(self) -> u8
        ensures { result ≡ number_of self }
    {
        match self {
            Refusal::Name => 1,
            Refusal::Kind => 2,
            Refusal::Range => 3,
            Refusal::Limit => 4,
            Refusal::NoMemory => 0,
        }
    }
}
