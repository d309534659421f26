// With which status a program ends whose talk is over, or halted.
ghost use Rattle.std.specs.Prelude.{◌≡◌};
ghost use Rattle.opa_talk.specs.Halt.{end_of};

use crate::Halt;
use opa_io::Status;

/// The status of a program whose talk ended so, or halted.
pub fn end_of(talked: Result<(), Halt>) -> Status
    ensures { result ≡ end_of talked }
{
    match talked {
        Ok(()) => Status::Done,
        Err(Halt::Input) => Status::ReadFault,
        Err(Halt::Output) => Status::WriteFault,
        Err(Halt::Take) => Status::ReadFault,
        Err(Halt::Keep) => Status::WriteFault,
        Err(Halt::Memory) => Status::NoMemory,
        Err(Halt::Limit) => Status::InputLimit,
    }
}
