// The mode `print`.
ghost use Rattle.std.specs.Prelude.{◌≡◌};
ghost use Rattle.opa_rules.specs.Promises.{outside, Prints};

use crate::printing::printed;
use opa_io::{Shelf, Sink, Status};
use opa_rulebase::{LoadError, load_rulebase};
use opa_talk::tell;
use std::alloc::Global;

/// Writes the rulebase of this name as one file, or why it is refused.
pub(crate) fn print<F: Shelf, K: Sink>(
    alloc: Global,
    name: &str,
    shelf: &mut F,
    out: &mut K,
) -> Status
    ensures prints { Prints name.now (outside F.files F.take_faults K.written K.faults shelf.old out.old)
        (outside F.files F.take_faults K.written K.faults shelf.new out.new) result }
    ensures files { F.files shelf.new ≡ F.files shelf.old }
{
    match load_rulebase(alloc, shelf, name) {
        Ok(base) => {
            let text = printed(alloc, name, &base);
            drop(base);
            match text {
                Ok(Some(text)) => tell(Status::Done, out, text.as_slice()),
                Ok(None) => Status::InputLimit,
                Err(_) => Status::NoMemory,
            }
        }
        Err(error) => match error {
            LoadError::Refused { text, .. } => {
                tell(Status::Refused, out, text.as_str().as_bytes())
            }
            LoadError::ReadFault => Status::ReadFault,
            LoadError::NoMemory => Status::NoMemory,
        },
    }
}
