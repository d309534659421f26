// The mode `review`.
ghost use Rattle.std.specs.Prelude.{◌≡◌};
ghost use Rattle.opa_rules.specs.Promises.{outside, Reviews};
ghost use Rattle.opa_rules.specs.Reviewing.Findings as meant;

use crate::reviewing::{Form, shown};
use opa_io::{Shelf, Sink, Status};
use opa_rulebase::{LoadError, load_rulebase};
use opa_talk::tell;
use std::alloc::Global;

/// Writes what is worth a look in the rulebase of this name, in a form, or why it is refused.
pub(crate) fn review<F: Shelf, K: Sink>(
    alloc: Global,
    name: &str,
    form: Form,
    shelf: &mut F,
    out: &mut K,
) -> Status
    ensures reviews { Reviews name.now (outside F.files F.take_faults K.written K.faults shelf.old out.old)
        (outside F.files F.take_faults K.written K.faults shelf.new out.new) (meant.shown form) result }
    ensures files { F.files shelf.new ≡ F.files shelf.old }
{
    match load_rulebase(alloc, shelf, name) {
        Ok(base) => {
            let text = shown(alloc, &base, form);
            drop(base);
            match text {
                Ok(text) => tell(Status::Done, out, text.as_slice()),
                Err(_) => Status::NoMemory,
            }
        }
        Err(error) => match error {
            LoadError::Refused { text, .. } => {
                tell(Status::Refused, out, text.as_str().as_bytes())
            }
            LoadError::ReadFault => Status::ReadFault,
            LoadError::NoMemory => Status::NoMemory,
        },
    }
}
