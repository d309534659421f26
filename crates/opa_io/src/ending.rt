// How a run ends whose output is passed on last of all.
ghost use Rattle.std.specs.Prelude.{◌≡◌, ◌⊎◌};
ghost use Rattle.std.specs.Io.KnownBytes.{Keeps};
ghost use Rattle.opa_io.specs.declared.fault.Status.TheVariants as statuses;
ghost use Rattle.opa_io.specs.Outside.{Rose};

use crate::{Sink, Status};

/// Passes on what a sink holds back, and answers how the run ended then: as it did, or as one that couldn't write.
pub fn flushed<K: Sink>(status: Status, out: &mut K) -> Status
    ensures status { (result ≡ status) ⊎ ((result ≡ statuses.WriteFault) × Rose (K.faults out.old) (K.faults out.new)) }
    ensures bytes { Keeps (K.written out.old) (K.written out.new) }
{
    match out.flush() {
        Ok(()) => status,
        Err(_) => Status::WriteFault,
    }
}
