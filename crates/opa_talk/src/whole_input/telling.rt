// A text is written.
ghost use Rattle.std.specs.Prelude.{◌≡◌};
ghost use Rattle.opa_talk.specs.WholeInput.Telling.{IsTold};

use opa_io::{Sink, Status, write_all_of};

/// Writes a text, and answers how that ended.
pub fn tell<K: Sink>(good: Status, out: &mut K, text: &[u8]) -> Status
    ensures { IsTold good text.now (K.written out.old) (K.written out.new) (K.faults out.old)
        (K.faults out.new) result }
{
    match write_all_of(out, text) {
        Ok(()) => good,
        Err(_) => Status::WriteFault,
    }
}
