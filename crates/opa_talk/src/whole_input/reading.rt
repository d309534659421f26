// A whole input is read.
ghost use Rattle.std.specs.Prelude.{◌≡◌, ◌≤◌, ◌<◌, vec_len, IfOk, IfErr, OnErr};
ghost use Rattle.std.specs.Io.KnownBytes.{Keeps};
ghost use Rattle.opa_io.specs.declared.limits.TheConstants.{MOST_INPUT};
ghost use Rattle.opa_io.specs.Outside.{Reads, HasCause};
ghost use Rattle.opa_talk.specs.WholeInput.Reading.{ReadsAll, StopsReading, HasStopCause, Probes};

use crate::whole_input::stop::Stop;
use opa_io::limits::MOST_INPUT;
use opa_io::{Failed, Source};
use std::alloc::{AllocError, Global};

/// How many bytes are read at once.
const PIECE: usize = 65_536;

/// Reads the next bytes into a vector.
fn read_into<S: Source>(input: &mut S, buf: &mut Vec<u8>) -> Result<usize, Failed>
    ensures bytes { Reads (S.left input.old) (S.left input.new) result buf.new.items }
    ensures bound { IfOk result (λ n. n ≤ vec_len buf.new) }
    ensures cause { HasCause (S.faults input.old) (S.faults input.new) result }
    ensures len { vec_len buf.new ≡ vec_len buf.old }
{
    input.read(buf)
}

/// Asks for one more byte, and answers whether the input is at its end.
fn is_at_end<S: Source>(input: &mut S) -> Result<bool, Failed>
    ensures bytes { IfOk result (Probes (S.left input.old) (S.left input.new)) }
    ensures err { OnErr result (Keeps (S.left input.old) (S.left input.new)) }
    ensures cause { HasCause (S.faults input.old) (S.faults input.new) result }
{
    let mut last = [0];
    Ok(input.read(&mut last)? == 0)
}

/// Room for a piece.
fn buffer(alloc: Global) -> Result<Vec<u8>, AllocError>
    ensures { IfOk result (λ buf. 0 < vec_len buf) }
{
    vec![in alloc; 0; PIECE]
}

/// Reads an input to its end. Where it has as many bytes as an input may have, one more is asked for.
pub fn read_all<S: Source>(alloc: Global, input: &mut S) -> Result<Vec<u8>, Stop>
    ensures ok { IfOk result (λ v. ReadsAll MOST_INPUT (S.left input.old) (S.left input.new) v.items) }
    ensures err { IfErr result (StopsReading MOST_INPUT (S.left input.old) (S.left input.new)) }
    ensures cause { IfErr result (HasStopCause (S.faults input.old) (S.faults input.new)) }
    ensures later { S.faults input.old ≤ S.faults input.new }
{
    let mut bytes = Vec::new(alloc);
    let mut buf = buffer(alloc)?;
    let mut left = MOST_INPUT;
    while left > 0 {
        buf.truncate(left);
        let Ok(count) = read_into(input, &mut buf) else {
            return Err(Stop::Input);
        };
        if count == 0 {
            return Ok(bytes);
        }
        bytes.extend_from_slice(&buf[..count])?;
        left -= count;
    }
    let Ok(ended) = is_at_end(input) else {
        return Err(Stop::Input);
    };
    if ended { Ok(bytes) } else { Err(Stop::Limit) }
}
