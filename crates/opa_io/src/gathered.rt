// A sink that gathers what is written, and passes it on in large pieces.
ghost use Rattle.std.specs.Prelude.{◌≡◌, ◌≤◌, ◌++◌, [], length, vec_len, OnOk, MatchBool};
ghost use Rattle.std.specs.Io.KnownBytes.{Keeps};
ghost use Rattle.opa_io.specs.Outside.{HasCause};
ghost use Rattle.opa_io.specs.Gathering.{with_rest};

use crate::{Failed, Sink};
use std::alloc::Global;

/// The most bytes that are gathered.
const ROOM: usize = 65_536;

/// A sink over another one. It gathers what is written, and passes it on where there is no room for more, and when it is flushed.
/// What it holds back counts as written.
#[derive(Drop)]
pub struct Gathered<K: Sink> {
    inner: K,
    bytes: Vec<u8>,
    passed: usize,
    ghost within: { passed ≤ vec_len bytes },
}

impl<K: Sink> Gathered<K> {
    pub fn new(alloc: Global, inner: K) -> Gathered<K>
        ensures written { ⟦<Gathered<K> as Sink>⟧.written result ≡ K.written inner }
        ensures faults { ⟦<Gathered<K> as Sink>⟧.faults result ≡ K.faults inner }
    {
        Gathered {
            inner,
            bytes: Vec::new(alloc),
            passed: 0,
        }
    }
}

impl<K: Sink> Gathered<K> {
    /// Passes all on that it holds back.
    fn pass_all(&mut self) -> Result<(), Failed>
        ensures bytes { Keeps (with_rest (K.written self.old.inner) self.old.passed self.old.bytes.items)
            (with_rest (K.written self.new.inner) self.new.passed self.new.bytes.items) }
        ensures all { OnOk result (self.new.bytes.items ≡ []) }
        ensures cause { HasCause (K.faults self.old.inner) (K.faults self.new.inner) result }
    {
        pass_on(&mut self.inner, &self.bytes, &mut self.passed)?;
        self.passed = 0;
        self.bytes.clear();
        Ok(())
    }
}

impl<K: Sink> Sink for Gathered<K> {
    ghost written = { λ s. with_rest (K.written s.inner) s.passed s.bytes.items };

    ghost faults = { λ s. K.faults s.inner };

    fn write(&mut self, piece: &[u8]) -> Result<usize, Failed> {
        if gather(&mut self.bytes, piece) {
            return Ok(piece.len());
        }
        self.pass_all()?;
        self.inner.write(piece)
    }

    fn flush(&mut self) -> Result<(), Failed> {
        self.pass_all()?;
        self.inner.flush()
    }
}

/// Puts a piece behind the bytes, if there is room and memory for it.
fn gather(bytes: &mut Vec<u8>, piece: &[u8]) -> bool
    ensures { MatchBool result (bytes.new.items ≡ bytes.old.items ++ piece.now) (bytes.new.items ≡ bytes.old.items) }
{
    bytes.len() + piece.len() <= ROOM && bytes.extend_from_slice(piece).is_ok()
}

/// Passes the bytes from a place on to a sink, and moves the place as far as that went.
fn pass_on<K: Sink>(inner: &mut K, bytes: &[u8], passed: &mut usize) -> Result<(), Failed>
    requires within { passed.old ≤ length bytes.now }
    ensures bytes { Keeps (with_rest (K.written inner.old) passed.old bytes.now) (with_rest (K.written inner.new) passed.new bytes.now) }
    ensures within { passed.new ≤ length bytes.now }
    ensures all { OnOk result (passed.new ≡ length bytes.now) }
    ensures cause { HasCause (K.faults inner.old) (K.faults inner.new) result }
{
    while *passed < bytes.len() {
        let count = inner.write(&bytes[*passed..])?;
        *passed += count;
    }
    Ok(())
}
