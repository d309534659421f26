// A source and a sink in memory. They tell their contents, and fail at the calls that a test names.
ghost use Rattle.std.specs.Prelude.{◌≡◌, ◌<◌, ◌≤◌, [], length, drop, vec_len, Some};

use crate::{Failed, Sink, Source};
use std::alloc::Global;

/// Bytes to read, at most so many a call. The calls with these numbers, from 1, fail.
#[derive(Drop)]
pub struct MemSource {
    bytes: Vec<u8>,
    at: usize,
    fails: Vec<u64>,
    piece: usize,
    calls: u64,
    faults: u64,
    ghost within: { at ≤ vec_len bytes },
    ghost some: { 0 < piece },
}

impl MemSource {
    pub fn new(bytes: Vec<u8>, fails: Vec<u64>, piece: usize) -> MemSource
        requires { 0 < piece }
        ensures left { ⟦<MemSource as Source>⟧.left result ≡ Some bytes.items }
        ensures faults { ⟦<MemSource as Source>⟧.faults result ≡ 0 }
    {
        MemSource {
            bytes,
            at: 0,
            fails,
            piece,
            calls: 0,
            faults: 0,
        }
    }
}

impl Source for MemSource {
    ghost left = { λ s. Some (drop s.at s.bytes.items) };

    ghost faults = { λ s. s.faults };

    fn read(&mut self, buf: &mut [u8]) -> Result<usize, Failed> {
        self.calls = self.calls.saturating_add(1);
        if self.fails.contains(&self.calls) {
            self.faults = self.faults.saturating_add(1);
            return Err(Failed);
        }
        let count = buf.len().min(self.piece).min(self.bytes.len() - self.at);
        buf[..count].copy_from_slice(&self.bytes[self.at..self.at + count]);
        self.at += count;
        Ok(count)
    }
}

/// What was written, at most so many bytes a call. The calls with these numbers, from 1, fail.
#[derive(Drop)]
pub struct MemSink {
    bytes: Vec<u8>,
    fails: Vec<u64>,
    piece: usize,
    calls: u64,
    faults: u64,
    ghost some: { 0 < piece },
}

impl MemSink {
    pub fn new(alloc: Global, fails: Vec<u64>, piece: usize) -> MemSink
        requires { 0 < piece }
        ensures written { ⟦<MemSink as Sink>⟧.written result ≡ Some [] }
        ensures faults { ⟦<MemSink as Sink>⟧.faults result ≡ 0 }
    {
        MemSink {
            bytes: Vec::new(alloc),
            fails,
            piece,
            calls: 0,
            faults: 0,
        }
    }

    /// What was written.
    pub fn bytes(&self) -> &[u8]
        ensures { ⟦<MemSink as Sink>⟧.written self.now ≡ Some result.now }
    {
        &self.bytes
    }
}

impl Sink for MemSink {
    ghost written = { λ s. Some s.bytes.items };

    ghost faults = { λ s. s.faults };

    fn write(&mut self, piece: &[u8]) -> Result<usize, Failed> {
        self.calls = self.calls.saturating_add(1);
        let count = piece.len().min(self.piece);
        if self.fails.contains(&self.calls)
            || self.bytes.extend_from_slice(&piece[..count]).is_err()
        {
            self.faults = self.faults.saturating_add(1);
            return Err(Failed);
        }
        Ok(count)
    }

    fn flush(&mut self) -> Result<(), Failed> {
        Ok(())
    }
}
