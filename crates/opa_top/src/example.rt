// A generated example in memory. Its input never fails, and its shelf fails only if memory runs out while it keeps a file.
ghost use Rattle.std.specs.Prelude.{◌≡◌, ◌≤◌, false, drop, vec_len, Some};

use opa_io::{Failed, MemShelf, Shelf, Sink, Source, TakeFault};
use std::alloc::Global;

/// How many bytes are read at once.
const PIECE: usize = 4_096;

/// The lines of an example.
#[derive(Drop)]
pub(crate) struct ExampleInput {
    bytes: Vec<u8>,
    at: usize,
    ghost within: { at ≤ vec_len bytes },
}

impl ExampleInput {
    pub(crate) fn new(bytes: Vec<u8>) -> ExampleInput
        ensures { ⟦<ExampleInput as Source>⟧.left result ≡ Some bytes.items }
    {
        ExampleInput { bytes, at: 0 }
    }
}

impl Source for ExampleInput {
    ghost left = { λ s. Some (drop s.at s.bytes.items) };

    ghost faults = { λ s. 0 };

    fn read(&mut self, buf: &mut [u8]) -> Result<usize, Failed> {
        let count = buf.len().min(PIECE).min(self.bytes.len() - self.at);
        buf[..count].copy_from_slice(&self.bytes[self.at..self.at + count]);
        self.at += count;
        Ok(count)
    }
}

/// The files of an example, and those that its lines keep.
#[derive(Drop)]
pub(crate) struct ExampleShelf {
    files: MemShelf,
    lacks: u64,
}

impl ExampleShelf {
    pub(crate) fn new(files: MemShelf) -> ExampleShelf
        ensures { ⟦<ExampleShelf as Shelf>⟧.files result ≡ ⟦<MemShelf as Shelf>⟧.files files }
    {
        ExampleShelf { files, lacks: 0 }
    }

    /// Whether memory ran out while a file was kept.
    pub(crate) fn has_lacked(&self) -> bool
        ensures { result ≡ false → ⟦<ExampleShelf as Shelf>⟧.keep_faults self.now ≡ 0 }
    {
        self.lacks > 0
    }
}

impl Shelf for ExampleShelf {
    ghost files = { λ s. ⟦<MemShelf as Shelf>⟧.files s.files };

    ghost take_faults = { λ s. 0 };

    ghost keep_faults = { λ s. s.lacks };

    fn take(&mut self, alloc: Global, name: &str, most: u64) -> Result<Vec<u8>, TakeFault> {
        match self.files.take(alloc, name, most) {
            Err(TakeFault::Failed) => Err(TakeFault::NoMemory),
            taken => taken,
        }
    }

    fn keep(&mut self, name: &str, bytes: &[u8]) -> Result<(), Failed> {
        let kept = self.files.keep(name, bytes);
        if kept.is_err() {
            self.lacks = self.lacks.saturating_add(1);
        }
        kept
    }
}
