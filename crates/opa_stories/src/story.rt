// What a story says.
use opa_io::NoMemory;
use std::alloc::{AllocError, AllocFailed, Global};

/// A file of a story.
#[derive(Drop)]
pub struct StoryFile {
    pub name: String,
    pub bytes: Vec<u8>,
}

/// The numbers, from 1, of the calls that fail.
#[derive(Drop)]
pub struct Failing {
    pub reads: Vec<u64>,
    pub writes: Vec<u64>,
    pub takes: Vec<u64>,
    pub keeps: Vec<u64>,
}

/// A whole run: what it is given, and what it must do.
#[derive(Drop)]
pub struct Story {
    pub words: Vec<String>,
    pub shelf: Vec<StoryFile>,
    pub input: Vec<u8>,
    pub prints: Option<Vec<u8>>,
    pub after: Vec<StoryFile>,
    pub gone: Vec<String>,
    pub status: u64,
    /// The number of the attribute that the second listener watches.
    pub watched: u32,
    /// The so-manieth request for room is refused by a third listener, which watches all attributes; 0 where there is none.
    pub refuses: u32,
    /// The most bytes that a read or a write moves.
    pub read: usize,
    pub written: usize,
    pub failing: Failing,
}

impl Story {
    /// A story that says nothing yet.
    pub fn new(alloc: Global) -> Story {
        Story {
            words: Vec::new(alloc),
            shelf: Vec::new(alloc),
            input: Vec::new(alloc),
            prints: None,
            after: Vec::new(alloc),
            gone: Vec::new(alloc),
            status: 0,
            watched: 0,
            refuses: 0,
            read: 4_096,
            written: 4_096,
            failing: Failing {
                reads: Vec::new(alloc),
                writes: Vec::new(alloc),
                takes: Vec::new(alloc),
                keeps: Vec::new(alloc),
            },
        }
    }
}

/// Why a story can't be played.
#[derive(Clone, Copy, Debug, Drop)]
pub enum Fault {
    /// Its file, or one that it puts on the shelf, can't be had.
    Missing,
    /// This line of it, from 1, has no meaning; 0 where it doesn't say what is printed.
    Line(u64),
    NoMemory,
}

impl From<NoMemory> for Fault {
    fn from(_error: NoMemory) -> Fault {
        Fault::NoMemory
    }
}

impl From<AllocError> for Fault {
    fn from(_error: AllocError) -> Fault {
        Fault::NoMemory
    }
}

impl<T: Drop> From<AllocFailed<T>> for Fault {
    fn from(_failed: AllocFailed<T>) -> Fault {
        Fault::NoMemory
    }
}

impl Fault {
    /// What is printed of it.
    pub fn text(self, alloc: Global) -> Result<String, AllocError> {
        match self {
            Fault::Missing => String::from_str(alloc, "FAILED: a file can't be had"),
            Fault::Line(0) => String::from_str(alloc, "FAILED: it doesn't say what is printed"),
            Fault::Line(line) => format!(in alloc; "FAILED: line {line} is no line of a story"),
            Fault::NoMemory => String::from_str(alloc, "FAILED: no memory"),
        }
    }
}
