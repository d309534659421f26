// The files of the system, as a shelf. It tells no contents, and counts the errors of the system.
ghost use Rattle.std.specs.Prelude.{◌≡◌, ◌≤◌, length, IfOk, None};

use crate::{Failed, Shelf, TakeFault};
use arrayvec::ArrayString;
use std::alloc::Global;
use std::fs::Permissions;
use std::io::{ErrorKind, Read};
use std::rt::Files;
use std::{fs, io};

/// How many bytes are read at once.
const PIECE: usize = 8192;

/// What stands behind a name in the name of the file that is written beside it.
const BESIDE: &str = ".opa-saving";

/// Room for the name of the file beside: no path of the system is longer. It lies in an array, so that a file is set
/// without a request for memory.
const ROOM: usize = 4_096;

/// The files of the system. It stands for the place where the program runs.
#[derive(Drop)]
pub struct FileShelf<'a, R: Files + AllocGlobal> {
    rt: &'a R,
    take_faults: u64,
    keep_faults: u64,
}

impl<'a, R: Files + AllocGlobal> FileShelf<'a, R> {
    pub fn new(rt: &'a R) -> FileShelf<'a, R>
        ensures take_faults { ⟦<FileShelf<'a, R> as Shelf>⟧.take_faults result ≡ 0 }
        ensures keep_faults { ⟦<FileShelf<'a, R> as Shelf>⟧.keep_faults result ≡ 0 }
    {
        FileShelf {
            rt,
            take_faults: 0,
            keep_faults: 0,
        }
    }
}

/// Reads a file to its end, unless it has more bytes than these: then no further byte is read.
fn read_at_most(alloc: Global, file: &mut impl Read, most: u64) -> Result<Vec<u8>, TakeFault>
    ensures { IfOk result (λ bytes. length bytes.items ≤ most) }
{
    let mut bytes = Vec::new(alloc);
    let mut left = most;
    let mut buf = [0; PIECE];
    for _ in 0..u64::MAX {
        let Ok(count) = file.read(&mut buf) else {
            return Err(TakeFault::Failed);
        };
        if count == 0 {
            return Ok(bytes);
        }
        if count as u64 > left {
            return Err(TakeFault::TooLong);
        }
        bytes.extend_from_slice(&buf[..count])?;
        left -= count as u64;
    }
    Err(TakeFault::TooLong)
}

/// Writes a file that may be read and written by whom the file may whose place it is to take.
fn write_beside<R: Files>(
    rt: &R,
    beside: &str,
    bytes: &[u8],
    permissions: Option<Permissions>,
) -> io::Result<()> {
    if let Some(permissions) = permissions {
        fs::write(rt, beside, [].as_slice())?;
        fs::set_permissions(rt, beside, permissions)?;
    }
    fs::write(rt, beside, bytes)
}

/// The name of the file beside, unless it is longer than any path.
fn name_beside(name: &str) -> io::Result<ArrayString<ROOM>> {
    let mut beside = ArrayString::new();
    if beside.try_push_str(name).is_err() || beside.try_push_str(BESIDE).is_err() {
        return Err(io::Error::from(ErrorKind::InvalidFilename));
    }
    Ok(beside)
}

/// Sets a file to the bytes in one step: they are written beside the name, and that file then takes its place. A fault
/// or a cut in the middle leaves the old file as it was.
fn replace<R: Files + AllocGlobal>(
    rt: &R,
    name: &str,
    bytes: &[u8],
    permissions: Option<Permissions>,
) -> io::Result<()> {
    let beside = name_beside(name)?;
    let replaced = write_beside(rt, beside.as_str(), bytes, permissions).and_then(|()| fs::rename(
        rt,
        beside.as_str(),
        name,
    ));
    if replaced.is_err() {
        let _left = fs::remove_file(rt, beside.as_str());
    }
    replaced
}

/// Sets a file to the bytes. What can't be replaced (a device, a pipe, a link to another name) is written in place.
fn set<R: Files + AllocGlobal>(rt: &R, name: &str, bytes: &[u8]) -> io::Result<()> {
    match fs::symlink_metadata(rt, name) {
        Err(_) => replace(rt, name, bytes, None),
        Ok(found) => if found.is_file() {
            replace(rt, name, bytes, Some(found.permissions()))
        } else {
            fs::write(rt, name, bytes)
        },
    }
}

impl<'a, R: Files + AllocGlobal> Shelf for FileShelf<'a, R> {
    ghost files = { λ s. None };

    ghost take_faults = { λ s. s.take_faults };

    ghost keep_faults = { λ s. s.keep_faults };

    fn take(&mut self, alloc: Global, name: &str, most: u64) -> Result<Vec<u8>, TakeFault> {
        let taken = match fs::open(self.rt, name) {
            Ok(mut file) => read_at_most(alloc, &mut file, most),
            Err(error) => {
                if error.kind() == ErrorKind::NotFound {
                    Err(TakeFault::Missing)
                } else {
                    Err(TakeFault::Failed)
                }
            }
        };
        if taken.is_err() {
            self.take_faults = self.take_faults.saturating_add(1);
        }
        taken
    }

    fn keep(&mut self, name: &str, bytes: &[u8]) -> Result<(), Failed> {
        if set(self.rt, name, bytes).is_err() {
            self.keep_faults = self.keep_faults.saturating_add(1);
            return Err(Failed);
        }
        Ok(())
    }
}
