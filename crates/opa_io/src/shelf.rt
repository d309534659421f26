// A shelf in memory. It tells its files, and fails at the calls that a test names.
ghost use Rattle.std.specs.Prelude.{◌≡◌, Some, IfOk, IfSome, OnOk, OnErr};
ghost use Rattle.std.specs.Option.{option_map};
ghost use Rattle.std.specs.FinMap as map;
ghost use Rattle.opa_io.specs.Memory.{entry_of, file_in, files_of};

use crate::{Failed, Shelf, TakeFault};
use std::alloc::{AllocError, Global};

/// Files, the newest first: the first of a name counts. The calls with these numbers, from 1, fail.
#[derive(Drop)]
pub struct MemShelf {
    alloc: Global,
    files: Vec<(String, Vec<u8>)>,
    take_fails: Vec<u64>,
    keep_fails: Vec<u64>,
    takes: u64,
    keeps: u64,
    take_faults: u64,
    keep_faults: u64,
}

/// The bytes of the first file of a name.
fn find<'a>(files: &'a [(String, Vec<u8>)], name: &str) -> Option<&'a [u8]>
    ensures first { option_map (λ bytes. bytes.now) result ≡ file_in files.now name.now }
    ensures filed { file_in files.now name.now ≡ map.get (files_of files.now) name.now }
{
    let mut rest = files;
    while let [(first, bytes), after @ ..] = rest {
        if name == first.as_str() {
            return Some(bytes.as_slice());
        }
        rest = after;
    }
    None
}

impl MemShelf {
    pub fn new(
        alloc: Global,
        files: Vec<(String, Vec<u8>)>,
        take_fails: Vec<u64>,
        keep_fails: Vec<u64>,
    ) -> MemShelf
        ensures files { ⟦<MemShelf as Shelf>⟧.files result ≡ Some (files_of files.items) }
        ensures take_faults { ⟦<MemShelf as Shelf>⟧.take_faults result ≡ 0 }
        ensures keep_faults { ⟦<MemShelf as Shelf>⟧.keep_faults result ≡ 0 }
    {
        MemShelf {
            alloc,
            files,
            take_fails,
            keep_fails,
            takes: 0,
            keeps: 0,
            take_faults: 0,
            keep_faults: 0,
        }
    }

    /// The bytes of a file, if its name is there.
    pub fn file(&self, name: &str) -> Option<&[u8]>
        ensures { IfSome (⟦<MemShelf as Shelf>⟧.files self.now)
            (λ files. option_map (λ bytes. bytes.now) result ≡ map.get files name.now) }
    {
        find(&self.files, name)
    }
}

/// A file with these bytes.
fn entry(alloc: Global, name: &str, bytes: &[u8]) -> Result<(String, Vec<u8>), AllocError>
    ensures { IfOk result (λ e. entry_of e ≡ (name.now, bytes.now)) }
{
    Ok((String::from_str(alloc, name)?, bytes.to_vec(alloc)?))
}

/// Puts a file before the others.
fn put(
    alloc: Global,
    files: &mut Vec<(String, Vec<u8>)>,
    name: &str,
    bytes: &[u8],
) -> Result<(), AllocError>
    ensures ok { OnOk result (files_of files.new.items ≡ map.insert (files_of files.old.items) name.now bytes.now) }
    ensures err { OnErr result (files.new.items ≡ files.old.items) }
{
    let file = entry(alloc, name, bytes)?;
    files.insert(0, file)?;
    Ok(())
}

impl Shelf for MemShelf {
    ghost files = { λ s. Some (files_of s.files.items) };

    ghost take_faults = { λ s. s.take_faults };

    ghost keep_faults = { λ s. s.keep_faults };

    fn take(&mut self, alloc: Global, name: &str, most: u64) -> Result<Vec<u8>, TakeFault> {
        self.takes = self.takes.saturating_add(1);
        if self.take_fails.contains(&self.takes) {
            self.take_faults = self.take_faults.saturating_add(1);
            return Err(TakeFault::Failed);
        }
        let Some(bytes) = find(&self.files, name) else {
            return Err(TakeFault::Missing);
        };
        if bytes.len() as u64 > most {
            return Err(TakeFault::TooLong);
        }
        Ok(bytes.to_vec(alloc)?)
    }

    fn keep(&mut self, name: &str, bytes: &[u8]) -> Result<(), Failed> {
        self.keeps = self.keeps.saturating_add(1);
        if self.keep_fails.contains(&self.keeps)
            || put(self.alloc, &mut self.files, name, bytes).is_err()
        {
            self.keep_faults = self.keep_faults.saturating_add(1);
            return Err(Failed);
        }
        Ok(())
    }
}
