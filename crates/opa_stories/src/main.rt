//! Plays the stories that standard input names, one a line, and says of each whether it passed. A story is a text file of
//! `data/`; its form stands in docs/TESTING.md.
#![tactic(auto)]

mod numbers;
mod play;
mod reader;
mod spelled;
mod story;
mod tell;

use opa_io::{FileShelf, Shelf, Status, StdSink, write_all_of};
use play::play;
use reader::read_story;
use std::alloc::Global;
use std::io;
use std::process::ExitCode;
use story::Fault;
use tell::{count_text, verdict};

/// How many bytes a story's file has at most.
const MOST: u64 = 1_048_576;

/// Reads the story of this name, plays it, and tells how it went.
fn told<F: Shelf>(alloc: Global, shelf: &mut F, name: &str) -> Result<String, Fault> {
    let file = format!(in alloc; "stories/{name}.txt")?;
    let Ok(bytes) = shelf.take(alloc, file.as_str(), MOST) else {
        return Err(Fault::Missing);
    };
    let story = read_story(alloc, shelf, &bytes)?;
    let found = play(alloc, &story);
    drop(story);
    Ok(verdict(alloc, found?)?)
}

/// Plays each story that a line of standard input names. Answers how many passed, and how many failed.
fn play_all(rt: &HostRuntime) -> io::Result<(u64, u64)> {
    let alloc = rt.alloc();
    let mut shelf = FileShelf::new(rt);
    let mut out = StdSink::new(rt.stdout());
    let mut passed = 0u64;
    let mut failed = 0u64;
    for line in rt.lines(alloc) {
        let name = line?;
        let said = match told(alloc, &mut shelf, name.as_str()) {
            Ok(text) => text,
            Err(fault) => fault.text(alloc)?,
        };
        if said.as_str() == "passed" {
            passed = passed.saturating_add(1);
        } else {
            failed = failed.saturating_add(1);
        }
        let name = name.as_str();
        let said = said.as_str();
        let text = format!(in alloc; "{name}: {said}\n")?;
        let _ = write_all_of(&mut out, text.as_bytes());
    }
    let text = count_text(alloc, passed, failed)?;
    let _ = write_all_of(&mut out, text.as_bytes());
    Ok((passed, failed))
}

fn main(rt: HostRuntime) -> ExitCode {
    match play_all(&rt) {
        Ok((_, 0)) => ExitCode::from(Status::Done.number()),
        Ok(_) => ExitCode::from(Status::Refused.number()),
        Err(_) => ExitCode::from(Status::NoMemory.number()),
    }
}
