//! Decides many cases over a rulebase: a batch of records from standard input, or a caseload of lines, each for the case that it names.
#![tactic(auto)]

ghost use Rattle.std.specs.Prelude.{◌≡◌, ◌<◌};

use opa_desk::desk;
use opa_io::{FileShelf, Gathered, Status, StdSink, StdSource, Steps, flushed};
use std::io::ErrorKind;
use std::marker::Brand;
use std::process::ExitCode;
use std::rt::Env;
use std::sync::ledger::{Blank, Ledger};
use std::{env, io};

/// The words of the command line: none if one of them isn't text, so that the answer is that for wrong words.
fn words(rt: &(impl Env + AllocGlobal)) -> io::Result<Vec<String>> {
    match env::args(rt) {
        Ok(args) => Ok(args.collect(rt.alloc())?),
        Err(error) if error.kind() == ErrorKind::InvalidData => Ok(Vec::new(rt.alloc())),
        Err(error) => Err(error),
    }
}

/// Does what the words say, and counts its steps on a ledger of its own.
fn counted<L: Ledger>(rt: &HostRuntime, blank: Blank, words: &[String]) -> Status
    requires name { blank.name ≡ L.name }
    requires parts { blank.parts ≡ L.parts }
    requires some { 0 < blank.parts }
{
    let mut steps: Steps<L> = Steps::open(blank);
    let mut shelf = FileShelf::new(rt);
    let mut input = StdSource::new(rt.stdin());
    let mut out = Gathered::new(rt.alloc(), StdSink::new(rt.stdout()));
    let status = desk(
        rt.alloc(),
        words,
        &mut shelf,
        &mut input,
        &mut out,
        &mut steps,
    );
    flushed(status, &mut out)
}

fn main(rt: HostRuntime) -> ExitCode {
    let Ok(words) = words(&rt) else {
        return ExitCode::from(Status::NoMemory.number());
    };
    let status = counted::<Brand>(&rt, Blank::new(1), &words);
    ExitCode::from(status.number())
}
