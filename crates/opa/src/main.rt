//! Reads a rulebase, and carries out the commands of standard input over it.
#![tactic(auto)]

ghost use Rattle.std.specs.Prelude.{◌≡◌, ◌<◌};

use opa_io::{FileShelf, Gathered, List, NoMemory, Status, StdSink, StdSource, Steps, flushed};
use opa_listen::{Journal, Listener, Watch};
use opa_model::AttrId;
use opa_top::run;
use std::alloc::Global;
use std::io::ErrorKind;
use std::marker::Brand;
use std::process::ExitCode;
use std::rt::Env;
use std::sync::ledger::{Blank, Ledger};
use std::{env, io};

/// The words of the command line: none if one of them isn't text, so that the answer is that for wrong words.
fn words(rt: &(impl Env + AllocGlobal)) -> io::Result<Vec<String>> {
    match env::args(rt) {
        Ok(args) => Ok(args.collect(rt.alloc())?),
        Err(error) if error.kind() == ErrorKind::InvalidData => Ok(Vec::new(rt.alloc())),
        Err(error) => Err(error),
    }
}

/// A watch on the first declared attribute.
fn watch(alloc: Global) -> Result<Watch, NoMemory> {
    let mut first = List::new(alloc);
    first.push(AttrId(0))?;
    Ok(Watch::new(alloc, first))
}

/// Does what the words say, and counts its steps on a ledger of its own.
fn counted<L: Ledger>(
    rt: &HostRuntime,
    blank: Blank,
    words: &[String],
    listeners: &mut Vec<Box<dyn Listener>>,
) -> Status
    requires name { blank.name ≡ L.name }
    requires parts { blank.parts ≡ L.parts }
    requires some { 0 < blank.parts }
{
    let mut steps: Steps<L> = Steps::open(blank);
    // The count shows that there are fewer than 2^64.
    let _count = listeners.len();
    let mut shelf = FileShelf::new(rt);
    let mut input = StdSource::new(rt.stdin());
    let mut out = Gathered::new(rt.alloc(), StdSink::new(rt.stdout()));
    let status = run(
        rt.alloc(),
        words,
        &mut shelf,
        &mut input,
        &mut out,
        listeners,
        &mut steps,
    );
    flushed(status, &mut out)
}

/// Does what the words say; a journal of all changes and a watch on the first declared attribute listen.
fn heard(rt: &HostRuntime, words: &[String]) -> Result<Status, NoMemory> {
    let alloc = rt.alloc();
    let mut listeners: Vec<Box<dyn Listener>> = Vec::new(alloc);
    listeners.push(Box::new(alloc, Journal::new(alloc))?)?;
    let watch = watch(alloc)?;
    listeners.push(Box::new(alloc, watch)?)?;
    Ok(counted::<Brand>(rt, Blank::new(1), words, &mut listeners))
}

fn main(rt: HostRuntime) -> ExitCode {
    let Ok(words) = words(&rt) else {
        return ExitCode::from(Status::NoMemory.number());
    };
    let status = heard(&rt, &words).unwrap_or(Status::NoMemory);
    ExitCode::from(status.number())
}
