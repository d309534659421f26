//! For who writes rules: prints what a rulebase declares, lists its errors in words, or prints it as one file.
#![tactic(auto)]

use opa_io::{FileShelf, Gathered, Status, StdSink, flushed};
use opa_rules::rules;
use std::io::ErrorKind;
use std::process::ExitCode;
use std::rt::Env;
use std::{env, io};

/// The words of the command line: none if one of them isn't text, so that the answer is that for wrong words.
fn words(rt: &(impl Env + AllocGlobal)) -> io::Result<Vec<String>> {
    match env::args(rt) {
        Ok(args) => Ok(args.collect(rt.alloc())?),
        Err(error) if error.kind() == ErrorKind::InvalidData => Ok(Vec::new(rt.alloc())),
        Err(error) => Err(error),
    }
}

/// Does what the words say.
fn done(rt: &HostRuntime, words: &[String]) -> Status {
    let mut shelf = FileShelf::new(rt);
    let mut out = Gathered::new(rt.alloc(), StdSink::new(rt.stdout()));
    let status = rules(rt.alloc(), words, &mut shelf, &mut out);
    flushed(status, &mut out)
}

fn main(rt: HostRuntime) -> ExitCode {
    let Ok(words) = words(&rt) else {
        return ExitCode::from(Status::NoMemory.number());
    };
    let status = done(&rt, &words);
    ExitCode::from(status.number())
}
