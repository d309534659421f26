//! Measures single calls on large values: `opa_speed CALL NUMBER` makes a value of that many parts, calls, and prints how
//! many parts the answer has. What a call takes is the time of the program (docs/PERFORMANCE.md).
#![tactic(auto)]

mod lines;

use std::process::ExitCode;
use std::rt::Env;
use std::{env, io};

/// The words of the command line.
fn words(rt: &(impl Env + AllocGlobal)) -> io::Result<Vec<String>> {
    Ok(env::args(rt)?.collect(rt.alloc())?)
}

fn main(rt: HostRuntime) -> io::Result<ExitCode> {
    let words = words(&rt)?;
    let [_, call, number] = words.as_slice() else {
        println!(rt; "usage: opa_speed CALL NUMBER")?;
        return Ok(ExitCode::from(2));
    };
    let count = number.parse().unwrap_or(0u32).min(146_000);
    match lines::measured(rt.alloc(), call, count) {
        Some(parts) => {
            println!(rt; "{parts}")?;
            Ok(ExitCode::from(0))
        }
        None => Ok(ExitCode::from(1)),
    }
}
