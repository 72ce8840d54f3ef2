//! The program `m386`: it runs an image of a shared-memory machine of 80386 processors, and writes the report or a line.
#![tactic(auto)]

mod assembling;
mod input;
mod laws;
mod perform;
mod run;
mod same;
mod soak;
mod status;
mod tell;
#[cfg(test)]
mod tests;
mod top;

use crate::status::Status;
use crate::tell::tell;
use crate::top::top;
use m386_edge::gate::OpenGate;
use m386_edge::std_sink::StdSink;
use m386_edge::std_source::StdSource;
use m386_edge::writing::write_whole;
use std::io::ErrorKind;
use std::process::ExitCode;
use std::{env, io};

/// The exit status where the words of the call can't be had as text.
const WORDS_UNREADABLE: u8 = 11;

/// The words of the call behind the program's name.
fn words_of(rt: &HostRuntime) -> io::Result<Vec<String>> {
    let mut words = Vec::new(rt.alloc());
    for word in env::args(rt)?.skip(1) {
        words.push(word)?;
    }
    Ok(words)
}

fn main(rt: HostRuntime) -> ExitCode {
    let mut source = StdSource::new(rt.stdin());
    let mut out = StdSink::new(rt.stdout());
    let mut err = StdSink::new(rt.stderr());
    let words = match words_of(&rt) {
        Ok(words) => words,
        Err(error) if error.kind() == ErrorKind::OutOfMemory => {
            let _ = tell(&mut err, Status::Memory);
            return ExitCode::from(Status::Memory.number());
        }
        Err(_) => {
            let _ = write_whole(&mut err, b"m386: words unreadable\n");
            return ExitCode::from(WORDS_UNREADABLE);
        }
    };
    let status = top(
        &rt,
        rt.alloc(),
        words.as_slice(),
        &mut source,
        &mut out,
        &mut err,
        &OpenGate,
    );
    ExitCode::from(status.number())
}
