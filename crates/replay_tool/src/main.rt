//! The program: the words that it was called with, its streams, its crew and its record, and the status that it ends with. What it does is
//! the one call `pessral`.
#![tactic(auto)]

ghost use Rattle.std.specs.Prelude.{◌≡◌};
ghost use Rattle.std.specs.Process.{exit_status};

use lift_base::{Kind, Override};
use lift_io::{Sink, Source, StdSink, StdSource};
use lift_promise::{Outcome, pessral};
use record_disk::{Disk, FileDisk};
use saboteur::{Crew, Deed, Echo, Invert, Saboteur, Tape};
use std::alloc::{AllocError, Global};
use std::io::ErrorKind;
use std::process::ExitCode;
use std::thread::Threads;
use std::{env, io};

// The words that the program was called with, without its name.
fn words(rt: &HostRuntime) -> io::Result<Vec<String>> {
    let mut words = Vec::new(rt.alloc());
    for word in env::args(rt)?.skip(1) {
        words.push(word)?;
    }
    Ok(words)
}

// The process ends with the status of the call.
fn exit_code(outcome: &Outcome) -> ExitCode
    ensures { exit_status result ≡ outcome.now.status }
{
    ExitCode::from(outcome.status)
}

// The object of place 0 acts once: it publishes all ones, and closes its contactor.
const ALL_ONES: Deed = Deed {
    publish: Some(u64::MAX),
    command: None,
    contactor: Override::Force(Kind::Full),
};

// Calls the tool with a crew of three.
fn call<R: Threads, S: Source, K: Sink, D: Disk>(
    rt: &R,
    alloc: Global,
    words: &[String],
    source: &mut S,
    sink: &mut K,
    disk: &mut D,
) -> Result<ExitCode, AllocError> {
    let tape: Box<dyn Saboteur + Send> = Box::new(
        alloc,
        Tape::of(Vec::from_slice(alloc, &[ALL_ONES])?),
    )?;
    let echo: Box<dyn Saboteur + Send> = Box::new(alloc, Echo)?;
    let invert: Box<dyn Saboteur + Send> = Box::new(alloc, Invert)?;
    let places = [Some(tape), Some(echo), Some(invert)];
    let crew = Crew::of(Vec::from_array(alloc, places)?);
    let outcome = pessral(rt, alloc, words, source, sink, crew, disk);
    Ok(exit_code(&outcome))
}

// The record stands in the folder that the program is run in.
fn record_of(rt: &HostRuntime) -> Result<FileDisk<HostRuntime>, AllocError> {
    let path = String::from_str(rt.alloc(), "lift.rec")?;
    Ok(FileDisk::of(rt.clone()?, path))
}

fn main(rt: HostRuntime) -> ExitCode {
    let words = match words(&rt) {
        Ok(words) => words,
        Err(error) if error.kind() == ErrorKind::OutOfMemory => return ExitCode::from(1),
        Err(_) => return ExitCode::from(15),
    };
    let mut source = StdSource::of(rt.stdin());
    let mut sink = StdSink::of(rt.stdout());
    let mut disk = match record_of(&rt) {
        Ok(disk) => disk,
        Err(AllocError) => return ExitCode::from(1),
    };
    match call(&rt, rt.alloc(), &words, &mut source, &mut sink, &mut disk) {
        Ok(code) => code,
        Err(AllocError) => ExitCode::from(1),
    }
}
