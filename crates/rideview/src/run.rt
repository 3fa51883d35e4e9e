// Reads a script as `replay` does, and runs it with the same crew (own).
use crate::dump::dump_of;
use crate::read::read;
use crate::refused::Refused;
use crate::ride::{Ride, ride_of};
use lift_base::{Kind, Override};
use lift_io::{NoMemory, Source, StdSink};
use replay_engine::Engine;
use report::write_report;
use ride_lanes::{losses_of, moments_of};
use saboteur::{Crew, Deed, Echo, Invert, Saboteur, Tape};
use std::alloc::{AllocError, Global};
use std::thread::Threads;

// The object of place 0 acts once: it publishes all ones, and closes its contactor.
const ALL_ONES: Deed = Deed {
    publish: Some(u64::MAX),
    command: None,
    contactor: Override::Force(Kind::Full),
};

/// What there is to write of a ride.
#[derive(Drop)]
pub enum Told {
    /// Its data, and the lines of its report.
    Data(Ride, Vec<String>),
    Dump(String),
}

// The dump of a run.
fn dump_of_run(alloc: Global, engine: &Engine) -> Result<String, NoMemory> {
    let moments = moments_of(alloc, engine.script(), engine.run())?;
    let losses = losses_of(alloc, engine.run().path())?;
    dump_of(alloc, &moments, &losses)
}

fn tell(alloc: Global, engine: &Engine, dumps: bool) -> Result<Told, NoMemory> {
    if dumps {
        return Ok(Told::Dump(dump_of_run(alloc, engine)?));
    }
    let ride = ride_of(alloc, engine.script(), engine.run())?;
    Ok(Told::Data(ride, report_of(alloc, engine)?))
}

// Runs the script of the source with this crew.
fn run_with<R: Threads, S: Source>(
    rt: &R,
    alloc: Global,
    crew: Crew,
    source: &mut S,
    dumps: bool,
) -> Result<Told, Refused> {
    let script = read(alloc, &crew, source)?;
    let mut engine = Engine::open(alloc, script, crew)?;
    engine.run_all(rt);
    Ok(tell(alloc, &engine, dumps)?)
}

/// Runs the script of the source, with the crew of `replay`, of which the `AllocError` is one. The boxes are made here: a call that handed
/// them out would hide what their objects tell.
pub fn run_source<R: Threads, S: Source>(
    rt: &R,
    alloc: Global,
    source: &mut S,
    dumps: bool,
) -> Result<Result<Told, Refused>, AllocError> {
    let tape: Box<dyn Saboteur + Send> = Box::new(
        alloc,
        Tape::of(Vec::from_slice(alloc, &[ALL_ONES])?),
    )?;
    let echo: Box<dyn Saboteur + Send> = Box::new(alloc, Echo)?;
    let invert: Box<dyn Saboteur + Send> = Box::new(alloc, Invert)?;
    let places = [Some(tape), Some(echo), Some(invert)];
    let crew = Crew::of(Vec::from_array(alloc, places)?);
    Ok(run_with(rt, alloc, crew, source, dumps))
}

// A line of the report, whose bytes are ASCII.
fn line_of(alloc: Global, bytes: &[u8]) -> Result<String, AllocError> {
    let mut line = String::new(alloc);
    for byte in bytes {
        line.push(char::from(*byte))?;
    }
    Ok(line)
}

// The lines of the report of a run.
fn report_of(alloc: Global, engine: &Engine) -> Result<Vec<String>, NoMemory> {
    let mut text = Vec::new(alloc);
    let mut sink = StdSink::of(&mut text);
    match write_report(engine.run().path(), &mut sink) {
        Ok(()) => {}
        Err(_) => return Err(NoMemory),
    }
    let mut lines = Vec::new(alloc);
    for bytes in text.split(|byte| *byte == b'\n') {
        if bytes.len() > 0 {
            let line = line_of(alloc, bytes).map_err(|_| NoMemory)?;
            lines.push(line).map_err(|_| NoMemory)?;
        }
    }
    Ok(lines)
}
