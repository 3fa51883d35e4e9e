//! Writes the script that a log of a CAN bus stands for. All of it is own.
#![tactic(auto)]

mod fault;
mod rows;
mod told;

ghost use Rattle.std.specs.Prelude.{◌≤◌};

use can_log::{Head, WireRow, log_script};
use clap::error::ErrorKind;
use clap::{Arg, ArgMatches, Command, Error, value_parser};
use fault::{Device, Fault};
use rows::read_rows;
use std::alloc::Global;
use std::io::{Read, Write};
use std::process::ExitCode;
use std::{env, fs, io};
use told::{interfaces, tell};

// What the program is called with.
fn command<'a>(alloc: Global) -> Result<Command<'a>, Error> {
    let head = Arg::new(alloc, "HEAD").required(true).help(
        "The file of the script's head; where it has no ticks, the log says how many",
    );
    let tick = Arg::new(alloc, "tick")
        .long("tick")
        .value_name("MILLISECONDS")
        .default_value("10")
        .value_parser(value_parser!(u32).range(1..=1000))
        .help("How long a tick lasts, 1 to 1000");
    let wires = Arg::new(alloc, "wires")
        .long("wires")
        .value_name("FILE")
        .help("The words of the wires: rows TIME,A,B without a header row");
    Ok(
        Command::new(alloc, "candump2script")
            .about("Writes the script that a log of candump -l on standard input stands for")
            .arg(head)?
            .arg(tick)?
            .arg(wires)?,
    )
}

// How long a tick lasts. The parser of the option lets no other number through.
fn milliseconds(matches: &ArgMatches<'_>) -> u32
    ensures { 1 ≤ result }
{
    match matches.get_one::<u32>("tick") {
        Some(milliseconds) if milliseconds >= 1 => milliseconds,
        _ => 10,
    }
}

fn read_file<'a>(rt: &HostRuntime, path: &'a str) -> Result<Vec<u8>, Fault<'a>> {
    match fs::read(rt, path) {
        Ok(text) => Ok(text),
        Err(error) => Err(Fault::of_device(Device::File(path), error)),
    }
}

fn read_input<'a>(rt: &HostRuntime) -> Result<Vec<u8>, Fault<'a>> {
    let mut text = Vec::new(rt.alloc());
    match rt.stdin().read_to_end(&mut text) {
        Ok(_) => Ok(text),
        Err(error) => Err(Fault::of_device(Device::Input, error)),
    }
}

fn read_head<'a>(rt: &HostRuntime, path: &'a str) -> Result<Head, Fault<'a>> {
    let text = read_file(rt, path)?;
    Head::read(rt.alloc(), &text).map_err(|fault| Fault::Head(fault))
}

fn rows_of<'a>(rt: &HostRuntime, path: Option<&'a str>) -> Result<Vec<WireRow>, Fault<'a>> {
    match path {
        Some(path) => {
            let text = read_file(rt, path)?;
            read_rows(rt.alloc(), path, &text)
        }
        None => Ok(Vec::new(rt.alloc())),
    }
}

// The text is whole before any of it is written out.
fn convert<'a>(rt: &HostRuntime, matches: &ArgMatches<'a>) -> Result<(), Fault<'a>> {
    let alloc = rt.alloc();
    let head = read_head(rt, matches.get_str("HEAD").unwrap_or(""))?;
    let rows = rows_of(rt, matches.get_str("wires"))?;
    let bytes = read_input(rt)?;
    let script = match log_script(alloc, &head, milliseconds(matches), &rows, &bytes) {
        Ok(script) => script,
        Err(fault) => return Err(Fault::of_log(fault)),
    };
    let names = interfaces(alloc, &bytes).map_err(|_| Fault::NoMemory)?;
    rt.stdout()
        .write_all(&script.text)
        .map_err(|error| Fault::of_device(Device::Output, error))?;
    tell(rt, &script.log, &names).map_err(|error| Fault::of_device(Device::Messages, error))
}

fn refuse(rt: &HostRuntime, fault: Fault<'_>) -> io::Result<ExitCode> {
    eprintln!(rt; "candump2script: {fault}")?;
    Ok(ExitCode::from(fault.status()))
}

// Help, words that are refused, or no memory to take them apart.
fn answer(rt: &HostRuntime, error: &Error) -> io::Result<ExitCode> {
    error.print(rt)?;
    Ok(ExitCode::from(match error.kind() {
        ErrorKind::DisplayHelp => 0,
        ErrorKind::OutOfMemory => 1,
        _ => 2,
    }))
}

fn run(rt: &HostRuntime) -> io::Result<ExitCode> {
    let alloc = rt.alloc();
    let words: Vec<String> = env::args(rt)?.collect(alloc)?;
    let command = match command(alloc) {
        Ok(command) => command,
        Err(error) => return answer(rt, &error),
    };
    match command.try_get_matches_from(words.as_slice()) {
        Ok(matches) => match convert(rt, &matches) {
            Ok(()) => Ok(ExitCode::SUCCESS),
            Err(fault) => refuse(rt, fault),
        },
        Err(error) => answer(rt, &error),
    }
}

fn main(rt: HostRuntime) -> ExitCode {
    match run(&rt) {
        Ok(code) => code,
        Err(error) if error.kind() == io::ErrorKind::OutOfMemory => ExitCode::from(1),
        Err(_) => ExitCode::from(15),
    }
}
