//! Lists the single faults of one channel over a script, writes the script of each, and runs them. All of it is own.
#![tactic(auto)]

use clap::error::ErrorKind;
use clap::{Arg, ArgAction, ArgMatches, Command, Error, value_parser};
use fault_runs::{Plain, Runs};
use fault_script::{Fed, ScriptReader};
use fault_table::{Refused, heading, write_part};
use lift_base::Form;
use lift_io::StdSink;
use saboteur::Crew;
use script_writer::write_script;
use std::alloc::Global;
use std::io::{Read, Write};
use std::process::ExitCode;
use std::thread::Threads;
use std::{env, io};

/// How many bytes are read at once.
const PIECE: usize = 4096;

fn number<'a>(alloc: Global, name: &'a str, help: &'a str) -> Arg<'a> {
    Arg::new(alloc, name)
        .required(true)
        .value_parser(value_parser!(u64))
        .help(help)
}

fn script_command<'a>(alloc: Global) -> Result<Command<'a>, Error> {
    let index = number(alloc, "I", "The number of the fault, from 0");
    Ok(
        Command::new(alloc, "script")
            .about("Writes the script of one fault")
            .arg(index)?,
    )
}

fn run_command<'a>(alloc: Global) -> Result<Command<'a>, Error> {
    let core = Arg::new(alloc, "core")
        .long("core")
        .action(ArgAction::SetTrue)
        .help("Leave out the lines of the runs on two threads");
    let from = number(alloc, "I", "The number of the first fault, from 0");
    let to = number(
        alloc,
        "J",
        "The number of the first fault that is no longer run",
    );
    Ok(
        Command::new(alloc, "run")
            .about("Runs the faults from I up to J, and writes a table")
            .arg(core)?
            .arg(from)?
            .arg(to)?,
    )
}

// What the program is called with.
fn command<'a>(alloc: Global) -> Result<Command<'a>, Error> {
    let count = Command::new(alloc, "count").about("Writes how many faults there are");
    Ok(
        Command::new(alloc, "faults")
            .about("The single faults of one channel over a script on standard input")
            .subcommand_required(true)
            .subcommand(count)?
            .subcommand(script_command(alloc)?)?
            .subcommand(run_command(alloc)?)?,
    )
}

// Feeds a reader standard input, up to the end of the script or of the input, or to the byte that refuses the script.
fn feed(rt: &HostRuntime, reader: &mut ScriptReader) -> Result<(), Refused> {
    let mut piece = [0; PIECE];
    for _ in 0..u64::MAX {
        let count = rt.stdin().read(&mut piece).map_err(Refused::of_device)?;
        if count == 0 {
            break;
        }
        match reader.feed(&piece[..count]).map_err(Refused::Script)? {
            Fed::More => {}
            Fed::Ended(_) => break,
        }
    }
    Ok(())
}

fn read_plain(rt: &HostRuntime) -> Result<Plain, Refused> {
    let alloc = rt.alloc();
    let crew = Crew::of(Vec::new(alloc));
    let mut reader = ScriptReader::open(alloc, Form::Replay, &crew).map_err(Refused::of_memory)?;
    feed(rt, &mut reader)?;
    let script = reader.finish().map_err(Refused::Script)?;
    Ok(Plain::open(alloc, script)?)
}

fn number_of(matches: &ArgMatches<'_>, name: &str) -> u64 {
    matches.get_one::<u64>(name).unwrap_or(0)
}

fn write_count(rt: &HostRuntime, plain: &Plain) -> Result<(), Refused> {
    println!(rt; "{}", plain.count()).map_err(Refused::of_device)
}

// The text is whole before any of it is written out.
fn write_one(rt: &HostRuntime, plain: &Plain, index: u64) -> Result<(), Refused> {
    let alloc = rt.alloc();
    let script = plain.script(alloc, index)?;
    let mut text = Vec::new(alloc);
    let mut sink = StdSink::of(&mut text);
    match write_script(&script, &mut sink) {
        Ok(()) => {}
        Err(_) => return Err(Refused::NoMemory),
    }
    rt.stdout().write_all(&text).map_err(Refused::of_device)
}

fn write_heading(rt: &HostRuntime) -> Result<(), Refused> {
    let text = heading(rt.alloc())?;
    rt.stdout().write_all(&text).map_err(Refused::of_device)
}

fn write_table<R: Threads + Sync>(
    rt: &HostRuntime,
    threads: &R,
    plain: &Plain,
    matches: &ArgMatches<'_>,
) -> Result<(), Refused> {
    let from = number_of(matches, "I");
    let to = number_of(matches, "J");
    if from > to || to > plain.count() {
        return Err(Refused::NoFault);
    }
    let runs = if matches.get_flag("core") {
        Runs::Core
    } else {
        Runs::All
    };
    write_heading(rt)?;
    write_part(threads, rt.alloc(), &mut rt.stdout(), plain, runs, from, to)
}

fn answer_call<R: Threads + Sync>(
    rt: &HostRuntime,
    threads: &R,
    matches: &ArgMatches<'_>,
) -> Result<(), Refused> {
    let plain = read_plain(rt)?;
    match matches.subcommand() {
        Some(("count", _)) => write_count(rt, &plain),
        Some(("script", words)) => write_one(rt, &plain, number_of(words, "I")),
        Some((_, words)) => write_table(rt, threads, &plain, words),
        None => Err(Refused::NoFault),
    }
}

fn tell(rt: &HostRuntime, refused: Refused) -> io::Result<()> {
    let text = refused.text();
    match (refused.line(), refused.key()) {
        (Some(line), _) => eprintln!(rt; "faults: line {line}: {text}"),
        (None, Some(key)) => eprintln!(rt; "faults: head {key}: {text}"),
        (None, None) => eprintln!(rt; "faults: {text}"),
    }
}

// The status says why, also where standard error fails.
fn refuse(rt: &HostRuntime, refused: Refused) -> io::Result<ExitCode> {
    match tell(rt, refused) {
        Ok(()) | Err(_) => Ok(ExitCode::from(refused.status())),
    }
}

// Help, words that are refused, or no memory to take them apart.
fn answer(rt: &HostRuntime, error: &Error) -> io::Result<ExitCode> {
    error.print(rt)?;
    Ok(ExitCode::from(match error.kind() {
        ErrorKind::DisplayHelp => 0,
        ErrorKind::OutOfMemory => 1,
        _ => 2,
    }))
}

fn run<R: Threads + Sync>(rt: &HostRuntime, threads: &R) -> io::Result<ExitCode> {
    let alloc = rt.alloc();
    let words: Vec<String> = env::args(rt)?.collect(alloc)?;
    let command = match command(alloc) {
        Ok(command) => command,
        Err(error) => return answer(rt, &error),
    };
    match command.try_get_matches_from(words.as_slice()) {
        Ok(matches) => match answer_call(rt, threads, &matches) {
            Ok(()) => Ok(ExitCode::SUCCESS),
            Err(refused) => refuse(rt, refused),
        },
        Err(error) => answer(rt, &error),
    }
}

fn main(rt: HostRuntime) -> ExitCode {
    match run(&rt, &rt) {
        Ok(code) => code,
        Err(error) if error.kind() == io::ErrorKind::OutOfMemory => ExitCode::from(1),
        Err(_) => ExitCode::from(15),
    }
}
