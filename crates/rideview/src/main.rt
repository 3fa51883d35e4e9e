//! Shows a ride: reads a script as `replay` does, runs it, and writes its data, in a page that draws it or alone, or a dump (own). That
//! the data is that of the run, and its JSON that of the data, is proved.
#![tactic(auto)]

mod bits;
mod dump;
mod growing;
mod lane_data;
mod loss_data;
mod page;
mod page_text;
mod read;
mod refused;
mod ride;
mod run;
mod safe;
mod signals;
mod texts;
mod writing;

use clap::error::ErrorKind;
use clap::{Arg, ArgAction, ArgMatches, Command, Error};
use lift_io::StdSource;
use page::text_of;
use page_text::PAGE;
use refused::Refused;
use ride::Ride;
use run::{Told, run_source};
use std::alloc::{AllocError, Global};
use std::io::Write;
use std::process::ExitCode;
use std::thread::Threads;
use std::{env, io};
use writing::json_of;

/// What is written of a ride.
#[derive(Clone, Copy, Debug, PartialEq, Eq)]
enum Form {
    Page,
    Data,
    Dump,
}

// What the program is called with.
fn command<'a>(alloc: Global) -> Result<Command<'a>, Error> {
    let title = Arg::new(alloc, "title")
        .long("title")
        .value_name("TEXT")
        .default_value("ride")
        .help("The title of the ride");
    let html = Arg::new(alloc, "html")
        .long("html")
        .action(ArgAction::SetTrue)
        .help("Write a page that draws the ride; it does so without a word too");
    let data = Arg::new(alloc, "json")
        .long("json")
        .action(ArgAction::SetTrue)
        .help("Write the data of the ride alone, as JSON");
    let vcd = Arg::new(alloc, "vcd")
        .long("vcd")
        .action(ArgAction::SetTrue)
        .help("Write a value change dump instead, as GTKWave reads it");
    Ok(
        Command::new(alloc, "rideview")
            .about("Shows the ride of a script on standard input, as a page on standard output")
            .arg(title)?
            .arg(html)?
            .arg(data)?
            .arg(vcd)?,
    )
}

fn form_of(matches: &ArgMatches<'_>) -> Form {
    if matches.get_flag("vcd") {
        Form::Dump
    } else if matches.get_flag("json") {
        Form::Data
    } else {
        Form::Page
    }
}

// What is written, piece by piece.
#[derive(Drop)]
struct Pieces {
    front: &'static str,
    data: Vec<u8>,
    end: String,
}

fn pieces_of(alloc: Global, told: Told, title: &str, form: Form) -> Result<Pieces, AllocError> {
    match told {
        Told::Dump(end) => Ok(Pieces {
            front: "",
            data: Vec::new(alloc),
            end,
        }),
        Told::Data(ride, report) => data_pieces(alloc, &ride, &report, title, form),
    }
}

fn data_pieces(
    alloc: Global,
    ride: &Ride,
    report: &[String],
    title: &str,
    form: Form,
) -> Result<Pieces, AllocError> {
    let data = json_of(alloc, title, ride, report)?;
    if form == Form::Page {
        return Ok(Pieces {
            front: PAGE,
            data,
            end: text_of(alloc, ride, report)?,
        });
    }
    let mut end = String::new(alloc);
    end.push_str("\n")?;
    Ok(Pieces {
        front: "",
        data,
        end,
    })
}

fn write(rt: &HostRuntime, pieces: &Pieces) -> io::Result<()> {
    rt.stdout().write_all(pieces.front.as_bytes())?;
    rt.stdout().write_all(&pieces.data)?;
    rt.stdout().write_all(pieces.end.as_bytes())
}

fn show<R: Threads>(
    threads: &R,
    rt: &HostRuntime,
    matches: &ArgMatches<'_>,
) -> Result<(), Refused> {
    let alloc = rt.alloc();
    let form = form_of(matches);
    let mut source = StdSource::of(rt.stdin());
    let told = run_source(threads, alloc, &mut source, form == Form::Dump)??;
    let title = matches.get_str("title").unwrap_or("ride");
    let pieces = pieces_of(alloc, told, title, form)?;
    write(rt, &pieces).map_err(|_| Refused::Write)
}

// The status says it too, where standard error does not take the text.
fn refuse(rt: &HostRuntime, refused: Refused) -> ExitCode {
    if let Ok(text) = refused.text(rt.alloc()) {
        let _ = rt.stderr().write_all(text.as_bytes());
    }
    ExitCode::from(refused.status())
}

// Help, words that are refused, or no memory to take them apart.
fn answer(rt: &HostRuntime, error: &Error) -> ExitCode {
    match error.kind() {
        ErrorKind::DisplayHelp => match error.print(rt) {
            Ok(()) => ExitCode::SUCCESS,
            Err(_) => refuse(rt, Refused::Write),
        },
        ErrorKind::OutOfMemory => refuse(rt, Refused::Memory),
        _ => {
            let _ = error.print(rt);
            ExitCode::from(2)
        }
    }
}

// The two sides take their turns on `threads`.
fn start<R: Threads>(threads: &R, rt: &HostRuntime, words: &[String]) -> ExitCode {
    let command = match command(rt.alloc()) {
        Ok(command) => command,
        Err(error) => return answer(rt, &error),
    };
    match command.try_get_matches_from(words) {
        Ok(matches) => match show(threads, rt, &matches) {
            Ok(()) => ExitCode::SUCCESS,
            Err(refused) => refuse(rt, refused),
        },
        Err(error) => answer(rt, &error),
    }
}

// The words that the program was called with.
fn words(rt: &HostRuntime) -> io::Result<Vec<String>> {
    let words: Vec<String> = env::args(rt)?.collect(rt.alloc())?;
    Ok(words)
}

fn main(rt: HostRuntime) -> ExitCode {
    match words(&rt) {
        Ok(words) => start(&rt, &rt, &words),
        Err(error) if error.kind() == io::ErrorKind::OutOfMemory => ExitCode::from(1),
        Err(_) => ExitCode::from(15),
    }
}
