// What is told of a log on standard error: frames, interfaces and ticks (own).
use can_log::{Log, interface};
use std::alloc::{AllocError, Global};
use std::{io, str};

fn note<'a>(names: &mut Vec<&'a [u8]>, name: &'a [u8]) -> Result<(), AllocError> {
    for known in names.iter() {
        if *known == name {
            return Ok(());
        }
    }
    names.push(name)?;
    Ok(())
}

/// The interfaces that the lines name, each once, in the order in which they come.
pub fn interfaces(alloc: Global, text: &[u8]) -> Result<Vec<&[u8]>, AllocError> {
    let mut names = Vec::new(alloc);
    for line in text.split(|b| *b == b'\n') {
        if let Some(name) = interface(line) {
            note(&mut names, name)?;
        }
    }
    Ok(names)
}

/// Tells it.
pub fn tell(rt: &HostRuntime, log: &Log, names: &[&[u8]]) -> io::Result<()> {
    eprintln!(rt; "frames taken: {}", log.taken().len())?;
    eprintln!(rt; "other frames: {}", log.others())?;
    eprint!(rt; "interfaces:")?;
    for name in names {
        eprint!(rt; " {}", str::from_utf8(name).unwrap_or("?"))?;
    }
    eprintln!(rt)?;
    eprintln!(rt; "ticks: {}", log.ticks())
}
