// Calls of the tool, and what they come to.
ghost use Rattle.std.specs.Prelude.{◌≡◌, None};
ghost use Rattle.lift_io.specs.Causes.{HasCause};
ghost use Rattle.record_disk.specs.Disk.{Silent};

use lift_io::{Failed, MemorySink, MemorySource, Sink, Source};
use lift_promise::{Outcome, pessral};
use record_disk::Disk;
use saboteur::Crew;
use std::alloc::Global;
use std::process::Abort;
use std::thread::Threads;

pub const HEAD: &str =
    "version = 1\nticks = 100\nsct = 25\nsrvt = 20\ndisc = 5\ndoor_ticks = 10\nroof = 0x101\npit = 0x103\ncar = 0x105\n\
     doors = 0x107\npanel = 0x109\n%%\n";

/// A pair of each source, at rest.
pub const FRAMES: &str =
    "f 101#3000\nf 102#CFFF\nf 103#1000\nf 104#EFFF\nf 105#1000\nf 106#EFFF\nf 107#0F00\nf 108#F0FF\nf 109#0000\nf 10A#FFFF\n";

/// Those of the open car door.
pub const OPEN: &str = "f 107#7000\nf 108#8FFF\n";

pub const REQUEST: &str = "w 09FF 0600\n";

pub const REPLAY: &[&str] = &["replay"];

/// A disk for commands that have no use for one: it tells nothing, and each call of it fails.
#[derive(Drop)]
pub struct NoDisk {
    pub faults: u64,
}

impl NoDisk {
    fn fail(&mut self) -> Result<(), Failed>
        ensures { HasCause self.old.faults self.new.faults result }
    {
        self.faults = self.faults.saturating_add(1);
        Err(Failed)
    }
}

impl Disk for NoDisk {
    ghost told = { λ _. Silent };

    ghost calls = { λ _. None };

    ghost faults = { λ d. d.faults };

    ghost present = { λ _. tt };

    fn read(&mut self, _at: u32, _buf: &mut [u8]) -> Result<(), Failed> {
        self.fail()
    }

    fn write_at(&mut self, _at: u32, _bytes: &[u8]) -> Result<(), Failed> {
        self.fail()
    }

    fn sync(&mut self) -> Result<(), Failed> {
        self.fail()
    }
}

/// The pieces, one after the other.
pub fn joined<R: Abort>(rt: &R, alloc: Global, pieces: &[&str]) -> Vec<u8> {
    let mut text = Vec::new(alloc);
    for piece in pieces {
        text.extend_from_slice(piece.as_bytes())
            .expect(rt, "memory");
    }
    text
}

/// The number of a call that fails.
pub fn one<R: Abort>(rt: &R, alloc: Global, number: u32) -> Vec<u32> {
    Vec::from_slice(alloc, &[number]).expect(rt, "memory")
}

/// A source of these bytes whose read of this number fails.
pub fn source<R: Abort>(rt: &R, alloc: Global, text: &[u8], fails: u32) -> MemorySource {
    let bytes = Vec::from_slice(alloc, text).expect(rt, "memory");
    MemorySource::of(bytes, one(rt, alloc, fails))
}

/// A sink whose write of this number fails.
pub fn sink<R: Abort>(rt: &R, alloc: Global, fails: u32) -> MemorySink {
    MemorySink::open(alloc, 1000, one(rt, alloc, fails)).expect(rt, "memory")
}

fn words_of<R: Abort>(rt: &R, alloc: Global, asked: &[&str]) -> Vec<String> {
    let mut words = Vec::new(alloc);
    for word in asked {
        let word = String::from_str(alloc, word).expect(rt, "memory");
        words.push(word).expect(rt, "memory");
    }
    words
}

/// Calls the tool with these words. No clause of the call is told: a test looks at what came.
pub fn called<R: Threads + Abort, S: Source, K: Sink, D: Disk>(
    rt: &R,
    alloc: Global,
    asked: &[&str],
    source: &mut S,
    sink: &mut K,
    crew: Crew,
    disk: &mut D,
) -> Outcome {
    let words = words_of(rt, alloc, asked);
    pessral(rt, alloc, &words, source, sink, crew, disk)
}

/// Replays a text with this crew.
pub fn replayed<R: Threads + Abort>(rt: &R, alloc: Global, text: &[u8], crew: Crew) -> Outcome {
    let mut source = source(rt, alloc, text, 0);
    let mut sink = sink(rt, alloc, 0);
    let mut disk = NoDisk { faults: 0 };
    called(rt, alloc, REPLAY, &mut source, &mut sink, crew, &mut disk)
}

/// Calls the tool over this source and this disk, with nobody in the crew: it ends with this status and has written this.
/// Answers how many ticks were run.
pub fn comes_to<R: Threads + Abort, S: Source, D: Disk>(
    rt: &R,
    alloc: Global,
    asked: &[&str],
    source: &mut S,
    disk: &mut D,
    status: u8,
    written: &str,
) -> u32 {
    let mut sink = sink(rt, alloc, 0);
    let nobody = Crew::of(Vec::new(alloc));
    let outcome = called(rt, alloc, asked, source, &mut sink, nobody, disk);
    assert!(rt;
        outcome.status == status && sink.bytes() == written.as_bytes(),
        "{status} {written}"
    );
    outcome.run.path().len()
}
