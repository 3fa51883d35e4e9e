// Each read and each write that fails, and a source that never ends.
ghost use Rattle.std.specs.Prelude.{None};

use crate::calls::{
    FRAMES, HEAD, NoDisk, OPEN, REPLAY, REQUEST, called, comes_to, joined, one, sink, source,
};
use lift_io::{Failed, Source};
use record_disk::MemoryDisk;
use saboteur::Crew;
use std::alloc::Global;
use std::process::Abort;
use std::thread::Threads;

const READ: &str = "refused: read\n";

// A replay of this text, where the read of this number fails.
fn replayed_to<R: Threads + Abort>(
    rt: &R,
    alloc: Global,
    text: &[u8],
    fails: u32,
    status: u8,
    written: &str,
) {
    let mut source = source(rt, alloc, text, fails);
    let mut disk = NoDisk { faults: 0 };
    comes_to(rt, alloc, REPLAY, &mut source, &mut disk, status, written);
}

// What stands first in the input counts: a whole line `e` or a refusal, or the read that fails.
#[test]
fn what_stands_first_counts(rt: HostRuntime) {
    let alloc = rt.alloc();
    let whole = joined(&rt, alloc, &[HEAD, "e\n"]);
    let bare = joined(&rt, alloc, &[HEAD, "e"]);
    let bad = joined(&rt, alloc, &[HEAD, "f 101#300\n"]);
    replayed_to(&rt, alloc, &whole, 2, 0, "ticks 0 on 0 changes 0\n");
    replayed_to(&rt, alloc, &bare, 2, 3, READ);
    replayed_to(&rt, alloc, &bad, 2, 6, "refused: line 13\n");
}

// A text that five reads take, and a sixth finds its end.
fn long_text<R: Abort>(rt: &R, alloc: Global) -> Vec<u8> {
    let mut text = joined(rt, alloc, &[HEAD]);
    for _ in 0..100 {
        text.extend_from_slice(&[b'#'; 199]).expect(rt, "memory");
        text.extend_from_slice(b"\nt\n").expect(rt, "memory");
    }
    text
}

#[test]
fn each_read_that_fails_is_told(rt: HostRuntime) {
    let text = long_text(&rt, rt.alloc());
    for fails in 1..7 {
        replayed_to(&rt, rt.alloc(), &text, fails, 3, READ);
    }
    replayed_to(&rt, rt.alloc(), &text, 7, 9, "refused: no_end\n");
}

const REPORT: &[u8] = b"2 full\n22 off K7 car_door 5.11.2\nticks 40 on 20 changes 2\n";

// Whether the report of a ride is cut by the write of this number, which fails.
fn is_cut<R: Threads + Abort>(rt: &R, alloc: Global, text: &[u8], fails: u32) -> bool {
    let mut source = source(rt, alloc, text, 0);
    let mut sink = sink(rt, alloc, fails);
    let mut disk = NoDisk { faults: 0 };
    let nobody = Crew::of(Vec::new(alloc));
    let outcome = called(rt, alloc, REPLAY, &mut source, &mut sink, nobody, &mut disk);
    let is_whole = outcome.status == 0 && sink.bytes() == REPORT;
    let is_front = outcome.status == 4 && REPORT.starts_with(sink.bytes());
    assert!(rt; is_whole || is_front, "{fails}");
    is_front && sink.bytes().len() < REPORT.len()
}

#[test]
fn each_write_that_fails_leaves_a_front(rt: HostRuntime) {
    let alloc = rt.alloc();
    let text = joined(
        &rt,
        alloc,
        &[HEAD, FRAMES, REQUEST, "t 20\n", OPEN, "t 20\ne\n"],
    );
    let mut cut = 0;
    for fails in 1..100 {
        if is_cut(&rt, alloc, &text, fails) {
            cut = fails;
        }
    }
    // At least a write for each of the three lines.
    assert!(rt; 3 <= cut && cut < 99);
}

// Each command reads this text.
fn one_tick<R: Abort>(rt: &R, alloc: Global) -> Vec<u8> {
    joined(rt, alloc, &[HEAD, "t\ne\n"])
}

// A read that fails, and the second write that fails, behind which a front stands.
fn refuses_both<R: Threads + Abort>(rt: &R, alloc: Global, asked: &[&str], disk: &mut MemoryDisk) {
    let text = one_tick(rt, alloc);
    comes_to(
        rt,
        alloc,
        asked,
        &mut source(rt, alloc, &text, 1),
        disk,
        3,
        READ,
    );
    let mut source = source(rt, alloc, &text, 0);
    let mut sink = sink(rt, alloc, 2);
    let nobody = Crew::of(Vec::new(alloc));
    let outcome = called(rt, alloc, asked, &mut source, &mut sink, nobody, disk);
    let ran = outcome.status == 4 && outcome.run.path().len() == 1;
    assert!(rt; ran && !sink.bytes().is_empty(), "{asked:?}");
}

#[test]
fn each_command_tells_a_read_and_a_write_that_fail(rt: HostRuntime) {
    let alloc = rt.alloc();
    let none = one(&rt, alloc, 0);
    let disk = MemoryDisk::open(alloc, 100, Vec::new(alloc), none, Vec::new(alloc));
    let mut disk = disk.expect(&rt, "memory");
    for asked in ["replay", "rounds", "audit", "level", "schedule", "store"] {
        refuses_both(&rt, alloc, &[asked], &mut disk);
    }
    refuses_both(&rt, alloc, &["last", "1"], &mut disk);
    refuses_both(&rt, alloc, &["simulate", "20"], &mut disk);
}

// A source that never ends, and counts how often it was read.
#[derive(Drop)]
struct Endless {
    reads: u32,
}

impl Source for Endless {
    ghost left = { λ _. None };

    ghost faults = { λ _. 0 };

    fn read(&mut self, buf: &mut [u8]) -> Result<usize, Failed> {
        self.reads = self.reads.saturating_add(1);
        buf.fill(b'#');
        Ok(buf.len())
    }
}

// How often a source that never ends is read.
fn reads_of<R: Threads + Abort>(
    rt: &R,
    alloc: Global,
    asked: &[&str],
    status: u8,
    written: &str,
) -> u32 {
    let mut source = Endless { reads: 0 };
    let mut disk = NoDisk { faults: 0 };
    comes_to(rt, alloc, asked, &mut source, &mut disk, status, written);
    source.reads
}

// The 16,387th byte of a head without its end decides: it comes with the fifth read. Wrong words read nothing.
#[test]
fn a_refused_text_is_read_no_further(rt: HostRuntime) {
    let head = reads_of(&rt, rt.alloc(), REPLAY, 5, "refused: head size\n");
    let words = reads_of(&rt, rt.alloc(), &["last", "0"], 2, "refused: words\n");
    assert!(rt; head == 5 && words == 0);
}
