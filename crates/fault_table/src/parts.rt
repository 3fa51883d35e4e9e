// A part of the table, made by as many threads as there are processors, in the order of the faults (own).
use crate::refused::Refused;
use crate::table::{open_table, put_lines, text_of};
use fault_runs::{Plain, Runs};
use std::alloc::Global;
use std::io::Write;
use std::thread;
use std::thread::Threads;

/// How many faults a thread takes at once.
const PIECE: u64 = 16;

// The lines of the faults from this number up to that one, which is not among them.
fn piece<R: Threads>(
    rt: &R,
    alloc: Global,
    plain: &Plain,
    runs: Runs,
    from: u64,
    to: u64,
) -> Result<Vec<u8>, Refused> {
    let mut table = open_table(alloc);
    for index in from..to {
        let lines = plain.lines(rt, alloc, index, runs)?;
        put_lines(&mut table, alloc, index, &lines)?;
    }
    text_of(table)
}

// The pieces from this number on, one for each thread, none of them beyond the last.
fn pieces<R: Threads + Sync>(
    rt: &R,
    alloc: Global,
    plain: &Plain,
    runs: Runs,
    threads: usize,
    from: u64,
    to: u64,
) -> Result<Vec<Result<Vec<u8>, Refused>>, Refused> {
    let made = thread::map_indices(
        rt,
        alloc,
        threads,
        &|i: usize| {
            let first = from.saturating_add(PIECE.saturating_mul(i as u64)).min(to);
            let end = first.saturating_add(PIECE).min(to);
            piece(rt, alloc, plain, runs, first, end)
        },
    );
    made.map_err(|_| Refused::NoMemory)
}

/// Writes the lines of the faults from this number up to that one, which is not among them.
pub fn write_part<R: Threads + Sync, W: Write>(
    rt: &R,
    alloc: Global,
    out: &mut W,
    plain: &Plain,
    runs: Runs,
    from: u64,
    to: u64,
) -> Result<(), Refused> {
    let threads = match thread::available_parallelism(rt) {
        Ok(threads) => threads.get(),
        Err(_) => 1,
    };
    let step = PIECE.saturating_mul(threads as u64);
    let mut next = from;
    for _ in 0..u64::MAX {
        if next >= to {
            break;
        }
        for text in pieces(rt, alloc, plain, runs, threads, next, to)? {
            out.write_all(&text?).map_err(Refused::of_device)?;
        }
        next = next.saturating_add(step);
    }
    Ok(())
}
