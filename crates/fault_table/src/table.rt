// The lines of the table, as comma-separated fields (own).
use crate::names::{side_name, what_name};
use crate::refused::Refused;
use csv::{Writer, WriterBuilder};
use fault_plan::SingleFault;
use fault_runs::{ALL_LOOKS, FaultLines, Line};
use itoa::Buffer;
use report::{Reason, reason_text};
use std::alloc::Global;

/// A table in memory.
pub type Table = Writer<Vec<u8>>;

/// The names of the fields.
const HEADING: [&[u8]; 11] = [
    b"fault",
    b"tick",
    b"side",
    b"what",
    b"looks",
    b"differs",
    b"off",
    b"reason",
    b"ticks_to_off",
    b"ungranted",
    b"comes_back",
];

/// A table without lines.
pub fn open_table(alloc: Global) -> Table {
    WriterBuilder::new().from_writer(Vec::new(alloc))
}

/// The text of a table.
pub fn text_of(table: Table) -> Result<Vec<u8>, Refused> {
    table.into_inner().map_err(|_| Refused::NoMemory)
}

/// The line that names the fields, as text.
pub fn heading(alloc: Global) -> Result<Vec<u8>, Refused> {
    let mut table = open_table(alloc);
    table.write_fields(&HEADING).map_err(Refused::of_table)?;
    text_of(table)
}

fn put(table: &mut Table, field: &[u8]) -> Result<(), Refused> {
    table.write_field(field).map_err(Refused::of_table)
}

fn put_number(table: &mut Table, number: u64) -> Result<(), Refused> {
    let mut buffer = Buffer::new();
    put(table, buffer.format(number).as_bytes())
}

// A dash where there is no tick.
fn put_tick(table: &mut Table, tick: Option<u32>) -> Result<(), Refused> {
    match tick {
        Some(tick) => put_number(table, u64::from(tick)),
        None => put(table, b"-"),
    }
}

fn put_reason(table: &mut Table, alloc: Global, reason: Option<Reason>) -> Result<(), Refused> {
    let Some(reason) = reason else {
        return put(table, b"-");
    };
    let text = reason_text(reason.code, reason.detail);
    let mut field = Vec::new(alloc);
    for piece in [text.before, text.name, text.behind] {
        if field.extend_from_slice(piece.as_bytes()).is_err() {
            return Err(Refused::NoMemory);
        }
    }
    put(table, &field)
}

fn put_fault(
    table: &mut Table,
    alloc: Global,
    index: u64,
    fault: SingleFault,
) -> Result<(), Refused> {
    let what = what_name(alloc, fault.what).map_err(|_| Refused::NoMemory)?;
    put_number(table, index)?;
    put_number(table, u64::from(fault.tick))?;
    put(table, side_name(fault.side).as_bytes())?;
    put(table, what.as_bytes())
}

// How many ticks passed from the fault to the Off.
fn ticks_to_off(fault: SingleFault, line: &Line) -> Option<u32> {
    match line.off {
        Some(off) => Some(off.saturating_sub(fault.tick)),
        None => None,
    }
}

// The line of one run with a fault, which has this number; `run` names the run.
fn put_line(
    table: &mut Table,
    alloc: Global,
    index: u64,
    fault: SingleFault,
    run: &str,
    line: &Line,
) -> Result<(), Refused> {
    put_fault(table, alloc, index, fault)?;
    put(table, run.as_bytes())?;
    put_tick(table, line.differs)?;
    put_tick(table, line.off)?;
    put_reason(table, alloc, line.reason)?;
    put_tick(table, ticks_to_off(fault, line))?;
    put_number(table, u64::from(line.ungranted))?;
    put(table, if line.comes_back { b"yes" } else { b"no" })?;
    table.end_record().map_err(Refused::of_table)
}

/// The lines of a fault, which has this number: one for each of its runs.
pub fn put_lines(
    table: &mut Table,
    alloc: Global,
    index: u64,
    of: &FaultLines,
) -> Result<(), Refused> {
    for at in 0..ALL_LOOKS.len() {
        put_line(
            table,
            alloc,
            index,
            of.fault,
            ALL_LOOKS[at].name(),
            &of.core[at],
        )?;
    }
    match &of.threads {
        Some(line) => put_line(table, alloc, index, of.fault, "threads", line),
        None => Ok(()),
    }
}
