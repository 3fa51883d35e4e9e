// The rows of the wires' file: a time, and the two words (own).
use crate::fault::{Device, Fault};
use can_log::{WireRow, read_row};
use csv::{ByteRecord, Error, ErrorKind, ReaderBuilder};
use std::alloc::Global;

fn row_of(record: &ByteRecord) -> Option<WireRow> {
    if record.get(3).is_some() {
        return None;
    }
    read_row(record.get(0)?, record.get(1)?, record.get(2)?)
}

// The line on which a record begins. Line ends and blank lines may stand between its place and its first byte.
fn line_at(text: &[u8], place: u64) -> u64 {
    let mut line: u64 = 1;
    for (i, byte) in text.iter().enumerate() {
        if *byte == b'\n' {
            line = line.saturating_add(1);
        } else if *byte != b'\r' && i as u64 >= place {
            return line;
        }
    }
    line
}

fn line_of(text: &[u8], record: &ByteRecord) -> u64 {
    match record.position() {
        Some(position) => line_at(text, position.byte()),
        None => 1,
    }
}

fn goes_back(rows: &[WireRow], row: &WireRow) -> bool {
    match rows.last() {
        Some(last) => row.time < last.time,
        None => false,
    }
}

fn take<'a>(rows: &mut Vec<WireRow>, text: &[u8], record: &ByteRecord) -> Result<(), Fault<'a>> {
    let Some(row) = row_of(record) else {
        return Err(Fault::Row(line_of(text, record)));
    };
    if goes_back(rows, &row) {
        return Err(Fault::RowGoesBack(line_of(text, record)));
    }
    rows.push(row).map_err(|_| Fault::NoMemory)
}

// The reader takes records of any length, so it stops for want of memory or at its file alone.
fn stopped_at<'a>(path: &'a str, error: &Error) -> Fault<'a> {
    match error.kind() {
        ErrorKind::OutOfMemory => Fault::NoMemory,
        _ => Fault::Device(Device::File(path)),
    }
}

/// The rows of a file's text, which has no header row.
pub fn read_rows<'a>(alloc: Global, path: &'a str, text: &[u8]) -> Result<Vec<WireRow>, Fault<'a>> {
    let reader = ReaderBuilder::new()
        .has_headers(false)
        .flexible(true)
        .from_reader(alloc, text);
    let mut rows = Vec::new(alloc);
    for record in reader.into_byte_records() {
        match record {
            Ok(record) => take(&mut rows, text, &record)?,
            Err(error) => return Err(stopped_at(path, &error)),
        }
    }
    Ok(rows)
}
