// A value change dump: the signals with their codes, and the changes of each, tick by tick (own).
use crate::signals::{Level, Row, rows_of};
use lift_io::NoMemory;
use ride_lanes::{Loss, Moment};
use std::alloc::{AllocError, Global};
use std::fmt::Write;

// The code of a signal: one sign from `!` to `~`, and then two.
fn add_code(dump: &mut String, number: usize) -> Result<(), AllocError> {
    let number = number.min(8000);
    if number >= 94 {
        dump.push(char::from(33 + ((number - 94) / 94) as u8))?;
        dump.push(char::from(33 + ((number - 94) % 94) as u8))
    } else {
        dump.push(char::from(33 + number as u8))
    }
}

fn add_scope(
    dump: &mut String,
    before: Option<&str>,
    scope: Option<&str>,
) -> Result<(), AllocError> {
    if before == scope {
        return Ok(());
    }
    if before.is_some() {
        dump.push_str("$upscope $end\n")?;
    }
    match scope {
        Some(name) => write!(dump, "$scope module {name} $end\n"),
        None => Ok(()),
    }
}

fn add_name(dump: &mut String, row: &Row, number: usize) -> Result<(), AllocError> {
    let width = row.width;
    let name = row.name;
    write!(dump, "$var wire {width} ")?;
    add_code(dump, number)?;
    write!(dump, " {name}")?;
    if width > 1 {
        let last = width - 1;
        write!(dump, " [{last}:0]")?;
    }
    dump.push_str(" $end\n")
}

fn add_names(dump: &mut String, rows: &[Row]) -> Result<(), AllocError> {
    dump.push_str("$comment One unit of time is one tick. $end\n$timescale 1 ms $end\n")?;
    let mut scope = None;
    dump.push_str("$scope module ride $end\n")?;
    for (number, row) in rows.iter().enumerate() {
        add_scope(dump, scope, row.scope)?;
        scope = row.scope;
        add_name(dump, row, number)?;
    }
    add_scope(dump, scope, None)?;
    dump.push_str("$upscope $end\n$enddefinitions $end\n")
}

fn add_bit(dump: &mut String, level: Level) -> Result<(), AllocError> {
    dump.push(match level {
        Level::Number(0) => '0',
        Level::Number(_) => '1',
        Level::Unknown => 'x',
        Level::Floating => 'z',
    })
}

fn add_value(dump: &mut String, row: &Row, level: Level, number: usize) -> Result<(), AllocError> {
    if row.width > 1 {
        dump.push_str("b")?;
        match level {
            Level::Number(value) => write!(dump, "{value:b}")?,
            _ => add_bit(dump, level)?,
        }
        dump.push_str(" ")?;
    } else {
        add_bit(dump, level)?;
    }
    add_code(dump, number)?;
    dump.push_str("\n")
}

// The changes of a tick, and at the first tick all.
fn add_tick(
    dump: &mut String,
    rows: &mut [Row],
    moment: &Moment,
    lost: bool,
) -> Result<(), AllocError> {
    let mut begun = false;
    let tick = moment.tick;
    for (number, row) in rows.iter_mut().enumerate() {
        let level = row.signal.level(moment, lost);
        if row.last != Some(level) {
            row.last = Some(level);
            if !begun {
                write!(dump, "#{tick}\n")?;
                dump.push_str(if tick == 1 { "$dumpvars\n" } else { "" })?;
            }
            begun = true;
            add_value(dump, row, level, number)?;
        }
    }
    dump.push_str(if tick == 1 { "$end\n" } else { "" })
}

fn add_ticks(
    dump: &mut String,
    rows: &mut [Row],
    moments: &[Moment],
    losses: &[Loss],
) -> Result<(), AllocError> {
    let mut left = losses;
    for moment in moments {
        let lost = match left {
            [loss, rest @ ..] if loss.tick == moment.tick => {
                left = rest;
                true
            }
            _ => false,
        };
        add_tick(dump, rows, moment, lost)?;
    }
    let end = (moments.len() as u64).saturating_add(1);
    write!(dump, "#{end}\n")
}

/// The dump of a ride. `NoMemory`: there is no memory for it.
pub fn dump_of(alloc: Global, moments: &[Moment], losses: &[Loss]) -> Result<String, NoMemory> {
    let mut rows = rows_of(alloc)?;
    let mut dump = String::new(alloc);
    add_names(&mut dump, &rows).map_err(|_| NoMemory)?;
    add_ticks(&mut dump, &mut rows, moments, losses).map_err(|_| NoMemory)?;
    Ok(dump)
}
