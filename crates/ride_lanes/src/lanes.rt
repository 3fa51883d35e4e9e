// The lanes of a ride in their order. Each is a row of a table: its name, its group, and what it shows of a tick (`cell_at`) (own).
use chain_table::{contact_name, source_name, wire_name};
use lift_base::{CONTACTS, DOWN_LIMIT, PIT_RESET, REQUEST, RESET, SOURCES, Side, UP_LIMIT, WIRES};
use lift_io::NoMemory;
use std::alloc::Global;

/// A lane.
#[derive(Clone, Copy, Debug, PartialEq, Eq)]
pub enum Lane {
    Power,
    /// What a side's contactor gives.
    Gives(Side),
    /// What a side sees of the other's word.
    Sees(Side),
    Mode,
    /// The verdict of the clauses.
    Clause,
    /// The value of a source, by its number from 1.
    Source(u8),
    /// A contact of the safety chain, by its index.
    Contact(u8),
    /// The signal that shows the car door closed.
    Monitor,
    /// A wire that is no contact, by its bit.
    Wire(u8),
    ContactFault,
    PitLatch,
    DoorsFaulty,
    /// What goes wrong with a side.
    Faults(Side),
}

fn of_side(side: Side, a: &'static str, b: &'static str) -> &'static str {
    match side {
        Side::A => a,
        Side::B => b,
    }
}

impl Lane {
    /// Its name. No two lanes have the same.
    pub fn name(self) -> &'static str {
        match self {
            Lane::Power => "power",
            Lane::Gives(side) => of_side(side, "A gives", "B gives"),
            Lane::Sees(side) => of_side(side, "A sees B", "B sees A"),
            Lane::Mode => "mode",
            Lane::Clause => "clause",
            Lane::Source(j) if 1 <= j && j as usize <= SOURCES => source_name(j),
            Lane::Contact(i) if i < CONTACTS => contact_name(i),
            Lane::Monitor => "monitor",
            Lane::Wire(i) if i < WIRES => wire_name(i),
            Lane::ContactFault => "contact_fault",
            Lane::PitLatch => "pit_latch",
            Lane::DoorsFaulty => "doors_faulty",
            Lane::Faults(side) => of_side(side, "A faults", "B faults"),
            Lane::Source(_) | Lane::Contact(_) | Lane::Wire(_) => "unknown",
        }
    }

    /// The group in which it stands. Lanes of one group follow each other.
    pub fn group(self) -> &'static str {
        match self {
            Lane::Power | Lane::Gives(_) => "power",
            Lane::Sees(_) => "sees",
            Lane::Mode | Lane::Clause => "clauses",
            Lane::Source(_) => "sources",
            Lane::Contact(_) | Lane::Monitor => "contacts",
            Lane::Wire(_) => "wires",
            Lane::ContactFault | Lane::PitLatch | Lane::DoorsFaulty => "latches",
            Lane::Faults(_) => "faults",
        }
    }
}

fn push(lanes: &mut Vec<Lane>, some: &[Lane]) -> Result<(), NoMemory> {
    for lane in some {
        lanes.push(*lane).map_err(|_| NoMemory)?;
    }
    Ok(())
}

/// The lanes of a ride in their order, where the list says of each source whether it is configured. `NoMemory`: there is no memory for
/// them.
pub fn lanes_of(alloc: Global, there: &[bool; SOURCES]) -> Result<Vec<Lane>, NoMemory> {
    let mut lanes = Vec::new(alloc);
    push(
        &mut lanes,
        &[Lane::Power, Lane::Gives(Side::A), Lane::Gives(Side::B)],
    )?;
    push(
        &mut lanes,
        &[
            Lane::Sees(Side::A),
            Lane::Sees(Side::B),
            Lane::Mode,
            Lane::Clause,
        ],
    )?;
    for source in 0..SOURCES {
        if there[source] {
            push(&mut lanes, &[Lane::Source(source as u8 + 1)])?;
        }
    }
    for i in 0..CONTACTS {
        push(&mut lanes, &[Lane::Contact(i)])?;
    }
    push(&mut lanes, &[Lane::Monitor])?;
    for wire in [UP_LIMIT, DOWN_LIMIT, RESET, PIT_RESET, REQUEST] {
        push(&mut lanes, &[Lane::Wire(wire)])?;
    }
    push(
        &mut lanes,
        &[Lane::ContactFault, Lane::PitLatch, Lane::DoorsFaulty],
    )?;
    push(&mut lanes, &[Lane::Faults(Side::A), Lane::Faults(Side::B)])?;
    Ok(lanes)
}
