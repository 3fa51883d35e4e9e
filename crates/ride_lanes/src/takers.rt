// Which lanes took the power, by the reason that the report gives (own).
ghost use Rattle.std.specs.Prelude.{◌≡◌, ◌++◌, true, OnOk, IfOk};
ghost use Rattle.ride_lanes.specs.Takers.{key_if, lane_if, takers_of, limit_taker, stations_of, taker_of, wire_taker};

use crate::lanes::Lane;
use chain_table::Image;
use core_model::{COMPARE, LOCKED};
use lift_base::station_bits::INSPECTION;
use lift_base::{
    CAR, CONTACT_FAULT, CONTACTS, DOWN_LIMIT, PIT, PLATFORM, REQUEST, ROOF, SOURCES, Side,
    UP_LIMIT, WIRES,
};
use lift_io::NoMemory;
use script_model::{FORCED, KINDS_DIFFER, STALE};
use std::alloc::Global;

/// What took the power: a lane, what both sides give, or each station that stands at INSPECTION.
#[derive(Clone, Copy, Debug, PartialEq, Eq)]
pub enum Taker {
    One(Lane),
    BothGive,
    Stations,
}

// That lane, where the detail names one, and else what the side gives.
fn lane_if(there: bool, key: Lane, side: Side) -> Taker
    ensures { result ≡ lane_if there key side }
{
    if there {
        Taker::One(key)
    } else {
        Taker::One(Lane::Gives(side))
    }
}

fn wire_taker(detail: u8, side: Side) -> Taker
    ensures { result ≡ wire_taker detail side }
{
    if detail == CONTACT_FAULT {
        Taker::One(Lane::ContactFault)
    } else if detail < UP_LIMIT {
        Taker::One(Lane::Contact(detail))
    } else {
        lane_if(detail < WIRES, Lane::Wire(detail), side)
    }
}

fn limit_taker(detail: u8, side: Side) -> Taker
    ensures { result ≡ limit_taker detail side }
{
    match detail {
        1 => Taker::One(Lane::Wire(UP_LIMIT)),
        2 => Taker::One(Lane::Wire(DOWN_LIMIT)),
        _ => Taker::One(Lane::Gives(side)),
    }
}

/// What took the power, by the reason and its detail, as this side tells it.
#[tactic(auto, unfolding(crate::specs::Takers::taker_of))]
pub fn taker_of(code: u8, detail: u8, side: Side) -> Taker
    ensures { result ≡ taker_of code detail side }
{
    match code {
        1 => lane_if(
            0 < detail && detail as usize <= SOURCES,
            Lane::Source(detail),
            side,
        ),
        2 => wire_taker(detail, side),
        3 => Taker::One(Lane::Source(5)),
        4 => Taker::One(Lane::Source(5)),
        5 => Taker::One(Lane::PitLatch),
        6 => Taker::One(Lane::DoorsFaulty),
        7 => lane_if(detail < CONTACTS, Lane::Contact(detail), side),
        8 => Taker::One(Lane::Monitor),
        9 => Taker::Stations,
        10 => Taker::One(Lane::Source(5)),
        11 => Taker::One(Lane::Wire(REQUEST)),
        12 => limit_taker(detail, side),
        COMPARE => Taker::One(Lane::Sees(side)),
        LOCKED => Taker::One(Lane::Sees(side)),
        STALE => Taker::One(Lane::Faults(side)),
        FORCED => Taker::One(Lane::Faults(side)),
        KINDS_DIFFER => Taker::BothGive,
        _ => Taker::One(Lane::Gives(side)),
    }
}

fn push(keys: &mut Vec<Lane>, key: Lane) -> Result<(), NoMemory>
    ensures { OnOk result (keys.new.items ≡ keys.old.items ++ key_if true key) }
{
    keys.push(key).map_err(|_| NoMemory)
}

fn push_if(keys: &mut Vec<Lane>, there: bool, key: Lane) -> Result<(), NoMemory>
    ensures { OnOk result (keys.new.items ≡ keys.old.items ++ key_if there key) }
{
    if there {
        return push(keys, key);
    }
    Ok(())
}

fn stations_of(alloc: Global, image: &Image) -> Result<Vec<Lane>, NoMemory>
    ensures { IfOk result (λ keys. keys.items ≡ stations_of image.now) }
{
    let mut keys = Vec::new(alloc);
    push_if(&mut keys, image.bit(ROOF, INSPECTION), Lane::Source(1))?;
    push_if(&mut keys, image.bit(PIT, INSPECTION), Lane::Source(2))?;
    push_if(&mut keys, image.bit(CAR, INSPECTION), Lane::Source(3))?;
    push_if(&mut keys, image.bit(PLATFORM, INSPECTION), Lane::Source(6))?;
    Ok(keys)
}

/// The lanes that took the power, with the image of the tick that took it. `NoMemory`: there is no memory for them.
#[tactic(auto, unfolding(crate::specs::Takers::takers_of))]
pub fn takers_of(alloc: Global, taker: Taker, image: &Image) -> Result<Vec<Lane>, NoMemory>
    ensures { IfOk result (λ keys. keys.items ≡ takers_of taker image.now) }
{
    let mut keys = Vec::new(alloc);
    match taker {
        Taker::One(key) => push(&mut keys, key)?,
        Taker::BothGive => {
            push(&mut keys, Lane::Gives(Side::A))?;
            push(&mut keys, Lane::Gives(Side::B))?;
        }
        Taker::Stations => return stations_of(alloc, image),
    }
    Ok(keys)
}
