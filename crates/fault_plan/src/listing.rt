// The list of single faults, by their numbers (own).
ghost use Rattle.std.specs.Prelude.{◌≡◌, ◌<◌, ◌≤◌, ◌*◌, IfSome, Some, get_or, length, slice_get};
ghost use Rattle.lift_base.specs.declared.limits.TheConstants.{MOST_TICKS};
ghost use Rattle.fault_plan.specs.Listed.{of_tick, single, single_faults, whats};
ghost use Rattle.fault_plan.specs.declared.single.What.TheVariants.{Silent};
ghost use Rattle.fault_plan.specs.declared.listing.TheConstants.{WHATS};

use crate::single::{SingleFault, What};
use lift_base::{Kind, MOST_TICKS, Side};

/// How many kinds of faults there are.
const WHATS: u64 = 23;

/// How many faults begin in one tick.
const FAULTS_A_TICK: u64 = 2 * WHATS;

fn what_at(place: u64) -> What
    requires { place < WHATS }
    ensures { result ≡ get_or whats place Silent }
{
    match place {
        0 => What::Silent,
        1 => What::Wrong(0),
        2 => What::Wrong(u64::MAX),
        3 => What::Fresh(Kind::Off),
        4 => What::Fresh(Kind::Full),
        5 => What::Fresh(Kind::Up),
        6 => What::Fresh(Kind::Down),
        7 => What::Others,
        8 => What::Last,
        9 => What::Right,
        10 => What::Forced(Kind::Off),
        11 => What::Forced(Kind::Full),
        12 => What::Forced(Kind::Up),
        13 => What::Forced(Kind::Down),
        14 => What::Held(1),
        15 => What::Held(2),
        16 => What::Held(3),
        17 => What::Held(4),
        18 => What::Held(5),
        19 => What::Exchanged(1),
        20 => What::Exchanged(10),
        21 => What::ExchangedAndReset(1),
        _ => What::ExchangedAndReset(10),
    }
}

fn single(tick: u32, side: Side, place: u64) -> SingleFault
    requires { place < WHATS }
    ensures { result ≡ single tick side (get_or whats place Silent) }
{
    SingleFault {
        tick,
        side,
        what: what_at(place),
    }
}

// The fault at this place among those that begin in a tick: A's, and then B's.
fn fault_in(tick: u32, place: u64) -> SingleFault
    requires { place < 2 * WHATS }
    ensures value { slice_get (of_tick tick) place ≡ Some result }
    ensures tick { result.tick ≡ tick }
{
    if place < WHATS {
        return single(tick, Side::A, place);
    }
    single(tick, Side::B, place - WHATS)
}

/// How many single faults there are over a script with so many ticks.
pub fn count(ticks: u32) -> u64
    ensures { result ≡ length (single_faults ticks) }
{
    FAULTS_A_TICK * u64::from(ticks)
}

/// The fault with this number, from 0. `None`: there are not so many.
pub fn fault_at(ticks: u32, index: u64) -> Option<SingleFault>
    requires { ticks ≤ MOST_TICKS }
    ensures value { result ≡ slice_get (single_faults ticks) index }
    ensures from { IfSome result (λ fault. 1 ≤ fault.tick) }
{
    let before = index / FAULTS_A_TICK;
    if before >= u64::from(ticks) {
        return None;
    }
    Some(fault_in(before as u32 + 1, index % FAULTS_A_TICK))
}
