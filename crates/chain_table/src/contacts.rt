// The safety chain: the operation of any one of its contacts prevents motion (EN 81-20, 5.11.2). Emergency electrical
// operation makes six kinds of device inoperative (5.12.1.6), the bypass the contacts of one kind of door (5.12.1.8).
// Which contacts there are, and their order, are own.
ghost use Rattle.std.specs.Prelude.{◌≡◌, ◌<◌, ◌^◌, ◌||◌, not, get_or, false};
ghost use Rattle.lift_model.specs.Chain.{source_has, is_contact_made, inoperative};

use crate::Image;
use lift_base::door_bits::{CAR_DOOR, LANDING_DOORS, LANDING_LOCKS};
use lift_base::station_bits::{SAFETY_GEAR, STOP};
use lift_base::{
    CAR, CAR_DOOR_SET, CONTACTS, DOORS, EMERGENCY_SET, LANDING_SET, Mode, PIT, PLATFORM, ROOF,
    SOURCES,
};

/// Whether the bit of a source is made. Where the source is not configured, which `there` says of each, it counts as made.
pub fn bit_made(image: &Image, there: &[bool; SOURCES], source: usize, bit: u8) -> bool
    requires source { source < SOURCES }
    requires bit { bit < 16 }
    ensures { result ≡ (not (get_or there.now source false) || source_has image.now source bit) }
{
    !there[source] || image.bit(source, bit)
}

/// Whether contact `i` is made. Where the source that it comes from is not configured, it counts as made.
#[tactic(auto, unfolding(lift_model::specs::Chain::is_contact_made))]
pub fn is_contact_made(image: &Image, there: &[bool; SOURCES], i: u8) -> bool
    requires { i < CONTACTS }
    ensures { result ≡ is_contact_made image.now there.now i }
{
    match i {
        0..=6 => image.made(i),
        7 => bit_made(image, there, PIT, STOP),
        8 => bit_made(image, there, ROOF, STOP),
        9 => bit_made(image, there, CAR, STOP),
        10 => bit_made(image, there, ROOF, SAFETY_GEAR),
        11 => bit_made(image, there, DOORS, CAR_DOOR),
        12 => bit_made(image, there, DOORS, LANDING_DOORS),
        13 => bit_made(image, there, DOORS, LANDING_LOCKS),
        _ => bit_made(image, there, PLATFORM, STOP),
    }
}

/// The set of the contacts that are not looked at in this mode, bit i for contact i.
pub fn inoperative(mode: Mode, bypass_car: bool, bypass_landing: bool) -> u16
    ensures value { result ≡ inoperative mode bypass_car bypass_landing }
    ensures small { result < 2 ^ CONTACTS }
{
    let car = if bypass_car { CAR_DOOR_SET } else { 0 };
    let landing = if bypass_landing { LANDING_SET } else { 0 };
    match mode {
        Mode::Normal => 0,
        Mode::Inspection => car + landing,
        Mode::Emergency => EMERGENCY_SET + car + landing,
    }
}
