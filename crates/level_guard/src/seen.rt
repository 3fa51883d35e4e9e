// What a guard looks at in the image of a tick (own).
ghost use Rattle.std.specs.Prelude.{◌≡◌, ◌&&◌, ◌||◌, ◌==◌, not};
ghost use Rattle.lift_model.specs.Levelling.{is_in_zone, is_open_outside, waits_for_doors, is_good_to_level};
ghost use Rattle.lift_model.specs.Stations.{is_normal};

use chain_table::{Image, is_contact_made};
use lift_base::door_bits::{CAR_DOOR, LANDING_LOCKS, ZONE};
use lift_base::{
    CAR_DOOR_CONTACT, CHAIN_CLAUSE, DOORS, LANDING_DOORS_CONTACT, LANDING_LOCKS_CONTACT, LEVEL,
    Mode, PLATFORM_STOP_CONTACT, SOURCES, Verdict,
};

/// Whether the doors have a value that shows the car in the unlocking zone.
pub fn is_in_zone(image: &Image) -> bool
    ensures { result ≡ is_in_zone image.now }
{
    image.bit(DOORS, ZONE)
}

/// Whether the doors have a value that shows the car outside the zone, with the car door or the landing locks not made.
pub fn is_open_outside(image: &Image) -> bool
    ensures { result ≡ is_open_outside image.now }
{
    image.values[DOORS].is_some()
        && !image.bit(DOORS, ZONE)
        && (!image.bit(DOORS, CAR_DOOR) || !image.bit(DOORS, LANDING_LOCKS))
}

fn is_normal(mode: Mode) -> bool
    ensures { result ≡ is_normal mode }
{
    match mode {
        Mode::Normal => true,
        _ => false,
    }
}

/// Whether the car leaves the zone with an open door at this tick, in normal operation without a bypass.
pub fn leaves(was_in_zone: bool, image: &Image, verdict: &Verdict) -> bool
    ensures { result ≡ (was_in_zone && is_open_outside image.now && is_normal verdict.now.mode && not verdict.now.bypass) }
{
    was_in_zone && is_open_outside(image) && is_normal(verdict.mode) && !verdict.bypass
}

fn is_door_contact(detail: u8) -> bool
    ensures { result ≡ (detail == CAR_DOOR_CONTACT || detail == LANDING_DOORS_CONTACT || detail == LANDING_LOCKS_CONTACT) }
{
    detail == CAR_DOOR_CONTACT || detail == LANDING_DOORS_CONTACT || detail == LANDING_LOCKS_CONTACT
}

/// Whether the chain waits for a contact of the doors, in normal operation: each clause before it holds, and each contact before
/// theirs.
fn waits_for_doors(verdict: &Verdict) -> bool
    ensures { result ≡ waits_for_doors verdict.now }
{
    verdict.clause == CHAIN_CLAUSE && is_normal(verdict.mode) && is_door_contact(verdict.detail)
}

/// Whether the chain waits for the doors alone, in the zone, and levelling is asked for. `there` tells of each source whether it is
/// configured.
fn is_good_to_level(image: &Image, there: &[bool; SOURCES], verdict: &Verdict) -> bool
    ensures { result ≡ is_good_to_level image.now there.now verdict.now }
{
    waits_for_doors(verdict)
        && is_in_zone(image)
        && is_contact_made(image, there, PLATFORM_STOP_CONTACT)
        && image.made(LEVEL)
}

/// Whether levelling is permitted, where this tells whether an unintended movement stands.
pub fn may_level(image: &Image, there: &[bool; SOURCES], verdict: &Verdict, moved: bool) -> bool
    ensures { result ≡ (is_good_to_level image.now there.now verdict.now && not moved) }
{
    is_good_to_level(image, there, verdict) && !moved
}
