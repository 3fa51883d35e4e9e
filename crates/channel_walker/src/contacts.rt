// The safety chain as a table that is walked in order: the operation of any one of its contacts prevents motion
// (EN 81-20, 5.11.2). Each row tells where the contact comes from, and what makes it inoperative: emergency electrical
// operation (5.12.1.6), or the bypass of its door (5.12.1.8). Which contacts there are, and their order, are own.
ghost use Rattle.std.specs.Prelude.{◌≡◌, ◌<◌, Some, slice_get};
ghost use Rattle.lift_model.specs.Chain.{inoperative, is_open, first_open};
ghost use Rattle.lift_model.specs.Stations.{is_normal, is_emergency};
ghost use Rattle.channel_walker.specs.Table.{IsInside, is_made, is_past};

use chain_table::{Image, bit_made};
use lift_base::door_bits::{CAR_DOOR, LANDING_DOORS, LANDING_LOCKS};
use lift_base::station_bits::{SAFETY_GEAR, STOP};
use lift_base::{CAR, CONTACTS, DOORS, Mode, PIT, PLATFORM, ROOF, SOURCES};

/// Where a contact comes from.
#[derive(Clone, Copy, Debug)]
enum Contact {
    Wire(u8),
    /// A bit of a source, which counts as made where the source is not configured.
    Bit(usize, u8),
}

/// What makes a contact inoperative.
#[derive(Clone, Copy, Debug)]
enum Past {
    Nothing,
    Emergency,
    CarBypass,
    LandingBypass,
}

/// How the lift is operated at a tick: the mode, and the two bypasses.
#[derive(Clone, Copy, Debug)]
pub struct Operation {
    pub mode: Mode,
    pub bypass_car: bool,
    pub bypass_landing: bool,
}

/// The contacts in their order (own). A `static`, since a look-up in a `const` copies the whole table.
static CHAIN: [(Contact, Past); CONTACTS as usize] = [
    (Contact::Wire(0), Past::Nothing),
    (Contact::Wire(1), Past::Emergency),
    (Contact::Wire(2), Past::Emergency),
    (Contact::Wire(3), Past::Emergency),
    (Contact::Wire(4), Past::Emergency),
    (Contact::Wire(5), Past::Emergency),
    (Contact::Wire(6), Past::Nothing),
    (Contact::Bit(PIT, STOP), Past::Nothing),
    (Contact::Bit(ROOF, STOP), Past::Nothing),
    (Contact::Bit(CAR, STOP), Past::Nothing),
    (Contact::Bit(ROOF, SAFETY_GEAR), Past::Emergency),
    (Contact::Bit(DOORS, CAR_DOOR), Past::CarBypass),
    (Contact::Bit(DOORS, LANDING_DOORS), Past::LandingBypass),
    (Contact::Bit(DOORS, LANDING_LOCKS), Past::LandingBypass),
    (Contact::Bit(PLATFORM, STOP), Past::Nothing),
];

/// Whether it makes the contact inoperative.
fn is_past(past: Past, operation: Operation) -> bool
    ensures { result ≡ is_past past operation }
{
    match past {
        Past::Nothing => false,
        Past::Emergency => is_emergency(operation.mode),
        Past::CarBypass => operation.bypass_car && !is_normal(operation.mode),
        Past::LandingBypass => operation.bypass_landing && !is_normal(operation.mode),
    }
}

fn is_emergency(mode: Mode) -> bool
    ensures { result ≡ is_emergency mode }
{
    match mode {
        Mode::Emergency => true,
        _ => false,
    }
}

fn is_normal(mode: Mode) -> bool
    ensures { result ≡ is_normal mode }
{
    match mode {
        Mode::Normal => true,
        _ => false,
    }
}

/// Whether it is made.
fn is_made(contact: Contact, image: &Image, there: &[bool; SOURCES]) -> bool
    requires { IsInside contact }
    ensures { result ≡ is_made image.now there.now contact }
{
    match contact {
        Contact::Wire(wire) => image.made(wire),
        Contact::Bit(source, bit) => bit_made(image, there, source, bit),
    }
}

/// The row of contact `i`.
fn row(i: u8) -> (Contact, Past)
    requires { i < CONTACTS }
    ensures row { Some result ≡ slice_get CHAIN i }
    ensures inside { IsInside result.0 }
{
    CHAIN[i as usize]
}

/// Whether contact `i` is neither inoperative nor made. Most are made, so that is asked first.
fn is_open(image: &Image, there: &[bool; SOURCES], operation: Operation, i: u8) -> bool
    requires { i < CONTACTS }
    ensures { result ≡ is_open image.now there.now (inoperative operation.mode operation.bypass_car operation.bypass_landing) i }
{
    let (contact, past) = row(i);
    !is_made(contact, image, there) && !is_past(past, operation)
}

/// The first contact that is neither inoperative nor made.
pub fn first_open(image: &Image, there: &[bool; SOURCES], operation: Operation) -> Option<u8>
    ensures { result ≡ first_open image.now there.now (inoperative operation.mode operation.bypass_car operation.bypass_landing) }
{
    for i in 0..CONTACTS {
        if is_open(image, there, operation, i) {
            return Some(i);
        }
    }
    None
}
