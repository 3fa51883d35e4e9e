// The contacts of the safety chain as one word: those that are made, and the first that is looked at and open.
// The operation of any one contact prevents motion (EN 81-20, 5.11.2). Which contacts there are, and their order, are own.
ghost use Rattle.std.specs.Prelude.{⊤, ◌≡◌, ℕ, ◌<◌, ◌^◌, ◌&&◌, ◌||◌, not, [], ◌∷◌, codes, if◌then◌else◌};
ghost use Rattle.lift_model.specs.Bits.{has};
ghost use Rattle.lift_model.specs.Chain.{is_contact_made, first_open};

use crate::sets::lowest;
use bitflags::{Flag, Flags, bitflag_items};
use chain_table::{Image, bit_made};
use lift_base::door_bits::{CAR_DOOR, LANDING_DOORS, LANDING_LOCKS};
use lift_base::station_bits::{SAFETY_GEAR, STOP};
use lift_base::{ALL_CONTACTS, CAR, CONTACTS, DOORS, PIT, PLATFORM, ROOF, SOURCES};

/// A set of contacts, bit i for contact i.
#[derive(Clone, Copy, PartialEq, Eq, Debug)]
pub struct Contacts(pub u16);

bitflag_items! {
    impl Contacts: u16 {
        const PANEL_STOP = 0x0001;
        const GOVERNOR = 0x0002;
        const FINAL_LIMIT = 0x0004;
        const ASCENDING = 0x0008;
        const BUFFERS = 0x0010;
        const SLACK_ROPE = 0x0020;
        const PIT_DOOR = 0x0040;
        const PIT_STOP = 0x0080;
        const ROOF_STOP = 0x0100;
        const CAR_STOP = 0x0200;
        const SAFETY_GEAR = 0x0400;
        const CAR_DOOR = 0x0800;
        const LANDING_DOORS = 0x1000;
        const LANDING_LOCKS = 0x2000;
        const PLATFORM_STOP = 0x4000;
    }
}

impl Flags for Contacts {
    type Bits = u16;

    ghost exact = { ⊤ };

    ghost table = { (codes "PANEL_STOP", 0x0001) ∷ (codes "GOVERNOR", 0x0002) ∷ (codes "FINAL_LIMIT", 0x0004)
        ∷ (codes "ASCENDING", 0x0008) ∷ (codes "BUFFERS", 0x0010) ∷ (codes "SLACK_ROPE", 0x0020)
        ∷ (codes "PIT_DOOR", 0x0040) ∷ (codes "PIT_STOP", 0x0080) ∷ (codes "ROOF_STOP", 0x0100)
        ∷ (codes "CAR_STOP", 0x0200) ∷ (codes "SAFETY_GEAR", 0x0400) ∷ (codes "CAR_DOOR", 0x0800)
        ∷ (codes "LANDING_DOORS", 0x1000) ∷ (codes "LANDING_LOCKS", 0x2000)
        ∷ (codes "PLATFORM_STOP", 0x4000) ∷ [] };

    ghost set_of = { λ contacts. contacts.0 };

    fn flags<'a>() -> &'a [Flag<Contacts>] {
        Contacts::FLAGS
    }

    fn bits(&self) -> u16 {
        self.0
    }

    fn from_bits_retain(bits: u16) -> Contacts {
        Contacts(bits)
    }
}

/// The contacts that are wires, each with the wire of its own number.
const ON_WIRES: u16 = 0x007F;

/// The contacts on wires that are made: their bits are 1 in the first word and 0 in the second.
fn made_on_wires(a: u16, b: u16) -> Contacts
    ensures { (i : ℕ) → i < CONTACTS → has result.0 i ≡ (has 0x007F i && (has a i && not (has b i))) }
{
    Contacts(a & !b & ON_WIRES)
}

impl Contacts {
    /// These contacts are in the set too, where they are made.
    fn put(&mut self, contacts: Contacts, made: bool)
        ensures { (i : ℕ) → has self.new.0 i ≡ (if has contacts.0 i then has self.old.0 i || made else has self.old.0 i) }
    {
        if made {
            self.insert(contacts);
        }
    }
}

/// The contacts that are made. One whose source is not configured counts as made.
fn made_contacts(image: &Image, there: &[bool; SOURCES]) -> Contacts
    ensures { (i : ℕ) → i < CONTACTS → has result.0 i ≡ is_contact_made image.now there.now i }
{
    let mut made = made_on_wires(image.a, image.b);
    made.put(Contacts::PIT_STOP, bit_made(image, there, PIT, STOP));
    made.put(Contacts::ROOF_STOP, bit_made(image, there, ROOF, STOP));
    made.put(Contacts::CAR_STOP, bit_made(image, there, CAR, STOP));
    made.put(
        Contacts::SAFETY_GEAR,
        bit_made(image, there, ROOF, SAFETY_GEAR),
    );
    made.put(Contacts::CAR_DOOR, bit_made(image, there, DOORS, CAR_DOOR));
    made.put(
        Contacts::LANDING_DOORS,
        bit_made(image, there, DOORS, LANDING_DOORS),
    );
    made.put(
        Contacts::LANDING_LOCKS,
        bit_made(image, there, DOORS, LANDING_LOCKS),
    );
    made.put(
        Contacts::PLATFORM_STOP,
        bit_made(image, there, PLATFORM, STOP),
    );
    made
}

/// The contacts that are in neither set.
fn in_neither(past: Contacts, made: Contacts) -> Contacts
    ensures bits { (i : ℕ) → i < CONTACTS → has result.0 i ≡ (not (has past.0 i) && not (has made.0 i)) }
    ensures small { result.0 < 2 ^ CONTACTS }
{
    Contacts(!past.0 & !made.0 & ALL_CONTACTS)
}

/// The first contact that is not in `past` and not made: the lowest bit of the open set.
pub fn first_open(image: &Image, there: &[bool; SOURCES], past: Contacts) -> Option<u8>
    ensures { result ≡ first_open image.now there.now past.0 }
{
    lowest(in_neither(past, made_contacts(image, there)).0)
}
