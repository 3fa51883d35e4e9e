// Each mode has its masks: the contacts that it looks past anyway, those that it looks past where a bypass asks for it,
// and the clauses that it asks. Emergency electrical operation makes six kinds of device inoperative (EN 81-20, 5.12.1.6),
// a bypass the contacts of one kind of door, and never in normal operation (5.12.1.8).
ghost use Rattle.std.specs.Prelude.{◌≡◌, ℕ, Bool, ◌<◌, ◌^◌, get_or, false};
ghost use Rattle.std.specs.Int.RustNames.{bit_and, bit_or};
ghost use Rattle.lift_model.specs.Bits.{has};
ghost use Rattle.lift_model.specs.Chain.{bypass_set, inoperative};
ghost use Rattle.channel_masks.specs.Asked.{asked};

use crate::contacts::Contacts;
use bitflags::Flags;
use lift_base::Mode;

const NONE: Contacts = Contacts(0);

const CAR_DOOR: Contacts = Contacts(0x0800);

/// Landing doors and landing locks.
const LANDING: Contacts = Contacts(0x3000);

const DOORS: Contacts = Contacts(0x3800);

/// Governor, final limit, ascending car protection, buffers, slack rope, safety gear.
const EMERGENCY: Contacts = Contacts(0x043E);

/// The contacts that a mode looks past: always, and where their bypass is asked for.
#[derive(Clone, Copy, Debug)]
struct MaskPair {
    always: Contacts,
    bypassable: Contacts,
}

fn masks_of(mode: Mode) -> MaskPair
    ensures { (car landing : Bool)
        → bit_or result.always.0 (bit_and (bypass_set car landing) result.bypassable.0) ≡ inoperative mode car landing }
{
    match mode {
        Mode::Normal => MaskPair {
            always: NONE,
            bypassable: NONE,
        },
        Mode::Inspection => MaskPair {
            always: NONE,
            bypassable: DOORS,
        },
        Mode::Emergency => MaskPair {
            always: EMERGENCY,
            bypassable: DOORS,
        },
    }
}

/// The contacts of the doors whose bypass is asked for.
fn bypassed(car: bool, landing: bool) -> Contacts
    ensures { result.0 ≡ bypass_set car landing }
{
    match (car, landing) {
        (false, false) => NONE,
        (true, false) => CAR_DOOR,
        (false, true) => LANDING,
        (true, true) => DOORS,
    }
}

/// The contacts that are looked past.
pub fn inoperative(mode: Mode, bypass_car: bool, bypass_landing: bool) -> Contacts
    ensures { result.0 ≡ inoperative mode bypass_car bypass_landing }
{
    let masks = masks_of(mode);
    masks.always.union(bypassed(bypass_car, bypass_landing).intersection(masks.bypassable))
}

/// The clauses that each mode asks: a source has no value, a wire fails, both doors are bypassed, a contact is open, the
/// monitor is open.
const IN_EACH_MODE: u16 = 0x00C7;

/// A bypass, the pit latch, faulty doors, no request.
const IN_NORMAL: u16 = 0x0438;

/// No button of the stations, a limit.
const IN_INSPECTION: u16 = 0x0900;

/// No button of the panel.
const IN_EMERGENCY: u16 = 0x0200;

/// The clauses that a mode asks, bit i for clause i + 1.
pub fn asked(mode: Mode) -> u16
    ensures asked { (i : ℕ) → i < 12 → has result i ≡ get_or (asked mode) i false }
    ensures small { result < 2 ^ 12 }
{
    match mode {
        Mode::Normal => IN_EACH_MODE + IN_NORMAL,
        Mode::Inspection => IN_EACH_MODE + IN_INSPECTION,
        Mode::Emergency => IN_EACH_MODE + IN_EMERGENCY,
    }
}
