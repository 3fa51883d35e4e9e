// The bytes of a slot, which hold one change (own).
ghost use Rattle.std.specs.Prelude.{◌≡◌, ◌<◌, ◌*◌, ◌↔◌, IfOk, IsTrue};
ghost use Rattle.core_model.specs.Words.{kind_code, kind_of_code};
ghost use Rattle.lift_io.specs.Causes.{HasCause};
ghost use Rattle.record_disk.specs.Disk.{BothTold, Reads};
ghost use Rattle.record_store.specs.Slot.{IsGood, change_in, head_of, number_in, slot, tick_in};

use event_record::Change;
use lift_base::Kind;
use lift_io::Failed;
use record_disk::Disk;

/// How many slots a record has, of 16 bytes each.
pub const SLOTS: u32 = 10_000;

/// The last byte of a slot whose gate is up.
pub const GATE: u8 = 0xA5;

/// The last tick of a change that may be stored.
pub const LAST_TICK: u32 = 200_000;

/// Reads the bytes of a slot.
pub(crate) fn read_slot<D: Disk>(disk: &mut D, i: u32) -> Result<[u8; 16], Failed>
    requires { i < SLOTS }
    ensures slot { IfOk result (λ bytes. BothTold (D.told disk.old) (D.told disk.new) (λ s t. bytes ≡ slot s.reads i)) }
    ensures model { BothTold (D.told disk.old) (D.told disk.new) Reads }
    ensures calls { D.calls disk.new ≡ D.calls disk.old }
    ensures cause { HasCause (D.faults disk.old) (D.faults disk.new) result }
{
    let mut bytes = [0; 16];
    disk.read(16 * i, &mut bytes)?;
    Ok(bytes)
}

fn tick_in(slot: &[u8; 16]) -> u32
    ensures { result ≡ tick_in slot.now }
{
    u32::from_le_bytes([slot[0], slot[1], slot[2], slot[3]])
}

fn number_in(slot: &[u8; 16]) -> u32
    ensures { result ≡ number_in slot.now }
{
    u32::from_le_bytes([slot[8], slot[9], slot[10], slot[11]])
}

/// It is a slot of this number, its gate is up, and it holds a change.
pub(crate) fn is_good(slot: &[u8; 16], i: u32) -> bool
    ensures { IsTrue result ↔ IsGood slot.now i }
{
    let tick = tick_in(slot);
    let marked = slot[15] == GATE && number_in(slot) == i;
    let zeros = slot[12] == 0 && slot[13] == 0 && slot[14] == 0;
    marked && slot[4] <= 3 && slot[5] <= 1 && zeros && 1 <= tick && tick <= LAST_TICK
}

/// The change that a good slot holds.
pub(crate) fn change_in(slot: &[u8; 16]) -> Change
    ensures { result ≡ change_in slot.now }
{
    Change {
        tick: tick_in(slot),
        power: kind_of_code(slot[4]),
        alarm: slot[5] == 1,
        reason: slot[6],
        detail: slot[7],
    }
}

/// Bytes 0 to 14 of the slot of a change: all but the gate.
pub(crate) fn head_of(change: &Change, i: u32) -> [u8; 15]
    ensures { result ≡ head_of change.now i }
{
    let [t0, t1, t2, t3] = change.tick.to_le_bytes();
    let [n0, n1, n2, n3] = i.to_le_bytes();
    let kind = kind_code(change.power);
    let alarm = u8::from(change.alarm);
    let (reason, detail) = (change.reason, change.detail);
    [
        t0, t1, t2, t3, kind, alarm, reason, detail, n0, n1, n2, n3, 0, 0, 0,
    ]
}

fn kind_code(kind: Kind) -> u8
    ensures { result ≡ kind_code kind }
{
    match kind {
        Kind::Off => 0,
        Kind::Full => 1,
        Kind::Up => 2,
        Kind::Down => 3,
    }
}

fn kind_of_code(code: u8) -> Kind
    ensures { result ≡ kind_of_code code }
{
    match code {
        0 => Kind::Off,
        1 => Kind::Full,
        2 => Kind::Up,
        _ => Kind::Down,
    }
}
