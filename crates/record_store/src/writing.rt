// How a slot is written, so that a crash leaves it whole or not at all (own).
ghost use Rattle.std.specs.Prelude.{◌≡◌, ◌<◌, ◌≤◌, ◌+◌, length, OnOk};
ghost use Rattle.lift_io.specs.Causes.{HasCause};
ghost use Rattle.record_disk.specs.Disk.{BothTold, CountedOnce, CountedUpTo, IfTold};
ghost use Rattle.record_disk.specs.declared.sizes.TheConstants.{DISK_BYTES, MOST_WRITTEN};
ghost use Rattle.record_store.specs.Writing.{IsDurable, LeavesOthers, LeavesPart, PutsOnDisk, WritesSlot};
ghost use Rattle.record_store.specs.declared.slot.TheConstants.{SLOTS};

use crate::slot::GATE;
use lift_io::Failed;
use record_disk::Disk;

/// Writes a slot: its bytes before the gate, and once these are on the disk, the gate.
pub(crate) fn write_slot<D: Disk>(disk: &mut D, i: u32, head: &[u8; 15]) -> Result<(), Failed>
    requires place { i < SLOTS }
    requires durable { IfTold (D.told disk.old) IsDurable }
    ensures any_moment { BothTold (D.told disk.old) (D.told disk.new) (LeavesPart i head.now) }
    ensures written { BothTold (D.told disk.old) (D.told disk.new) (λ s t. OnOk result (WritesSlot i head.now s t)) }
    ensures calls { CountedUpTo 4 (D.calls disk.old) (D.calls disk.new) }
    ensures called { CountedOnce (D.calls disk.old) (D.calls disk.new) }
    ensures cause { HasCause (D.faults disk.old) (D.faults disk.new) result }
{
    let at = 16 * i;
    put_on_disk(disk, at, head)?;
    put_on_disk(disk, at + 15, &[GATE])
}

// Writes bytes, and has the disk keep them.
fn put_on_disk<D: Disk>(disk: &mut D, at: u32, bytes: &[u8]) -> Result<(), Failed>
    requires some { 1 ≤ length bytes.now }
    requires few { length bytes.now ≤ MOST_WRITTEN }
    requires inside { at + length bytes.now ≤ DISK_BYTES }
    requires durable { IfTold (D.told disk.old) IsDurable }
    ensures any_moment { BothTold (D.told disk.old) (D.told disk.new) (LeavesOthers at (length bytes.now)) }
    ensures written { BothTold (D.told disk.old) (D.told disk.new) (λ s t. OnOk result (PutsOnDisk at bytes.now s t)) }
    ensures calls { CountedUpTo 2 (D.calls disk.old) (D.calls disk.new) }
    ensures called { CountedOnce (D.calls disk.old) (D.calls disk.new) }
    ensures cause { HasCause (D.faults disk.old) (D.faults disk.new) result }
{
    disk.write_at(at, bytes)?;
    disk.sync()
}
