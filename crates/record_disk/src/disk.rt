// A disk as a record sees it: what a read gives, and what a crash may leave.
ghost use Rattle.std.specs.Prelude.{◌≡◌, ◌+◌, ◌≤◌, ℕ, length, OnOk};
ghost use Rattle.std.specs.declared.option.Option.{Option};
ghost use Rattle.lift_io.specs.Causes.{HasCause};
ghost use Rattle.record_disk.specs.Disk.{BothTold, Counted, IfTold, IsAt, IsPresent, IsSynced, Reads, Syncs, Told, Writes};
ghost use Rattle.record_disk.specs.declared.sizes.TheConstants.{DISK_BYTES, MOST_WRITTEN};

use lift_io::Failed;

/// A disk of 160,000 bytes, all zeros when it is new. An implementation may fail at any call, and counts it: the count rises in a call
/// that fails, and in no other.
pub trait Disk {
    /// The present moment, what a read gives, and which contents a crash may leave, where it tells them.
    ghost told: { Self → Told };

    /// How many writes and syncs were called, where it tells that; at 2^64 - 1 the number stays.
    ghost calls: { Self → Option ℕ };

    /// How often it has failed.
    ghost faults: { Self → ℕ };

    /// Fills `buf` with the bytes from this place on. `Failed`: the count rose.
    fn read(&mut self, at: u32, buf: &mut [u8]) -> Result<(), Failed>
        requires inside { at + length buf.old ≤ DISK_BYTES }
        ensures model { BothTold (told self.old) (told self.new) Reads }
        ensures bytes { BothTold (told self.old) (told self.new) (λ s t. OnOk result (IsAt s.reads at buf.new)) }
        ensures calls { calls self.new ≡ calls self.old }
        ensures cause { HasCause (faults self.old) (faults self.new) result };

    /// Writes over what is there. Until a sync a crash may leave anything in the range, also where the write failed.
    /// `Failed`: the count rose.
    fn write_at(&mut self, at: u32, bytes: &[u8]) -> Result<(), Failed>
        requires some { 1 ≤ length bytes.now }
        requires few { length bytes.now ≤ MOST_WRITTEN }
        requires inside { at + length bytes.now ≤ DISK_BYTES }
        ensures model { BothTold (told self.old) (told self.new) (Writes at (length bytes.now)) }
        ensures written { BothTold (told self.old) (told self.new) (λ s t. OnOk result (IsAt t.reads at bytes.now)) }
        ensures calls { Counted (calls self.old) (calls self.new) }
        ensures cause { HasCause (faults self.old) (faults self.new) result };

    /// After `Ok` a crash leaves what a read gives. `Failed`: the count rose.
    fn sync(&mut self) -> Result<(), Failed>
        ensures model { BothTold (told self.old) (told self.new) Syncs }
        ensures synced { BothTold (told self.old) (told self.new) (λ s t. OnOk result (IsSynced s t)) }
        ensures calls { Counted (calls self.old) (calls self.new) }
        ensures cause { HasCause (faults self.old) (faults self.new) result };

    /// At each moment a crash may leave what a read gives, and since that moment there is no other.
    ghost present: { (disk : Self) → IfTold (told disk) IsPresent };
}
