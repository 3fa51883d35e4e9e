// What the calls of a disk left of its bytes, kept as three lists.
ghost use Rattle.std.specs.Prelude.{◌≡◌, ◌+◌, ◌≤◌, length, IfOk};
ghost use Rattle.record_disk.specs.Disk.{IsAt};
ghost use Rattle.record_disk.specs.Image.{IsLike, after_sync, after_tear, after_write, filled, image_in, start};
ghost use Rattle.record_disk.specs.declared.sizes.TheConstants.{DISK_BYTES};

use crate::bytes::{fill_marked, mark, put, unmark, unmarked, zeros};
use crate::sizes::DISK_BYTES;
use std::alloc::{AllocError, Global};
use std::marker::Model;

/// The bytes of a disk. Contracts see it as `MirrorData`.
#[derive(Drop)]
pub(crate) struct Mirror {
    // What a read gives.
    seen: Vec<u8>,
    // What was there at the last sync.
    synced: Vec<u8>,
    // What was to be written since.
    dirty: Vec<bool>,
}

impl Model for Mirror {
    ghost use Rattle.std.specs.Prelude.{◌≡◌, length};
    ghost use Rattle.record_disk.specs.Image.{MirrorData};
    ghost use Rattle.record_disk.specs.declared.sizes.TheConstants.{DISK_BYTES};

    ghost Value = { MirrorData };

    ghost view = { λ m. record { seen = m.seen.items; synced = m.synced.items; dirty = m.dirty.items } };

    ghost invariant = { λ m. (length m.seen.items ≡ DISK_BYTES) × (length m.synced.items ≡ DISK_BYTES)
        × (length m.dirty.items ≡ DISK_BYTES) };
}

impl Mirror {
    /// A new disk, all zeros.
    pub(crate) fn open(alloc: Global) -> Result<Mirror, AllocError>
        ensures { IfOk result (λ m. IsLike (image_in m) (start (λ _. 0))) }
    {
        let size = DISK_BYTES as usize;
        let seen = zeros(alloc, size)?;
        let synced = zeros(alloc, size)?;
        let dirty = unmarked(alloc, size)?;
        Ok(Mirror {
            seen,
            synced,
            dirty,
        })
    }

    /// Gives the bytes from this place on.
    pub(crate) fn read(&self, at: usize, buf: &mut [u8])
        requires { at + length buf.old ≤ DISK_BYTES }
        ensures { IsAt (image_in self.now).seen at buf.new }
    {
        buf.copy_from_slice(&self.seen[at..at + buf.len()]);
    }

    /// What a read of all bytes gives.
    pub(crate) fn bytes(&self) -> &[u8]
        ensures bytes { result.now ≡ self.now.seen }
        ensures long { length result.now ≡ DISK_BYTES }
    {
        &self.seen
    }

    /// Puts the bytes from this place on.
    pub(crate) fn write(&mut self, at: usize, bytes: &[u8])
        requires { at + length bytes.now ≤ DISK_BYTES }
        ensures { IsLike (image_in self.new) (after_write (image_in self.old) at (length bytes.now) bytes.now) }
    {
        put(&mut self.seen, at, bytes);
        mark(&mut self.dirty, at, bytes.len());
    }

    /// A write that failed: what a read gives stays, and a crash may leave anything in the range.
    pub(crate) fn tear(&mut self, at: usize, count: usize)
        requires { at + count ≤ DISK_BYTES }
        ensures { IsLike (image_in self.new) (after_tear (image_in self.old) at count) }
    {
        mark(&mut self.dirty, at, count);
    }

    /// What a read gives is on the disk now.
    pub(crate) fn sync(&mut self)
        ensures { IsLike (image_in self.new) (after_sync (image_in self.old)) }
    {
        self.synced.copy_from_slice(&self.seen);
        unmark(&mut self.dirty);
    }

    /// A crash that leaves this byte wherever it may leave any.
    pub(crate) fn crash(&mut self, fill: u8)
        ensures { IsLike (image_in self.new) (start (filled (image_in self.old) fill)) }
    {
        fill_marked(&mut self.seen, &self.synced, &self.dirty, fill);
        self.synced.copy_from_slice(&self.seen);
        unmark(&mut self.dirty);
    }
}
