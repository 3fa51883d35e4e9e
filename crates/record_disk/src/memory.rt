// A disk in memory, which fails at the calls that it is told, and keeps a log of its writes and syncs.
ghost use Rattle.std.specs.Prelude.{◌≡◌, ◌⊎◌, ◌↔◌, ◌≤◌, ◌+◌, [], length, Contains, IfOk, IsErr, OnOk, Some};
ghost use Rattle.lift_io.specs.Causes.{HasCause};
ghost use Rattle.record_disk.specs.Disk.{BothTold, Counted, IfTold, IsAt, IsPresent, IsSynced, Reads, Same, Syncs, Told, Writes};
ghost use Rattle.record_disk.specs.Image.{Leaves, content_of};
ghost use Rattle.record_disk.specs.Memory.{CallsData, FailsNext, IsCrashed, IsListed, IsNew, LogsSync, LogsWrite, called, image_of, one_made, told_by};
ghost use Rattle.record_disk.specs.Present.{present};
ghost use Rattle.record_disk.specs.declared.sizes.TheConstants.{DISK_BYTES, MOST_LOGGED, MOST_WRITTEN};

use crate::bytes::{padded, zeros};
use crate::calls::Calls;
use crate::log::Log;
use crate::mirror::Mirror;
use crate::sizes::DISK_BYTES;
use crate::{Disk, LogEntry};
use lift_io::{Failed, NoMemory};
use std::alloc::{AllocError, Global};
use std::marker::Model;

/// A disk in memory. Contracts see it as `MemoryData`.
#[derive(Drop)]
pub struct MemoryDisk {
    // The bytes at first; with the log they tell each earlier moment.
    first: Vec<u8>,
    log: Log,
    mirror: Mirror,
    reads: Calls,
    writes: Calls,
    syncs: Calls,
    faults: u64,
}

impl Model for MemoryDisk {
    ghost use Rattle.std.specs.Prelude.{◌≡◌, length};
    ghost use Rattle.record_disk.specs.Image.{IsLike, content_of, image_in, start};
    ghost use Rattle.record_disk.specs.Log.{after};
    ghost use Rattle.record_disk.specs.Memory.{MemoryData};
    ghost use Rattle.record_disk.specs.declared.sizes.TheConstants.{DISK_BYTES};

    ghost Value = { MemoryData };

    ghost view = { λ d. record {
      first = d.first.items;
      log = d.log;
      reads = d.reads;
      writes = d.writes;
      syncs = d.syncs;
      faults = d.faults;
    } };

    ghost invariant = { λ d. (length d.first.items ≡ DISK_BYTES)
        × IsLike (image_in d.mirror) (after (start (content_of d.first.items)) d.log.entries) };
}

impl MemoryDisk {
    /// A new disk. The calls of each kind with these numbers fail, the first being 1. Its log has room for so many writes and syncs,
    /// and a write or a sync past it fails too. `NoMemory`: there is no memory for it.
    pub fn open(
        alloc: Global,
        room: u32,
        reads: Vec<u32>,
        writes: Vec<u32>,
        syncs: Vec<u32>,
    ) -> Result<MemoryDisk, NoMemory>
        requires { room ≤ MOST_LOGGED }
        ensures { IfOk result (IsNew room reads.items writes.items syncs.items) }
    {
        match Self::try_open(alloc, room as usize, reads, writes, syncs) {
            Ok(disk) => Ok(disk),
            Err(_) => Err(NoMemory),
        }
    }

    // As `open`, with std's error.
    fn try_open(
        alloc: Global,
        room: usize,
        reads: Vec<u32>,
        writes: Vec<u32>,
        syncs: Vec<u32>,
    ) -> Result<MemoryDisk, AllocError>
        ensures { IfOk result (IsNew room reads.items writes.items syncs.items) }
    {
        let first = zeros(alloc, DISK_BYTES as usize)?;
        let log = Log::open(alloc, room)?;
        let mirror = Mirror::open(alloc)?;
        Ok(MemoryDisk {
            first,
            log,
            mirror,
            reads: Calls::failing_at(reads),
            writes: Calls::failing_at(writes),
            syncs: Calls::failing_at(syncs),
            faults: 0,
        })
    }

    /// The disk after a crash: what was on it at the last sync, and this byte wherever a write since then was to put one.
    /// It has an empty log, and no call of it is to fail.
    pub fn after_crash(mut self, fill: u8) -> MemoryDisk
        ensures crashed { IsCrashed self result fill }
        ensures left { Leaves (image_of self) (image_of result).seen }
    {
        self.mirror.crash(fill);
        self.first.copy_from_slice(self.mirror.bytes());
        self.log.clear();
        self.reads.clear();
        self.writes.clear();
        self.syncs.clear();
        self.faults = 0;
        self
    }
}

impl Disk for MemoryDisk {
    ghost told = { told_by };

    ghost calls = { λ d. Some (called d) };

    ghost faults = { λ d. d.faults };

    ghost present = { λ d. present (content_of d.first) d.log.entries };

    fn read(&mut self, at: u32, buf: &mut [u8]) -> Result<(), Failed>
        requires inside { at + length buf.old ≤ DISK_BYTES }
        ensures model { BothTold (told_by self.old) (told_by self.new) Reads }
        ensures bytes { BothTold (told_by self.old) (told_by self.new) (λ s t. OnOk result (IsAt s.reads at buf.new)) }
        ensures calls { Some (called self.new) ≡ Some (called self.old) }
        ensures cause { HasCause self.old.faults self.new.faults result }

        // It fails exactly where its number is listed.
        ensures fails { IsErr result ↔ IsListed self.old.reads }
        ensures made { self.new.reads ≡ one_made self.old.reads }
        ensures same { self.new ≡ record self.old { reads = self.new.reads; faults = self.new.faults } }
    {
        if self.reads.next_fails() {
            self.faults = self.faults.saturating_add(1);
            return Err(Failed);
        }
        self.mirror.read(at as usize, buf);
        Ok(())
    }

    fn write_at(&mut self, at: u32, bytes: &[u8]) -> Result<(), Failed>
        requires some { 1 ≤ length bytes.now }
        requires few { length bytes.now ≤ MOST_WRITTEN }
        requires inside { at + length bytes.now ≤ DISK_BYTES }
        ensures model { BothTold (told_by self.old) (told_by self.new) (Writes at (length bytes.now)) }
        ensures written { BothTold (told_by self.old) (told_by self.new) (λ s t. OnOk result (IsAt t.reads at bytes.now)) }
        ensures calls { Counted (Some (called self.old)) (Some (called self.new)) }
        ensures cause { HasCause self.old.faults self.new.faults result }

        // It fails exactly where its number is listed, or where the log has no room left.
        ensures fails { IsErr result ↔ FailsNext self.old.writes self.old.log }
        ensures made { self.new.writes ≡ one_made self.old.writes }
        ensures log { LogsWrite self.old.log self.new.log at bytes.now result }
        ensures same { self.new ≡ record self.old { log = self.new.log; writes = self.new.writes; faults = self.new.faults } }
    {
        let fails = self.writes.next_fails();
        let count = bytes.len() as u32;
        if self.log.is_full() {
            self.faults = self.faults.saturating_add(1);
            return Err(Failed);
        }
        if fails {
            self.faults = self.faults.saturating_add(1);
            self.log.note(LogEntry::Tore { at, count });
            self.mirror.tear(at as usize, bytes.len());
            return Err(Failed);
        }
        self.log.note(LogEntry::Wrote {
            at,
            count,
            bytes: padded(bytes),
        });
        self.mirror.write(at as usize, bytes);
        Ok(())
    }

    fn sync(&mut self) -> Result<(), Failed>
        ensures model { BothTold (told_by self.old) (told_by self.new) Syncs }
        ensures synced { BothTold (told_by self.old) (told_by self.new) (λ s t. OnOk result (IsSynced s t)) }
        ensures calls { Counted (Some (called self.old)) (Some (called self.new)) }
        ensures cause { HasCause self.old.faults self.new.faults result }

        // It fails exactly where its number is listed, or where the log has no room left.
        ensures fails { IsErr result ↔ FailsNext self.old.syncs self.old.log }
        ensures made { self.new.syncs ≡ one_made self.old.syncs }
        ensures log { LogsSync self.old.log self.new.log result }
        ensures same { self.new ≡ record self.old { log = self.new.log; syncs = self.new.syncs; faults = self.new.faults } }
    {
        let fails = self.syncs.next_fails();
        if self.log.is_full() {
            self.faults = self.faults.saturating_add(1);
            return Err(Failed);
        }
        if fails {
            self.faults = self.faults.saturating_add(1);
            self.log.note(LogEntry::NotSynced);
            return Err(Failed);
        }
        self.log.note(LogEntry::Synced);
        self.mirror.sync();
        Ok(())
    }
}
