// The writes and syncs of a disk, in their order.
ghost use Rattle.std.specs.Prelude.{◌≡◌, ◌<◌, ◌≤◌, ◌==◌, ◌++◌, [], ◌∷◌, length, IfOk};

use std::alloc::{AllocError, Global};
use std::marker::Model;

/// A write or a sync, as the log has it.
#[derive(Clone, Copy, Debug, PartialEq, Eq)]
pub enum LogEntry {
    /// A write of so many bytes, the first of these.
    Wrote {
        at: u32,
        count: u32,
        bytes: [u8; 16],
    },
    /// A write of so many bytes, which failed.
    Tore {
        at: u32,
        count: u32,
    },
    /// A sync.
    Synced,
    /// A sync that failed.
    NotSynced,
}

/// A list of entries that has room for so many. Contracts see it as `LogData`.
#[derive(Drop)]
pub(crate) struct Log {
    entries: Vec<LogEntry>,
    room: usize,
}

impl Model for Log {
    ghost use Rattle.std.specs.Prelude.{◌≤◌, length, vec_capacity};
    ghost use Rattle.record_disk.specs.Log.{LogData};

    ghost Value = { LogData };

    ghost view = { λ l. record { entries = l.entries.items; room = l.room } };

    ghost invariant = { λ l. (length l.entries.items ≤ l.room) × (l.room ≤ vec_capacity l.entries) };
}

impl Log {
    /// An empty log, with all of its room taken now.
    pub(crate) fn open(alloc: Global, room: usize) -> Result<Log, AllocError>
        ensures { IfOk result (λ log. log ≡ record { entries = []; room = room }) }
    {
        let entries = Vec::with_capacity(alloc, room)?;
        Ok(Log { entries, room })
    }

    pub(crate) fn is_full(&self) -> bool
        ensures value { result ≡ (length self.now.entries == self.now.room) }
        ensures within { length self.now.entries ≤ self.now.room }
    {
        self.entries.len() == self.room
    }

    /// Adds an entry. Takes no memory.
    pub(crate) fn note(&mut self, entry: LogEntry)
        requires { length self.old.entries < self.old.room }
        ensures { self.new ≡ record { entries = self.old.entries ++ entry ∷ []; room = self.old.room } }
    {
        match self.entries.push(entry) {
            Ok(()) => {}
            Err(_) => unreachable!(),
        }
    }

    pub(crate) fn clear(&mut self)
        ensures { self.new ≡ record { entries = []; room = self.old.room } }
    {
        self.entries.clear();
    }
}
