// The last changes that were noted, oldest first.
ghost use Rattle.std.specs.Prelude.{◌≡◌, ◌≤◌, ◌<◌, ◌++◌, [], ◌∷◌, List, length, slice_get, Some, IfOk};
ghost use Rattle.script_model.specs.Changes.{ChangeData};
ghost use Rattle.script_model.specs.Last.{last_of};
ghost use Rattle.event_record.specs.Record.{Keeps};
ghost use Rattle.event_record.specs.declared.record.TheConstants.{MOST_CHANGES};

use crate::Change;
use circular_buffer::HeapCircularBuffer;
use lift_io::NoMemory;
use std::alloc::Global;
use std::marker::Model;

/// The most changes that a record may keep.
pub const MOST_CHANGES: u32 = 1_000;

/// The last changes that were noted. A contract sees the list of them, oldest first, and the size: how many there may be.
#[derive(Drop)]
pub struct Record {
    changes: HeapCircularBuffer<Change>,
}

impl Model for Record {
    ghost use Rattle.std.specs.Prelude.{◌≤◌};
    ghost use Rattle.event_record.specs.Record.{RecordData};
    ghost use Rattle.event_record.specs.declared.record.TheConstants.{MOST_CHANGES};

    ghost Value = { RecordData };

    ghost view = { λ r. record { changes = r.changes.items; size = r.changes.capacity } };

    ghost invariant = { λ r. r.changes.capacity ≤ MOST_CHANGES };
}

impl Record {
    /// An empty record of this size, all of it taken now. `NoMemory`: there is no memory for it.
    pub fn open(alloc: Global, size: u32) -> Result<Record, NoMemory>
        requires some { 1 ≤ size }
        requires few { size ≤ MOST_CHANGES }
        ensures empty { IfOk result (λ r. r ≡ record { changes = []; size = size }) }
        ensures keeps { IfOk result (Keeps []) }
    {
        match HeapCircularBuffer::with_capacity(alloc, size as usize) {
            Ok(changes) => Ok(Record { changes }),
            Err(_) => Err(NoMemory),
        }
    }

    /// Notes a change. In a full record it takes the place of the oldest.
    pub fn note(&mut self, change: Change)
        ensures last { self.new.changes ≡ last_of self.old.size (self.old.changes ++ change ∷ []) }
        ensures size { self.new.size ≡ self.old.size }
        ensures keeps { (noted : List ChangeData) → Keeps noted self.old → Keeps (noted ++ change ∷ []) self.new }
    {
        let _ = self.changes.push_back(change);
    }

    /// How many changes it keeps.
    pub fn len(&self) -> u32
        ensures value { result ≡ length self.now.changes }
        ensures within { result ≤ self.now.size }
    {
        self.changes.len() as u32
    }

    /// The change at this place, from 0, the oldest.
    pub fn get(&self, i: u32) -> Change
        requires { i < length self.now.changes }
        ensures { slice_get self.now.changes i ≡ Some result }
    {
        match self.changes.get(i as usize) {
            Some(change) => *change,
            None => unreachable!(),
        }
    }
}
