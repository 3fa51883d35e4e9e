// A record over a disk: what was appended is on the disk, whatever a crash does (own).
ghost use Rattle.std.specs.Prelude.{◌≡◌, ◌≤◌, ◌<◌, ◌+◌, ◌*◌, ◌↔◌, [], ◌∷◌, ℕ, List, length, All, Some, true, false, slice_get, OnOk, OnErr, IfOk, IsErr, IsErrOf};
ghost use Rattle.lift_io.specs.Causes.{HasCause};
ghost use Rattle.script_model.specs.Changes.{ChangeData};
ghost use Rattle.record_disk.specs.Disk.{BothTold, CountedOnce, CountedUpTo, LeavesOnly, Reads, Same};
ghost use Rattle.record_store.specs.Record.{IsClean, IsCleanWith, IsForeign, IsUnclean};
ghost use Rattle.record_store.specs.Store.{IsTimely, KeepsAll, LeavesFront, LeavesOneMore, RisesWhere, StandsOver};
ghost use Rattle.record_store.specs.declared.slot.TheConstants.{SLOTS};

use crate::faults::{AppendFault, OpenFault};
use crate::scan::scan;
use crate::slot::{GATE, SLOTS, change_in, head_of, read_slot};
use crate::writing::write_slot;
use event_record::Change;
use lift_io::Failed;
use record_disk::Disk;
use std::marker::Model;

/// A record of changes over a disk. Contracts see it as `StoreData`.
#[derive(Debug, Drop)]
pub struct RecordStore {
    len: u32,
    usable: bool,
}

impl Model for RecordStore {
    ghost use Rattle.std.specs.Prelude.{◌≤◌};
    ghost use Rattle.record_store.specs.Store.{StoreData};
    ghost use Rattle.record_store.specs.declared.slot.TheConstants.{SLOTS};

    ghost Value = { StoreData };

    ghost view = { λ s. record { len = s.len; usable = s.usable } };

    ghost invariant = { λ s. s.len ≤ SLOTS };
}

impl RecordStore {
    /// Reads a record, and adds nothing. `Foreign` has the first slot that does not belong there. `Failed`: the disk's count rose.
    pub fn open<D: Disk>(disk: &mut D) -> Result<RecordStore, OpenFault>
        ensures usable { IfOk result (λ store. store.usable ≡ true) }
        ensures clean { IfOk result (λ store. BothTold (D.told disk.old) (D.told disk.new) (λ s t. IsCleanWith s.reads store.len)) }
        ensures stands { IfOk result (λ store. StandsOver store (D.told disk.new)) }
        ensures foreign { (i : ℕ) → IsErrOf result (OpenFault.Foreign i)
            → BothTold (D.told disk.old) (D.told disk.new) (λ s t. IsForeign s.reads i × IsUnclean s.reads) }

        // What a read gives stays where no call failed, and a crash leaves at any moment what it might have left before.
        ensures same { (IsErrOf result OpenFault.Failed → ⊥) → BothTold (D.told disk.old) (D.told disk.new) (λ s t. Same t.reads s.reads) }
        ensures any_moment { BothTold (D.told disk.old) (D.told disk.new) (λ s t. LeavesOnly s t s.may_leave) }
        ensures calls { CountedUpTo 1 (D.calls disk.old) (D.calls disk.new) }
        ensures called { CountedOnce (D.calls disk.old) (D.calls disk.new) }
        ensures cause { RisesWhere (IsErrOf result OpenFault.Failed) (D.faults disk.old) (D.faults disk.new) }
    {
        disk.sync()?;
        match scan(disk) {
            Ok(len) => Ok(RecordStore { len, usable: true }),
            Err(fault) => Err(fault),
        }
    }

    /// The entry at this place, from 0. `Failed`: the disk's count rose.
    pub fn get<D: Disk>(&self, disk: &mut D, i: u32) -> Result<Change, Failed>
        requires usable { self.now.usable ≡ true }
        requires stands { StandsOver self.now (D.told disk.old) }
        requires inside { i < self.now.len }
        ensures entry { IfOk result (λ change. BothTold (D.told disk.old) (D.told disk.new)
            (λ s t. (entries : List ChangeData) → IsClean s.reads entries → slice_get entries i ≡ Some change)) }
        ensures model { BothTold (D.told disk.old) (D.told disk.new) Reads }
        ensures stands { StandsOver self.now (D.told disk.new) }
        ensures calls { D.calls disk.new ≡ D.calls disk.old }
        ensures cause { HasCause (D.faults disk.old) (D.faults disk.new) result }
    {
        let inside = i < self.len;
        prove!(inside);
        let slot = read_slot(disk, i)?;
        Ok(change_in(&slot))
    }

    /// False exactly after an append that answered `Failed`.
    pub fn usable(&self) -> bool
        ensures { result ≡ self.now.usable }
    {
        self.usable
    }

    /// How many entries it has.
    pub fn len(&self) -> u32
        ensures value { result ≡ self.now.len }
        ensures within { result ≤ SLOTS }
    {
        self.len
    }

    /// Adds an entry. After `Ok` every crash leaves it. After `Failed`, which comes where the disk's count rose, open the record again.
    /// `Full`: there are as many entries as slots.
    pub fn append<D: Disk>(&mut self, disk: &mut D, change: &Change) -> Result<(), AppendFault>
        requires usable { self.old.usable ≡ true }
        requires stands { StandsOver self.old (D.told disk.old) }
        requires timely { IsTimely change.now }

        // A crash at any moment of the call leaves the entries from before it, with the new one or without; after Ok with it.
        ensures any_moment { BothTold (D.told disk.old) (D.told disk.new) (LeavesOneMore change.now) }
        ensures acknowledged { OnOk result (BothTold (D.told disk.old) (D.told disk.new) (KeepsAll (change.now ∷ []))) }
        ensures stands { OnOk result (StandsOver self.new (D.told disk.new)) }
        ensures len { OnOk result (self.new.len ≡ self.old.len + 1) }
        ensures full { IsErrOf result AppendFault.Full ↔ self.old.len ≡ SLOTS }
        ensures nothing { IsErrOf result AppendFault.Full → (disk.new ≡ disk.old) × (self.new ≡ self.old) }
        ensures usable { self.new.usable ≡ false ↔ IsErrOf result AppendFault.Failed }
        ensures calls { CountedUpTo 4 (D.calls disk.old) (D.calls disk.new) }
        ensures called { IsErrOf result AppendFault.Failed → CountedOnce (D.calls disk.old) (D.calls disk.new) }
        ensures cause { RisesWhere (IsErrOf result AppendFault.Failed) (D.faults disk.old) (D.faults disk.new) }
    {
        if self.len == SLOTS {
            return Err(AppendFault::Full);
        }
        let head = head_of(change, self.len);
        match write_slot(disk, self.len, &head) {
            Ok(()) => {
                self.len += 1;
                Ok(())
            }
            Err(Failed) => {
                self.usable = false;
                Err(AppendFault::Failed)
            }
        }
    }

    /// Adds entries, one after the other. After `Ok` every crash leaves them all. `Failed`: the disk's count rose; open the record again.
    pub fn append_all<D: Disk>(&mut self, disk: &mut D, changes: &[Change]) -> Result<(), Failed>
        requires usable { self.old.usable ≡ true }
        requires stands { StandsOver self.old (D.told disk.old) }
        requires room { self.old.len + length changes.now ≤ SLOTS }
        requires timely { All IsTimely changes.now }

        // A crash at any moment of the call leaves the entries from before it and a front of the changes; after Ok all of them.
        ensures any_moment { BothTold (D.told disk.old) (D.told disk.new) (LeavesFront changes.now) }
        ensures acknowledged { OnOk result (BothTold (D.told disk.old) (D.told disk.new) (KeepsAll changes.now)) }
        ensures stands { OnOk result (StandsOver self.new (D.told disk.new)) }
        ensures len { OnOk result (self.new.len ≡ self.old.len + length changes.now) }
        ensures usable { self.new.usable ≡ false ↔ IsErr result }
        ensures calls { CountedUpTo (4 * length changes.now) (D.calls disk.old) (D.calls disk.new) }
        ensures called { OnErr result (CountedOnce (D.calls disk.old) (D.calls disk.new)) }
        ensures cause { HasCause (D.faults disk.old) (D.faults disk.new) result }
    {
        for change in changes {
            match self.append(disk, change) {
                Ok(()) => {}
                Err(AppendFault::Failed) => return Err(Failed),
                Err(AppendFault::Full) => unreachable!(),
            }
        }
        Ok(())
    }
}
