// The changes of a path are appended to a record, one tick after the other, so that no list of them is made in memory (own).
ghost use Rattle.std.specs.Prelude.{◌≡◌, ◌≤◌, ◌<◌, ◌+◌, ◌*◌, length, true, IfOk, IsErrOf, OnErr, OnOk};
ghost use Rattle.lift_io.specs.Causes.{HasCause};
ghost use Rattle.record_disk.specs.Disk.{BothTold, CountedOnce, CountedUpTo};
ghost use Rattle.record_store.specs.Store.{KeepsAll, LeavesFront, RisesWhere, StandsOver};
ghost use Rattle.record_store.specs.declared.slot.TheConstants.{LAST_TICK, SLOTS};
ghost use Rattle.script_model.specs.Report.{changes_of};

use contactor_pair::Path;
use lift_io::Failed;
use record_disk::Disk;
use record_store::{AppendFault, RecordStore, SLOTS};
use report::{change_at, count_changes};

// Appends the changes of a path, one tick after the other. It takes no memory.
fn append_changes<D: Disk>(store: &mut RecordStore, disk: &mut D, path: &Path) -> Result<(), Failed>
    requires usable { store.old.usable ≡ true }
    requires stands { StandsOver store.old (D.told disk.old) }
    requires room { store.old.len + length (changes_of path.now.settled) ≤ SLOTS }
    requires timely { length path.now.settled ≤ LAST_TICK }
    ensures any_moment { BothTold (D.told disk.old) (D.told disk.new) (LeavesFront (changes_of path.now.settled)) }
    ensures acknowledged { OnOk result (BothTold (D.told disk.old) (D.told disk.new) (KeepsAll (changes_of path.now.settled))) }
    ensures calls { CountedUpTo (4 * length (changes_of path.now.settled)) (D.calls disk.old) (D.calls disk.new) }
    ensures called { OnErr result (CountedOnce (D.calls disk.old) (D.calls disk.new)) }
    ensures cause { HasCause (D.faults disk.old) (D.faults disk.new) result }
{
    for before in 0..path.len() {
        let change = change_at(path, before + 1);
        store.append_all(disk, change.as_slice())?;
    }
    Ok(())
}

/// Stores the changes of a path in an opened record, where it has room for them, and answers how many entries it has then. It takes no
/// memory. `Full`: there is no room for them, and none was appended. `Failed`: the disk's count rose; open the record again.
pub fn store_changes<D: Disk>(
    mut store: RecordStore,
    disk: &mut D,
    path: &Path,
) -> Result<u32, AppendFault>
    requires usable { store.usable ≡ true }
    requires stands { StandsOver store (D.told disk.old) }
    requires timely { length path.now.settled ≤ LAST_TICK }
    ensures any_moment { BothTold (D.told disk.old) (D.told disk.new) (LeavesFront (changes_of path.now.settled)) }
    ensures acknowledged { OnOk result (BothTold (D.told disk.old) (D.told disk.new) (KeepsAll (changes_of path.now.settled))) }
    ensures count { IfOk result (λ count. count ≡ store.len + length (changes_of path.now.settled)) }
    ensures within { IfOk result (λ count. count ≤ SLOTS) }
    ensures full { IsErrOf result AppendFault.Full
        → (SLOTS < store.len + length (changes_of path.now.settled)) × (disk.new ≡ disk.old) }
    ensures calls { CountedUpTo (4 * length (changes_of path.now.settled)) (D.calls disk.old) (D.calls disk.new) }
    ensures called { IsErrOf result AppendFault.Failed → CountedOnce (D.calls disk.old) (D.calls disk.new) }
    ensures cause { RisesWhere (IsErrOf result AppendFault.Failed) (D.faults disk.old) (D.faults disk.new) }
{
    let count = store.len() + count_changes(path);
    if count > SLOTS {
        return Err(AppendFault::Full);
    }
    match append_changes(&mut store, disk, path) {
        Ok(()) => Ok(count),
        Err(Failed) => Err(AppendFault::Failed),
    }
}
