// What stands in the slots of a disk (own).
ghost use Rattle.std.specs.Prelude.{◌≡◌, ◌≤◌, ℕ, IfOk, IsErrOf};
ghost use Rattle.record_disk.specs.Disk.{BothTold, Reads};
ghost use Rattle.record_store.specs.Record.{IsCleanWith, IsForeign};
ghost use Rattle.record_store.specs.Store.{RisesWhere};
ghost use Rattle.record_store.specs.declared.slot.TheConstants.{SLOTS};

use crate::faults::OpenFault;
use crate::slot::{GATE, SLOTS, is_good, read_slot};
use record_disk::Disk;

/// Reads all slots, and answers how many entries there are.
pub(crate) fn scan<D: Disk>(disk: &mut D) -> Result<u32, OpenFault>
    ensures clean { IfOk result (λ n. BothTold (D.told disk.old) (D.told disk.new) (λ s t. IsCleanWith s.reads n)) }
    ensures few { IfOk result (λ n. n ≤ SLOTS) }
    ensures foreign { (i : ℕ) → IsErrOf result (OpenFault.Foreign i)
        → BothTold (D.told disk.old) (D.told disk.new) (λ s t. IsForeign s.reads i) }
    ensures model { BothTold (D.told disk.old) (D.told disk.new) Reads }
    ensures calls { D.calls disk.new ≡ D.calls disk.old }
    ensures cause { RisesWhere (IsErrOf result OpenFault.Failed) (D.faults disk.old) (D.faults disk.new) }
{
    let mut len: u32 = 0;
    for i in 0..SLOTS {
        let slot = read_slot(disk, i)?;
        if slot[15] == GATE {
            if len < i || !is_good(&slot, i) {
                return Err(OpenFault::Foreign(i));
            }
            len += 1;
        }
    }
    Ok(len)
}
