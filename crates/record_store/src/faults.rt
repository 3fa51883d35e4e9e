// Why a record was not opened, or a change not stored (own).
ghost use Rattle.std.specs.Prelude.{◌≡◌};
ghost use Rattle.record_store.specs.declared.faults.OpenFault.TheVariants.{Failed};

use lift_io::Failed;

/// Why a record was not opened.
#[derive(Clone, Copy, Debug, PartialEq, Eq)]
pub enum OpenFault {
    /// The disk has failed.
    Failed,
    /// The disk holds no record. This slot is the first whose gate is up and that is not good, or that comes after one whose gate is not.
    Foreign(u32),
}

impl From<Failed> for OpenFault {
    ghost from_gives = { λ _ e. e ≡ Failed };

    fn from(_: Failed) -> Self {
        OpenFault::Failed
    }
}

/// Why a change was not appended.
#[derive(Clone, Copy, Debug, PartialEq, Eq)]
pub enum AppendFault {
    /// The disk has failed.
    Failed,
    /// There are as many entries as slots.
    Full,
}
