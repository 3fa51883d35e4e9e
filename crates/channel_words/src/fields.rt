// Reads the fields of any word, also of one that a failed side stored (own).
ghost use Rattle.std.specs.Prelude.{◌≡◌, ◌<◌, ◌^◌};
ghost use Rattle.core_model.specs.Words.{stamp_of, kind_of, reason_of, detail_of, alarm_of};

use crate::codes::kind_of_code;
use lift_base::Kind;

/// The tick that a word is of, bits 0 to 23.
pub fn stamp_of(word: u64) -> u32
    ensures stamp { result ≡ stamp_of word }
    ensures small { result < 2 ^ 24 }
{
    (word & 0xFF_FFFF) as u32
}

/// The kind, bits 24 and 25.
pub fn kind_of(word: u64) -> Kind
    ensures { result ≡ kind_of word }
{
    kind_of_code((word >> 24) & 3)
}

/// The reason of a command word, bits 26 to 31: the clause of a publish word.
pub fn reason_of(word: u64) -> u8
    ensures reason { result ≡ reason_of word }
    ensures small { result < 64 }
{
    ((word >> 26) & 63) as u8
}

/// The detail, bits 32 to 39.
pub fn detail_of(word: u64) -> u8
    ensures { result ≡ detail_of word }
{
    ((word >> 32) & 0xFF) as u8
}

/// The alarm of a command word, bit 40.
pub fn alarm_of(word: u64) -> bool
    ensures { result ≡ alarm_of word }
{
    (word >> 40) & 1 == 1
}
