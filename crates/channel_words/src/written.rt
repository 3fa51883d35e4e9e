// Writes words. The stamp, in bits 0 to 23, is the tick that a word is of; the kind stands at bit 24, the clause or the reason at 26,
// the detail at 32, and above them the mode and the bypass of a verdict, or the alarm of a command (own).
ghost use Rattle.std.specs.Prelude.{◌≡◌, ◌<◌, ◌^◌};
ghost use Rattle.core_model.specs.Words.{publish_word, command_word};

use crate::codes::{kind_code, mode_code};
use lift_base::{Kind, Verdict};

/// What a channel tells the other of its verdict at the tick `stamp`.
pub fn publish_word(stamp: u32, verdict: &Verdict) -> u64
    requires { stamp < 2 ^ 24 }
    ensures { result ≡ publish_word stamp verdict.now }
{
    u64::from(stamp)
        + (kind_code(verdict.kind) << 24)
        + (u64::from(verdict.clause) << 26)
        + (u64::from(verdict.detail) << 32)
        + (mode_code(verdict.mode) << 40)
        + (u64::from(verdict.bypass) << 42)
}

/// What a supervisor orders its contactor at the tick `stamp`. The reason tells why it is Off: a clause, or a reason of the supervisor.
pub fn command_word(stamp: u32, kind: Kind, reason: u8, detail: u8, alarm: bool) -> u64
    requires stamp { stamp < 2 ^ 24 }
    requires reason { reason < 64 }
    ensures { result ≡ command_word (record { stamp = stamp; kind = kind; reason = reason; detail = detail; alarm = alarm }) }
{
    u64::from(stamp)
        + (kind_code(kind) << 24)
        + (u64::from(reason) << 26)
        + (u64::from(detail) << 32)
        + (u64::from(alarm) << 40)
}
