// Why a tick settled Off: the first side whose output is Off tells it, by what was forced on it, by the age of its command word,
// or by the reason that the word gives (own).
ghost use Rattle.std.specs.Prelude.{◌≡◌};
ghost use Rattle.script_model.specs.Report.{bare, is_stale, reason_at, reason_in, reason_of_out};

use channel_words::{detail_of, reason_of, stamp_of};
use contactor_pair::{Out, Settled};
use core_model::{COMMAND_AGE, CONTACTOR_OPEN};
use lift_base::Kind;
use script_model::{FORCED, KINDS_DIFFER, STALE, UNKNOWN};
use std::marker::Model;

/// A reason: its code, and what a clause failed at.
#[derive(Clone, Copy, Debug, PartialEq, Eq)]
pub struct Reason {
    pub code: u8,
    pub detail: u8,
}

impl Model for Reason {
    ghost use Rattle.script_model.specs.Report.{Reason};

    ghost Value = { Rattle.script_model.specs.Report.Reason };

    ghost view = { λ r. record { code = r.code; detail = r.detail } };

    ghost inverse = { λ r. record { code = r.code; detail = r.detail } };
}

/// A reason without a detail.
pub fn bare(code: u8) -> Reason
    ensures { result ≡ bare code }
{
    Reason { code, detail: 0 }
}

/// Whether a command word is of a later tick, or counts no more.
pub fn is_stale(word: u64, tick: u32) -> bool
    ensures { result ≡ is_stale word tick }
{
    let stamp = stamp_of(word);
    tick < stamp || stamp + COMMAND_AGE < tick
}

fn reason_in(word: u64) -> Reason
    ensures { result ≡ reason_in word }
{
    let code = reason_of(word);
    if CONTACTOR_OPEN < code {
        bare(UNKNOWN)
    } else {
        Reason {
            code,
            detail: detail_of(word),
        }
    }
}

fn reason_of_out(out: &Out, tick: u32) -> Reason
    ensures { result ≡ reason_of_out out.now tick }
{
    if out.forced {
        bare(FORCED)
    } else if is_stale(out.word, tick) {
        bare(STALE)
    } else {
        reason_in(out.word)
    }
}

/// Why a tick that settled this is Off.
pub fn reason_at(tick: u32, settled: &Settled) -> Reason
    ensures { result ≡ reason_at tick settled.now }
{
    if settled.a.kind == Kind::Off {
        reason_of_out(&settled.a, tick)
    } else if settled.b.kind == Kind::Off {
        reason_of_out(&settled.b, tick)
    } else {
        bare(KINDS_DIFFER)
    }
}
