// The change of one tick of a path: where its power or its alarm differs from the tick before, Off and silent before the first (own).
ghost use Rattle.std.specs.Prelude.{◌≡◌, ◌≤◌, ◌-◌, ◌++◌, length, option_to_list, take, if◌then◌else◌};
ghost use Rattle.core_model.specs.Words.{is_off};
ghost use Rattle.script_model.specs.Report.{bare, change_at, changes_of, reason_at};
ghost use Rattle.report.specs.Ticks.{change_of, settled_before};

use crate::reasons::{Reason, bare, reason_at};
use crate::totals::is_change;
use contactor_pair::{Path, Settled};
use event_record::Change;
use lift_base::Kind;

// Power that is on has no reason.
fn reason_shown(tick: u32, settled: &Settled) -> Reason
    ensures { result ≡ (if is_off settled.now.power then reason_at tick settled.now else bare 0) }
{
    if settled.power == Kind::Off {
        reason_at(tick, settled)
    } else {
        bare(0)
    }
}

/// What is shown of a tick that settled this.
pub fn shown_at(tick: u32, settled: &Settled) -> Change
    ensures { result ≡ change_at tick settled.now }
{
    let reason = reason_shown(tick, settled);
    Change {
        tick,
        power: settled.power,
        alarm: settled.alarm,
        reason: reason.code,
        detail: reason.detail,
    }
}

// The power and the alarm of the tick before tick `n`.
fn shown_before(path: &Path, n: u32) -> (Kind, bool)
    requires first { 1 ≤ n }
    requires last { n ≤ length path.now.settled }
    ensures power { result.0 ≡ (settled_before path.now.settled n).power }
    ensures alarm { result.1 ≡ (settled_before path.now.settled n).alarm }
{
    if n == 1 {
        return (Kind::Off, false);
    }
    let settled = path.get(n - 1);
    (settled.power, settled.alarm)
}

/// The change of tick `n`, with its reason and its detail. `None`: tick `n` is no change. It takes no memory.
pub fn change_at(path: &Path, n: u32) -> Option<Change>
    requires first { 1 ≤ n }
    requires last { n ≤ length path.now.settled }
    ensures value { result ≡ change_of path.now.settled n }

    // So, one tick after the other, they are the changes of the path.
    ensures adds { changes_of (take n path.now.settled) ≡ changes_of (take (n - 1) path.now.settled) ++ option_to_list result }
{
    let (power, alarm) = shown_before(path, n);
    let settled = path.get(n);
    if is_change(power, alarm, settled.power, settled.alarm) {
        Some(shown_at(n, &settled))
    } else {
        None
    }
}
