// The last line of a text: how many ticks a path has, how many of them with power, and how many changes (own).
ghost use Rattle.std.specs.Prelude.{◌≡◌, ◌<◌, ◌≤◌, ◌+◌, ◌^◌, length, if◌then◌else◌};
ghost use Rattle.lift_io.specs.Causes.{HasCause};
ghost use Rattle.lift_io.specs.Puts.{PutsText};
ghost use Rattle.core_model.specs.Words.{is_off};
ghost use Rattle.script_model.specs.Report.{changes_of, count_on, counts_text, is_change, totals_text};

use contactor_pair::Path;
use itoa::Buffer;
use lift_base::Kind;
use lift_io::{Failed, Sink, put_all};

/// Whether power or alarm differs from the tick before, which had these.
pub fn is_change(power: Kind, alarm: bool, power_now: Kind, alarm_now: bool) -> bool
    ensures { result ≡ is_change power alarm power_now alarm_now }
{
    power_now != power || alarm_now != alarm
}

/// One, where it holds.
pub fn one_if(holds: bool) -> u32
    ensures { result ≡ (if holds then 1 else 0) }
{
    u32::from(holds)
}

// One, where power is on.
fn on_count(power: Kind) -> u32
    ensures { result ≡ (if is_off power then 0 else 1) }
{
    u32::from(power != Kind::Off)
}

// How many ticks have power.
fn count_on(path: &Path) -> u32
    ensures { result ≡ count_on path.now.settled }
{
    let mut on: u32 = 0;
    for before in 0..path.len() {
        on += on_count(path.get(before + 1).power);
    }
    on
}

/// How many changes there are.
pub fn count_changes(path: &Path) -> u32
    ensures { result ≡ length (changes_of path.now.settled) }
{
    let mut changes: u32 = 0;
    let mut power = Kind::Off;
    let mut alarm = false;
    for before in 0..path.len() {
        let settled = path.get(before + 1);
        changes += one_if(is_change(power, alarm, settled.power, settled.alarm));
        power = settled.power;
        alarm = settled.alarm;
    }
    changes
}

/// Writes the last line of a report.
#[tactic(auto, unfolding(script_model::specs::Report::counts_text))]
pub fn put_counts<K: Sink>(sink: &mut K, ticks: u32, on: u32, changes: u32) -> Result<(), Failed>
    ensures text { PutsText (K.held sink.old) (K.held sink.new) result (counts_text ticks on changes) }
    ensures cause { HasCause (K.faults sink.old) (K.faults sink.new) result }
{
    let mut ticks_text = Buffer::new();
    let mut on_text = Buffer::new();
    let mut changes_text = Buffer::new();
    put_all(
        sink,
        &[
            b"ticks ",
            ticks_text.format(ticks).as_bytes(),
            b" on ",
            on_text.format(on).as_bytes(),
            b" changes ",
            changes_text.format(changes).as_bytes(),
            b"\n",
        ],
    )
}

/// Writes the last line of a path.
#[tactic(auto, unfolding(script_model::specs::Report::totals_text))]
pub fn put_totals<K: Sink>(sink: &mut K, path: &Path) -> Result<(), Failed>
    ensures text { PutsText (K.held sink.old) (K.held sink.new) result
        (totals_text path.now.settled (length (changes_of path.now.settled))) }
    ensures cause { HasCause (K.faults sink.old) (K.faults sink.new) result }
{
    put_counts(sink, path.len(), count_on(path), count_changes(path))
}
