// The report of the supplies over a path: a tick has a line where its supply or its alarm differs from the tick before (own).
ghost use Rattle.std.specs.Prelude.{◌≡◌, ◌<◌, ◌+◌, ◌++◌, ◌^◌, [], false, length, if◌then◌else◌};
ghost use Rattle.lift_base.specs.declared.supplies.Supply.TheVariants as supply;
ghost use Rattle.core_model.specs.Supplies.{is_none};
ghost use Rattle.lift_io.specs.Causes.{HasCause};
ghost use Rattle.lift_io.specs.Puts.{PutsText};
ghost use Rattle.script_model.specs.SupplyReport.{supply_name, none_text, supply_line, is_supply_change, supply_changes, count_given, supply_totals, supply_text};

use crate::lines::alarm_mark;
use crate::reason_texts::{ReasonText, reason_text};
use crate::reasons::reason_at;
use crate::totals::{one_if, put_counts};
use contactor_pair::{Path, Settled};
use itoa::Buffer;
use level_guard::{Given, Supplies, Supply, is_on};
use lift_io::{Failed, Sink, put_all};

fn supply_name(supply: Supply) -> &'static str
    ensures { result.now ≡ supply_name supply }
{
    match supply {
        Supply::Off => "off",
        Supply::Full => "full",
        Supply::Up => "up",
        Supply::Down => "down",
        Supply::Level => "level",
    }
}

// Why a tick has no supply.
fn none_text(tick: u32, settled: &Settled, given: &Given) -> ReasonText
    ensures { result.before.now ++ result.name.now ++ result.behind.now ≡ none_text tick settled.now given.now }
{
    if given.moved {
        return ReasonText {
            before: "moved own",
            name: "",
            behind: "",
        };
    }
    let reason = reason_at(tick, settled);
    reason_text(reason.code, reason.detail)
}

// Writes the line of a change.
#[tactic(auto, unfolding(script_model::specs::SupplyReport::supply_line))]
fn put_line<K: Sink>(
    sink: &mut K,
    tick: u32,
    settled: &Settled,
    given: &Given,
) -> Result<(), Failed>
    ensures text { PutsText (K.held sink.old) (K.held sink.new) result (supply_line tick settled.now given.now) }
    ensures cause { HasCause (K.faults sink.old) (K.faults sink.new) result }
{
    let mut buffer = Buffer::new();
    let digits = buffer.format(tick).as_bytes();
    if given.supply == Supply::Off {
        let reason = none_text(tick, settled, given);
        put_all(
            sink,
            &[
                digits,
                b" off ",
                reason.before.as_bytes(),
                reason.name.as_bytes(),
                reason.behind.as_bytes(),
                b"\n",
            ],
        )
    } else {
        put_all(
            sink,
            &[
                digits,
                b" ",
                supply_name(given.supply).as_bytes(),
                alarm_mark(given.alarm).as_bytes(),
                b"\n",
            ],
        )
    }
}

// Writes the line of a tick where it is a change.
fn put_line_if<K: Sink>(
    sink: &mut K,
    is_one: bool,
    tick: u32,
    settled: &Settled,
    given: &Given,
) -> Result<(), Failed>
    ensures text { PutsText (K.held sink.old) (K.held sink.new) result (if is_one then supply_line tick settled.now given.now else []) }
    ensures cause { HasCause (K.faults sink.old) (K.faults sink.new) result }
{
    if !is_one {
        return Ok(());
    }
    put_line(sink, tick, settled, given)
}

// Whether supply or alarm differs from the tick before, which had these.
fn is_supply_change(last: Supply, alarm: bool, supply: Supply, alarm_now: bool) -> bool
    ensures { result ≡ is_supply_change last alarm supply alarm_now }
{
    supply != last || alarm_now != alarm
}

// One, where there is a supply.
fn on_count(supply: Supply) -> u32
    ensures { result ≡ (if is_none supply then 0 else 1) }
{
    u32::from(is_on(supply))
}

// How many ticks have a supply.
fn count_given(supplies: &Supplies) -> u32
    ensures { result ≡ count_given supplies.now.given }
{
    let mut on: u32 = 0;
    for before in 0..supplies.len() {
        on += on_count(supplies.get(before + 1).supply);
    }
    on
}

// How many changes there are.
fn count_supply_changes(supplies: &Supplies) -> u32
    ensures { result ≡ supply_changes supply.Off false supplies.now.given }
{
    let mut changes: u32 = 0;
    let mut last = Supply::Off;
    let mut alarm = false;
    for before in 0..supplies.len() {
        let given = supplies.get(before + 1);
        changes += one_if(is_supply_change(last, alarm, given.supply, given.alarm));
        last = given.supply;
        alarm = given.alarm;
    }
    changes
}

#[tactic(auto, unfolding(script_model::specs::SupplyReport::supply_totals))]
fn put_supply_totals<K: Sink>(sink: &mut K, supplies: &Supplies) -> Result<(), Failed>
    ensures text { PutsText (K.held sink.old) (K.held sink.new) result (supply_totals supplies.now.given) }
    ensures cause { HasCause (K.faults sink.old) (K.faults sink.new) result }
{
    put_counts(
        sink,
        supplies.len(),
        count_given(supplies),
        count_supply_changes(supplies),
    )
}

/// Writes the report of what was given over a path, which has as many ticks. It takes no memory.
#[tactic(auto, unfolding(script_model::specs::SupplyReport::supply_text))]
pub fn write_supply<K: Sink>(supplies: &Supplies, path: &Path, sink: &mut K) -> Result<(), Failed>
    requires { length supplies.now.given ≡ length path.now.settled }
    ensures text { PutsText (K.held sink.old) (K.held sink.new) result (supply_text supplies.now.given path.now.settled) }
    ensures cause { HasCause (K.faults sink.old) (K.faults sink.new) result }
{
    let mut last = Supply::Off;
    let mut alarm = false;
    for before in 0..supplies.len() {
        let given = supplies.get(before + 1);
        let settled = path.get(before + 1);
        let is_one = is_supply_change(last, alarm, given.supply, given.alarm);
        put_line_if(sink, is_one, before + 1, &settled, &given)?;
        last = given.supply;
        alarm = given.alarm;
    }
    put_supply_totals(sink, supplies)
}
