// How a change is spelled, on a line of its own (own).
ghost use Rattle.std.specs.Prelude.{◌≡◌, ◌++◌, [], codes, decimal, if◌then◌else◌};
ghost use Rattle.lift_io.specs.Causes.{HasCause};
ghost use Rattle.lift_io.specs.Puts.{PutsText};
ghost use Rattle.script_model.specs.Report.{kind_text, alarm_text, change_text};

use crate::reason_texts::reason_text;
use event_record::Change;
use itoa::Buffer;
use lift_base::Kind;
use lift_io::{Failed, Sink, put_all};

/// How a kind is printed.
pub fn kind_name(kind: Kind) -> &'static str
    ensures { result.now ≡ kind_text kind }
{
    match kind {
        Kind::Off => "off",
        Kind::Full => "full",
        Kind::Up => "up",
        Kind::Down => "down",
    }
}

/// What follows a kind where the alarm sounds.
pub fn alarm_mark(alarm: bool) -> &'static str
    ensures { result.now ≡ alarm_text alarm }
{
    if alarm { " alarm" } else { "" }
}

/// Writes the line of a change.
#[tactic(auto, unfolding(script_model::specs::Report::change_text))]
pub fn put_change<K: Sink>(sink: &mut K, change: &Change) -> Result<(), Failed>
    ensures text { PutsText (K.held sink.old) (K.held sink.new) result (change_text change.now) }
    ensures cause { HasCause (K.faults sink.old) (K.faults sink.new) result }
{
    let mut buffer = Buffer::new();
    let tick = buffer.format(change.tick).as_bytes();
    if change.power == Kind::Off {
        let reason = reason_text(change.reason, change.detail);
        put_all(
            sink,
            &[
                tick,
                b" off ",
                reason.before.as_bytes(),
                reason.name.as_bytes(),
                reason.behind.as_bytes(),
                b"\n",
            ],
        )
    } else {
        put_all(
            sink,
            &[
                tick,
                b" ",
                kind_name(change.power).as_bytes(),
                alarm_mark(change.alarm).as_bytes(),
                b"\n",
            ],
        )
    }
}

/// Writes the line of a tick where it is a change.
pub fn put_if<K: Sink>(sink: &mut K, is_one: bool, change: &Change) -> Result<(), Failed>
    ensures text { PutsText (K.held sink.old) (K.held sink.new) result (if is_one then change_text change.now else []) }
    ensures cause { HasCause (K.faults sink.old) (K.faults sink.new) result }
{
    if !is_one {
        return Ok(());
    }
    put_change(sink, change)
}
