// The last changes of a path: noted one after the other, and written with the last line of the report (own).
ghost use Rattle.std.specs.Prelude.{◌≡◌, ◌++◌, [], ◌∷◌, List, if◌then◌else◌};
ghost use Rattle.lift_io.specs.Causes.{HasCause};
ghost use Rattle.lift_io.specs.Puts.{PutsText};
ghost use Rattle.event_record.specs.Record.{Keeps};
ghost use Rattle.script_model.specs.Changes.{ChangeData};
ghost use Rattle.script_model.specs.Last.{last_text};
ghost use Rattle.script_model.specs.Report.{changes_of, changes_text};

use crate::lines::put_change;
use crate::report::change_after;
use crate::totals::{is_change, put_totals};
use contactor_pair::Path;
use event_record::{Change, Record};
use lift_base::Kind;
use lift_io::{Failed, Sink};

// Notes a tick where it is a change.
fn note_if(last: &mut Record, is_one: bool, change: Change)
    ensures keeps { (noted : List ChangeData) → Keeps noted last.old → Keeps (noted ++ (if is_one then change ∷ [] else [])) last.new }
    ensures size { last.new.size ≡ last.old.size }
{
    if is_one {
        last.note(change);
    }
}

/// Notes each change of a path, in order. It takes no memory.
pub fn fill(path: &Path, last: &mut Record)
    ensures keeps { (noted : List ChangeData) → Keeps noted last.old → Keeps (noted ++ changes_of path.now.settled) last.new }
    ensures size { last.new.size ≡ last.old.size }
{
    let mut power = Kind::Off;
    let mut alarm = false;
    for before in 0..path.len() {
        let change = change_after(path, before);
        let is_one = is_change(power, alarm, change.power, change.alarm);
        note_if(last, is_one, change);
        power = change.power;
        alarm = change.alarm;
    }
}

/// Writes the line of each change of a record, oldest first, and the last line of the report of a path, which counts all its changes.
/// It takes no memory.
pub fn write_last<K: Sink>(last: &Record, path: &Path, sink: &mut K) -> Result<(), Failed>
    ensures text { PutsText (K.held sink.old) (K.held sink.new) result (changes_text last.now.changes path.now.settled) }

    // Of a record that was filled from this path.
    ensures last { Keeps (changes_of path.now.settled) last.now
        → PutsText (K.held sink.old) (K.held sink.new) result (last_text last.now.size path.now.settled) }
    ensures cause { HasCause (K.faults sink.old) (K.faults sink.new) result }
{
    for i in 0..last.len() {
        put_change(sink, &last.get(i))?;
    }
    put_totals(sink, path)
}
