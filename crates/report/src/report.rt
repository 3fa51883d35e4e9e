// The report of a path: a tick has a line where its power or its alarm differs from the tick before, Off and silent before the first (own).
ghost use Rattle.std.specs.Prelude.{◌≡◌, ◌<◌, ◌+◌, ◌^◌, length, get_or};
ghost use Rattle.lift_io.specs.Causes.{HasCause};
ghost use Rattle.lift_io.specs.Puts.{PutsText};
ghost use Rattle.core_model.specs.Settling.{no_settled};
ghost use Rattle.script_model.specs.Report.{change_at, report_text};

use crate::changes::shown_at;
use crate::lines::put_if;
use crate::totals::{is_change, put_totals};
use contactor_pair::Path;
use event_record::Change;
use lift_base::Kind;
use lift_io::{Failed, Sink};

/// What is shown of the tick after so many.
pub fn change_after(path: &Path, before: u32) -> Change
    requires tick { before < length path.now.settled }
    requires small { before < 2 ^ 24 }
    ensures { result ≡ change_at (before + 1) (get_or path.now.settled before no_settled) }
{
    let settled = path.get(before + 1);
    shown_at(before + 1, &settled)
}

/// Writes the report of a path. It takes no memory.
#[tactic(auto, unfolding(script_model::specs::Report::report_text))]
pub fn write_report<K: Sink>(path: &Path, sink: &mut K) -> Result<(), Failed>
    ensures text { PutsText (K.held sink.old) (K.held sink.new) result (report_text path.now.settled) }
    ensures cause { HasCause (K.faults sink.old) (K.faults sink.new) result }
{
    let mut power = Kind::Off;
    let mut alarm = false;
    for before in 0..path.len() {
        let change = change_after(path, before);
        let is_one = is_change(power, alarm, change.power, change.alarm);
        put_if(sink, is_one, &change)?;
        power = change.power;
        alarm = change.alarm;
    }
    put_totals(sink, path)
}
