// From the bytes of a log to the text of its script, under a head and with the words of the wires (own).
ghost use Rattle.std.specs.Prelude.{◌≡◌, ◌≤◌, Bool, List, Some, Ok, IfOk, MatchResult};
ghost use Rattle.lift_base.specs.declared.forms.Form.TheVariants.{Replay};
ghost use Rattle.script_model.specs.Meaning.{MeansScript};
ghost use Rattle.can_log.specs.Heads.{taking_of, settings_of};
ghost use Rattle.can_log.specs.Taken.{log_of};
ghost use Rattle.can_log.specs.Went.{IsRefusedBy};
ghost use Rattle.can_log.specs.Scripts.{script_of};
ghost use Rattle.can_log.specs.RunsText.{log_text};

use crate::head::Head;
use crate::log::{Log, LogFault, read_log};
use crate::scripts::make_script;
use crate::wires::{WireRow, known_rows};
use crate::writing::write_log_script;
use lift_io::{Failed, NoMemory, Sink};
use lift_script::Script;
use std::alloc::Global;

/// Bytes in memory. It fails where there is no memory for more.
#[derive(Drop)]
struct Bytes {
    held: Vec<u8>,
    faults: u64,
}

impl Sink for Bytes {
    ghost held = { λ s. Some s.held.items };

    ghost faults = { λ s. s.faults };

    fn write(&mut self, bytes: &[u8]) -> Result<usize, Failed> {
        match self.held.extend_from_slice(bytes) {
            Ok(()) => Ok(bytes.len()),
            Err(_) => {
                self.faults = self.faults.saturating_add(1);
                Err(Failed)
            }
        }
    }
}

fn text_of(alloc: Global, script: &Script) -> Result<Vec<u8>, NoMemory>
    ensures { IfOk result (λ text. text.items ≡ log_text script.now) }
{
    let mut sink = Bytes {
        held: Vec::new(alloc),
        faults: 0,
    };
    match write_log_script(script, &mut sink) {
        Ok(()) => Ok(sink.held),
        Err(Failed) => Err(NoMemory),
    }
}

/// A log, and the text of its script.
#[derive(Drop)]
pub struct LogScript {
    pub log: Log,
    pub text: Vec<u8>,
}

/// The script that the bytes of a log stand for under a head. A tick lasts so many milliseconds, and the words of the wires are by these
/// rows. `LogFault::Line`: the first line that is refused. `NoMemory` says nothing of the log.
pub fn log_script(
    alloc: Global,
    head: &Head,
    milliseconds: u32,
    rows: &[WireRow],
    bytes: &[u8],
) -> Result<LogScript, LogFault>
    requires { 1 ≤ milliseconds }
    ensures log { MatchResult result (λ made. log_of (taking_of head.now milliseconds) bytes.now ≡ Ok made.log)
        (IsRefusedBy (log_of (taking_of head.now milliseconds) bytes.now)) }
    ensures text { IfOk result (λ made. made.text.items
        ≡ log_text (script_of (settings_of head.now made.log.ticks) made.log rows.now)) }
    ensures read { IfOk result (λ made. (places : List Bool) → MeansScript Replay places made.text.items
        (script_of (settings_of head.now made.log.ticks) made.log rows.now)) }
{
    let log = read_log(alloc, head.taking(milliseconds), bytes)?;
    let config = head.settings(log.ticks());
    config.known();
    known_rows(rows);
    let Ok(script) = make_script(alloc, config, &log, rows) else {
        return Err(LogFault::NoMemory);
    };
    let Ok(text) = text_of(alloc, &script) else {
        return Err(LogFault::NoMemory);
    };
    Ok(LogScript { log, text })
}
