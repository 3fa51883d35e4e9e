// What is shown of the run of a generated script: its number, and the last line of the report (own).
ghost use Rattle.std.specs.Prelude.{◌≡◌, ◌++◌, codes, decimal};
ghost use Rattle.lift_io.specs.Causes.{HasCause};
ghost use Rattle.lift_io.specs.Puts.{PutsText};
ghost use Rattle.script_model.specs.Summary.{summary_text};

use crate::totals::put_totals;
use contactor_pair::Path;
use itoa::Buffer;
use lift_io::{Failed, Sink, put_all};

// Writes what stands before the counts.
fn put_number<K: Sink>(sink: &mut K, number: u32) -> Result<(), Failed>
    ensures text { PutsText (K.held sink.old) (K.held sink.new) result (codes "load " ++ decimal number ++ codes " ") }
    ensures cause { HasCause (K.faults sink.old) (K.faults sink.new) result }
{
    let mut buffer = Buffer::new();
    put_all(sink, &[b"load ", buffer.format(number).as_bytes(), b" "])
}

/// Writes the number that a script was generated from, and the counts of its path. It takes no memory.
pub fn write_summary<K: Sink>(number: u32, path: &Path, sink: &mut K) -> Result<(), Failed>
    ensures text { PutsText (K.held sink.old) (K.held sink.new) result (summary_text number path.now.settled) }
    ensures cause { HasCause (K.faults sink.old) (K.faults sink.new) result }
{
    put_number(sink, number)?;
    put_totals(sink, path)
}
