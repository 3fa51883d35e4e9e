// What is shown of an audit: whether each pair was true, how old the oldest value behind power was, how many ticks had power and no
// healthy side, and the last line of the report (own).
ghost use Rattle.std.specs.Prelude.{IfSome};
ghost use Rattle.lift_io.specs.Causes.{HasCause};
ghost use Rattle.lift_io.specs.Puts.{PutsText};
ghost use Rattle.script_model.specs.Audit.{IsOfSource, genuine_text, oldest_text, unhealthy_text, audit_text};

use crate::totals::put_totals;
use chain_table::source_name;
use contactor_pair::Path;
use itoa::Buffer;
use lift_io::{Failed, Sink, put_all};
use script_model::{Audit, Wrong};

// Writes the line of the first pair that was not true.
fn put_genuine<K: Sink>(sink: &mut K, wrong: Option<Wrong>) -> Result<(), Failed>
    requires { IfSome wrong IsOfSource }
    ensures text { PutsText (K.held sink.old) (K.held sink.new) result (genuine_text wrong) }
    ensures cause { HasCause (K.faults sink.old) (K.faults sink.new) result }
{
    match wrong {
        None => put_all(sink, &[b"genuine yes\n"]),
        Some(Wrong { tick, source }) => {
            let mut buffer = Buffer::new();
            put_all(
                sink,
                &[
                    b"genuine no ",
                    buffer.format(tick).as_bytes(),
                    b" ",
                    source_name(source).as_bytes(),
                    b"\n",
                ],
            )
        }
    }
}

// Writes the line of the oldest value.
fn put_oldest<K: Sink>(sink: &mut K, oldest: Option<u32>) -> Result<(), Failed>
    ensures text { PutsText (K.held sink.old) (K.held sink.new) result (oldest_text oldest) }
    ensures cause { HasCause (K.faults sink.old) (K.faults sink.new) result }
{
    match oldest {
        None => put_all(sink, &[b"oldest none\n"]),
        Some(age) => {
            let mut buffer = Buffer::new();
            put_all(sink, &[b"oldest ", buffer.format(age).as_bytes(), b"\n"])
        }
    }
}

// Writes the line of the ticks without a healthy side.
fn put_unhealthy<K: Sink>(sink: &mut K, ticks: u32) -> Result<(), Failed>
    ensures text { PutsText (K.held sink.old) (K.held sink.new) result (unhealthy_text ticks) }
    ensures cause { HasCause (K.faults sink.old) (K.faults sink.new) result }
{
    let mut buffer = Buffer::new();
    put_all(
        sink,
        &[b"unhealthy ", buffer.format(ticks).as_bytes(), b"\n"],
    )
}

/// Writes the four lines of an audit of a path. It takes no memory. Failed: only where the sink's count of faults rose.
pub fn write_audit<K: Sink>(audit: &Audit, path: &Path, sink: &mut K) -> Result<(), Failed>
    requires { IfSome audit.now.wrong IsOfSource }
    ensures text { PutsText (K.held sink.old) (K.held sink.new) result (audit_text audit.now path.now.settled) }
    ensures cause { HasCause (K.faults sink.old) (K.faults sink.new) result }
{
    put_genuine(sink, audit.wrong)?;
    put_oldest(sink, audit.oldest)?;
    put_unhealthy(sink, audit.unhealthy)?;
    put_totals(sink, path)
}
