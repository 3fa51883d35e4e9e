// Why a run is refused, with the status and the text that say so (own).
ghost use Rattle.std.specs.Prelude.{◌≡◌, ◌++◌, codes, decimal};
ghost use Rattle.lift_io.specs.Causes.{HasCause};
ghost use Rattle.lift_io.specs.Puts.{PutsText};
ghost use Rattle.lift_front.specs.Calls.{call};
ghost use Rattle.lift_front.specs.Refusals.{WroteRefusal, head_fault_name, line_notice, notice, text_notice};

use fault_script::ScriptFault;
use itoa::Buffer;
use lift_config::ConfigFault;
use lift_io::{Failed, Sink, put, put_all};
use script_model::{LineRefusal, Refusal};

/// Why a run is refused.
#[derive(Clone, Copy, Debug, PartialEq, Eq)]
pub enum Fault {
    Memory,
    Words,
    Read,
    /// The text has no script.
    Text(Refusal),
    /// The step of this line was not possible.
    Step(u32),
    /// The cycle of a simulation is longer than a pair counts by its head.
    Cycle,
    /// The disk has failed.
    Disk,
    /// The disk holds no record. This slot is the first that does not belong to one.
    Record(u32),
    /// The record has too few slots for the changes.
    Full,
}

impl Fault {
    ghost use Rattle.fault_script.specs.Refusals.{refusal_of};
    ghost use Rattle.lift_front.specs.Refusals.{IsFaultOf};

    /// The fault of a text that could not be read to a script.
    pub fn of_script(fault: ScriptFault) -> Fault
        ensures { IsFaultOf result (refusal_of fault) }
    {
        match fault.refusal() {
            Some(refusal) => Fault::Text(refusal),
            None => Fault::Memory,
        }
    }

    /// The status that says so.
    pub fn status(self) -> u8
        ensures { result ≡ (notice self).status }
    {
        match self {
            Fault::Memory => 1,
            Fault::Words => 2,
            Fault::Read => 3,
            Fault::Text(refusal) => text_status(refusal),
            Fault::Step(_) => 10,
            Fault::Cycle => 11,
            Fault::Disk => 12,
            Fault::Record(_) => 13,
            Fault::Full => 14,
        }
    }
}

fn text_status(refusal: Refusal) -> u8
    ensures { result ≡ (text_notice refusal).status }
{
    match refusal {
        Refusal::BadHead(_) | Refusal::HeadSize => 5,
        Refusal::Line(_, LineRefusal::BadLine) => 6,
        Refusal::Line(_, LineRefusal::LineTooLong) => 8,
        Refusal::Line(_, _) => 7,
        Refusal::NoEnd => 9,
    }
}

fn head_fault_name(fault: ConfigFault) -> &'static str
    ensures { result.now ≡ head_fault_name fault }
{
    match fault {
        ConfigFault::NotToml => "toml",
        ConfigFault::Missing(key) => key.name(),
        ConfigFault::BadValue(key) => key.name(),
        ConfigFault::Extra => "extra",
        ConfigFault::NoMemory => "memory",
    }
}

fn put_head_fault<K: Sink>(sink: &mut K, fault: ConfigFault) -> Result<(), Failed>
    ensures text { PutsText (K.held sink.old) (K.held sink.new) result (codes "refused: head " ++ head_fault_name fault ++ codes "\n") }
    ensures cause { HasCause (K.faults sink.old) (K.faults sink.new) result }
{
    let name = head_fault_name(fault);
    put_all(sink, &[b"refused: head ", name.as_bytes(), b"\n"])
}

// A text that names a line, or a slot.
fn put_at_line<K: Sink>(sink: &mut K, name: &str, line: u32) -> Result<(), Failed>
    ensures text { PutsText (K.held sink.old) (K.held sink.new) result (codes "refused: " ++ name.now ++ decimal line ++ codes "\n") }
    ensures cause { HasCause (K.faults sink.old) (K.faults sink.new) result }
{
    let mut buffer = Buffer::new();
    put_all(
        sink,
        &[
            b"refused: ",
            name.as_bytes(),
            buffer.format(line).as_bytes(),
            b"\n",
        ],
    )
}

fn put_line_refusal<K: Sink>(sink: &mut K, line: u32, refusal: LineRefusal) -> Result<(), Failed>
    ensures text { PutsText (K.held sink.old) (K.held sink.new) result (line_notice line refusal).text }
    ensures cause { HasCause (K.faults sink.old) (K.faults sink.new) result }
{
    match refusal {
        LineRefusal::BadLine => put_at_line(sink, "line ", line),
        LineRefusal::TooManyTicks => put_at_line(sink, "too_many ", line),
        LineRefusal::TooManyFrames => put_at_line(sink, "too_many ", line),
        LineRefusal::TooManyLines => put_at_line(sink, "too_many ", line),
        LineRefusal::LineTooLong => put_at_line(sink, "long_line ", line),
    }
}

fn put_text_refusal<K: Sink>(sink: &mut K, refusal: Refusal) -> Result<(), Failed>
    ensures text { PutsText (K.held sink.old) (K.held sink.new) result (text_notice refusal).text }
    ensures cause { HasCause (K.faults sink.old) (K.faults sink.new) result }
{
    match refusal {
        Refusal::BadHead(fault) => put_head_fault(sink, fault),
        Refusal::HeadSize => put(sink, b"refused: head size\n"),
        Refusal::Line(line, refusal) => put_line_refusal(sink, line, refusal),
        Refusal::NoEnd => put(sink, b"refused: no_end\n"),
    }
}

fn put_refusal<K: Sink>(sink: &mut K, fault: Fault) -> Result<(), Failed>
    ensures text { PutsText (K.held sink.old) (K.held sink.new) result (notice fault).text }
    ensures cause { HasCause (K.faults sink.old) (K.faults sink.new) result }
{
    match fault {
        Fault::Memory => put(sink, b"refused: memory\n"),
        Fault::Words => put(sink, b"refused: words\n"),
        Fault::Read => put(sink, b"refused: read\n"),
        Fault::Text(refusal) => put_text_refusal(sink, refusal),
        Fault::Step(line) => put_at_line(sink, "step ", line),
        Fault::Cycle => put(sink, b"refused: cycle\n"),
        Fault::Disk => put(sink, b"refused: disk\n"),
        Fault::Record(slot) => put_at_line(sink, "record ", slot),
        Fault::Full => put(sink, b"refused: full\n"),
    }
}

/// Writes the text of a refusal, as far as the sink takes it.
pub fn write_refusal<K: Sink>(sink: &mut K, fault: Fault)
    ensures { WroteRefusal (call K.held K.faults sink.old sink.new) (notice fault).text }
{
    match put_refusal(sink, fault) {
        Ok(()) | Err(Failed) => {}
    }
}
