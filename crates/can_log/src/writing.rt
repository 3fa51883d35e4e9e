// The text of a log's script, with ticks that only go on told together (own).
ghost use Rattle.std.specs.Prelude.{◌≡◌, ◌++◌, ◌==◌, ◌&&◌};
ghost use Rattle.lift_io.specs.Causes.{HasCause};
ghost use Rattle.lift_io.specs.Puts.{PutsText};
ghost use Rattle.script_model.specs.Text.{wires_part};
ghost use Rattle.can_log.specs.Scripts.{all_zero};
ghost use Rattle.can_log.specs.RunsText.{ticks_part, is_quiet, lines_text, runs_text, log_text};

use itoa::Buffer;
use lift_io::{Failed, Sink, put, put_all};
use lift_script::Script;
use lift_trace::{Input, Trace};
use script_writer::{put_frames_of, put_head, put_wires};

fn put_ticks_line<K: Sink>(sink: &mut K, n: u32) -> Result<(), Failed>
    ensures text { PutsText (K.held sink.old) (K.held sink.new) result (ticks_part n) }
    ensures cause { HasCause (K.faults sink.old) (K.faults sink.new) result }
{
    match n {
        0 => Ok(()),
        1 => put(sink, b"t\n"),
        _ => {
            let mut buffer = Buffer::new();
            let digits = buffer.format(n);
            put_all(sink, &[b"t ", digits.as_bytes(), b"\n"])
        }
    }
}

/// The words of the wires that stand.
#[derive(Clone, Copy)]
struct Words {
    a: u16,
    b: u16,
}

impl Words {
    fn behind(input: &Input) -> Words
        ensures { record { a = result.a; b = result.b } ≡ input.now.words }
    {
        Words {
            a: input.a,
            b: input.b,
        }
    }

    fn is_same(self, input: &Input) -> bool
        ensures { result ≡ ((self.a == input.now.words.a) && (self.b == input.now.words.b)) }
    {
        self.a == input.a && self.b == input.b
    }

    fn is_quiet(self, input: &Input) -> bool
        ensures { result ≡ is_quiet (record { a = self.a; b = self.b }) input.now }
    {
        input.frames.len() == 0 && self.is_same(input)
    }

    fn put_wires<K: Sink>(self, sink: &mut K, input: &Input) -> Result<(), Failed>
        ensures text { PutsText (K.held sink.old) (K.held sink.new)
            result (wires_part (record { a = self.a; b = self.b }) input.now.words) }
        ensures cause { HasCause (K.faults sink.old) (K.faults sink.new) result }
    {
        if self.is_same(input) {
            return Ok(());
        }
        put_wires(sink, input.a, input.b)
    }

    fn put_lines<K: Sink>(self, sink: &mut K, input: &Input) -> Result<(), Failed>
        ensures text { PutsText (K.held sink.old) (K.held sink.new) result (lines_text (record { a = self.a; b = self.b }) input.now) }
        ensures cause { HasCause (K.faults sink.old) (K.faults sink.new) result }
    {
        put_frames_of(sink, input)?;
        self.put_wires(sink, input)
    }

    /// The line of the ticks so far, and the lines of a tick that is not quiet.
    fn put_tick<K: Sink>(self, sink: &mut K, n: u32, input: &Input) -> Result<(), Failed>
        ensures text { PutsText (K.held sink.old) (K.held sink.new) result
            (ticks_part n ++ lines_text (record { a = self.a; b = self.b }) input.now) }
        ensures cause { HasCause (K.faults sink.old) (K.faults sink.new) result }
    {
        put_ticks_line(sink, n)?;
        self.put_lines(sink, input)
    }
}

fn put_runs<K: Sink>(sink: &mut K, trace: &Trace) -> Result<(), Failed>
    ensures text { PutsText (K.held sink.old) (K.held sink.new) result (runs_text all_zero 0 trace.now.inputs) }
    ensures cause { HasCause (K.faults sink.old) (K.faults sink.new) result }
{
    let mut words = Words { a: 0, b: 0 };
    let mut n: u32 = 0;
    for i in 0..trace.len() {
        let input = trace.get(i + 1);
        if words.is_quiet(input) {
            n += 1;
        } else {
            words.put_tick(sink, n, input)?;
            words = Words::behind(input);
            n = 1;
        }
    }
    put_ticks_line(sink, n)
}

/// Writes the text of a log's script. `Failed`: a front of it was written.
pub fn write_log_script<K: Sink>(script: &Script, sink: &mut K) -> Result<(), Failed>
    ensures text { PutsText (K.held sink.old) (K.held sink.new) result (log_text script.now) }
    ensures cause { HasCause (K.faults sink.old) (K.faults sink.new) result }
{
    put_head(sink, script.config())?;
    put(sink, b"%%\n")?;
    put_runs(sink, script.trace())?;
    put(sink, b"e\n")
}
