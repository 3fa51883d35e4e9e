// The one text of a script of Form Replay (own): the keys of the head, `%%`, the lines of each tick, `e`.
ghost use Rattle.std.specs.Prelude.{◌≡◌, ◌≤◌, ◌++◌, [], ◌==◌, length, codes, replicate, if◌then◌else◌};
ghost use Rattle.lift_base.specs.declared.TheConstants.{SOURCES};
ghost use Rattle.lift_io.specs.Causes.{HasCause};
ghost use Rattle.lift_io.specs.Puts.{PutsText};
ghost use Rattle.can_frame.specs.Spelling.{frame_text};
ghost use Rattle.script_model.specs.Text.{frames_text, wires_text, wires_part, truth_text, truth_part, faults_text, tick_text, ticks_text, script_text};

use crate::fault_lines::put_faults;
use crate::head::put_head;
use can_frame::{Frame, hex_word};
use lift_base::SOURCES;
use lift_io::{Failed, Sink, put, put_all};
use lift_script::Script;
use lift_trace::{Input, Trace};

fn put_frame<K: Sink>(sink: &mut K, frame: &Frame) -> Result<(), Failed>
    ensures text { PutsText (K.held sink.old) (K.held sink.new) result (codes "f " ++ (frame_text frame.now ++ codes "\n")) }
    ensures cause { HasCause (K.faults sink.old) (K.faults sink.new) result }
{
    put(sink, b"f ")?;
    frame.write_line(sink)?;
    put(sink, b"\n")
}

fn put_frames<K: Sink>(sink: &mut K, frames: &[Frame]) -> Result<(), Failed>
    ensures text { PutsText (K.held sink.old) (K.held sink.new) result (frames_text frames.now) }
    ensures cause { HasCause (K.faults sink.old) (K.faults sink.new) result }
{
    for i in 0..frames.len() {
        put_frame(sink, &frames[i])?;
    }
    Ok(())
}

/// Writes a line for each frame of an input.
pub fn put_frames_of<K: Sink>(sink: &mut K, input: &Input) -> Result<(), Failed>
    ensures text { PutsText (K.held sink.old) (K.held sink.new) result (frames_text input.now.frames) }
    ensures cause { HasCause (K.faults sink.old) (K.faults sink.new) result }
{
    put_frames(sink, input.frames.as_slice())
}

/// Writes the line of the wires' words.
pub fn put_wires<K: Sink>(sink: &mut K, a: u16, b: u16) -> Result<(), Failed>
    ensures text { PutsText (K.held sink.old) (K.held sink.new) result (wires_text (record { a = a; b = b }) ++ codes "\n") }
    ensures cause { HasCause (K.faults sink.old) (K.faults sink.new) result }
{
    put_all(sink, &[b"w ", &hex_word(a), b" ", &hex_word(b), b"\n"])
}

fn put_truth<K: Sink>(sink: &mut K, j: u8, before: u16, word: u16) -> Result<(), Failed>
    requires { j ≤ SOURCES }
    ensures text { PutsText (K.held sink.old) (K.held sink.new) result (if before == word then [] else truth_text j word ++ codes "\n") }
    ensures cause { HasCause (K.faults sink.old) (K.faults sink.new) result }
{
    if before == word {
        return Ok(());
    }
    put_all(sink, &[b"u ", &[j + b'0'], b" ", &hex_word(word), b"\n"])
}

/// The true words of the sources, the first of them source 1.
fn put_truths<K: Sink>(sink: &mut K, before: &[u16], words: &[u16]) -> Result<(), Failed>
    requires same { length before.now ≡ length words.now }
    requires few { length words.now ≤ SOURCES }
    ensures text { PutsText (K.held sink.old) (K.held sink.new) result (truth_part 1 before.now words.now) }
    ensures cause { HasCause (K.faults sink.old) (K.faults sink.new) result }
{
    for i in 0..words.len() {
        put_truth(sink, i as u8 + 1, before[i], words[i])?;
    }
    Ok(())
}

fn put_faults_of<K: Sink>(sink: &mut K, input: &Input) -> Result<(), Failed>
    ensures text { PutsText (K.held sink.old) (K.held sink.new) result (faults_text input.now.faults) }
    ensures cause { HasCause (K.faults sink.old) (K.faults sink.new) result }
{
    put_faults(sink, input.faults)
}

/// The words that stand as a tick begins.
#[derive(Clone, Copy, Debug, PartialEq, Eq)]
struct Standing {
    a: u16,
    b: u16,
    truth: [u16; SOURCES],
}

impl Standing {
    /// Those behind a tick.
    fn behind(input: &Input) -> Standing
        ensures words { record { a = result.a; b = result.b } ≡ input.now.words }
        ensures truth { result.truth ≡ input.now.truth }
    {
        Standing {
            a: input.a,
            b: input.b,
            truth: input.truth,
        }
    }

    fn put_wires<K: Sink>(&self, sink: &mut K, input: &Input) -> Result<(), Failed>
        ensures text { PutsText (K.held sink.old) (K.held sink.new) result
            (wires_part (record { a = self.now.a; b = self.now.b }) input.now.words) }
        ensures cause { HasCause (K.faults sink.old) (K.faults sink.new) result }
    {
        if self.a == input.a && self.b == input.b {
            return Ok(());
        }
        put_wires(sink, input.a, input.b)
    }

    fn put_truths<K: Sink>(&self, sink: &mut K, input: &Input) -> Result<(), Failed>
        ensures text { PutsText (K.held sink.old) (K.held sink.new) result (truth_part 1 self.now.truth input.now.truth) }
        ensures cause { HasCause (K.faults sink.old) (K.faults sink.new) result }
    {
        put_truths(sink, &self.truth, &input.truth)
    }

    /// The lines of the next tick.
    fn put_tick<K: Sink>(&self, sink: &mut K, input: &Input) -> Result<(), Failed>
        ensures text { PutsText (K.held sink.old) (K.held sink.new) result
            (tick_text (record { a = self.now.a; b = self.now.b }) self.now.truth input.now) }
        ensures cause { HasCause (K.faults sink.old) (K.faults sink.new) result }
    {
        put_frames_of(sink, input)?;
        self.put_wires(sink, input)?;
        self.put_truths(sink, input)?;
        put_faults_of(sink, input)?;
        put(sink, b"t\n")
    }
}

fn put_ticks<K: Sink>(sink: &mut K, trace: &Trace) -> Result<(), Failed>
    ensures text { PutsText (K.held sink.old) (K.held sink.new) result
        (ticks_text (record { a = 0; b = 0 }) (replicate SOURCES 0) trace.now.inputs) }
    ensures cause { HasCause (K.faults sink.old) (K.faults sink.new) result }
{
    let mut standing = Standing {
        a: 0,
        b: 0,
        truth: [0; SOURCES],
    };
    for i in 0..trace.len() {
        let input = trace.get(i + 1);
        standing.put_tick(sink, input)?;
        standing = Standing::behind(input);
    }
    Ok(())
}

/// Writes the one text of the script. Reading it gives the same script.
pub fn write_script<K: Sink>(script: &Script, sink: &mut K) -> Result<(), Failed>
    requires { script.now.steps ≡ [] }
    ensures text { PutsText (K.held sink.old) (K.held sink.new) result (script_text script.now) }
    ensures cause { HasCause (K.faults sink.old) (K.faults sink.new) result }
{
    put_head(sink, script.config())?;
    put(sink, b"%%\n")?;
    put_ticks(sink, script.trace())?;
    put(sink, b"e\n")
}
