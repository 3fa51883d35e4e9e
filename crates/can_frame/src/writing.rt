// The line that spells a frame.
ghost use Rattle.std.specs.Prelude.{◌≡◌, ◌≤◌, ◌++◌, codes, Some};
ghost use Rattle.std.specs.List.{flat_map};
ghost use Rattle.lift_io.specs.Causes.{HasCause};
ghost use Rattle.lift_io.specs.Puts.{PutsText};
ghost use Rattle.lift_model.specs.Records.{FrameData};
ghost use Rattle.can_frame.specs.Spelling.{hex2, hex3, frame_of, frame_text};
ghost use Rattle.can_frame.specs.Frames.{IsFrameData};

use crate::Frame;
use crate::digits::digit;
use lift_io::{Failed, Sink, put, put_all};

fn hex_id(n: u16) -> [u8; 3]
    requires { n ≤ 0x7FF }
    ensures { result ≡ hex3 n }
{
    [digit(n / 16 / 16), digit(n / 16 % 16), digit(n % 16)]
}

fn hex_byte(n: u8) -> [u8; 2]
    ensures { result ≡ hex2 n }
{
    let n = u16::from(n);
    [digit(n / 16), digit(n % 16)]
}

fn put_id<K: Sink>(sink: &mut K, frame: &Frame) -> Result<(), Failed>
    ensures text { PutsText (K.held sink.old) (K.held sink.new) result (hex3 frame.now.id ++ codes "#") }
    ensures cause { HasCause (K.faults sink.old) (K.faults sink.new) result }
{
    put_all(sink, &[&hex_id(frame.id), b"#"])
}

fn put_pairs<K: Sink>(sink: &mut K, bytes: &[u8]) -> Result<(), Failed>
    ensures text { PutsText (K.held sink.old) (K.held sink.new) result (flat_map hex2 bytes.now) }
    ensures cause { HasCause (K.faults sink.old) (K.faults sink.new) result }
{
    for byte in bytes {
        put(sink, &hex_byte(*byte))?;
    }
    Ok(())
}

fn put_data<K: Sink>(sink: &mut K, frame: &Frame) -> Result<(), Failed>
    ensures text { PutsText (K.held sink.old) (K.held sink.new) result (flat_map hex2 frame.now.bytes) }
    ensures cause { HasCause (K.faults sink.old) (K.faults sink.new) result }
{
    put_pairs(sink, &frame.bytes[..frame.len as usize])
}

impl Frame {
    /// Writes the line that spells the frame, without a line end.
    pub fn write_line<K: Sink>(&self, sink: &mut K) -> Result<(), Failed>
        ensures text { PutsText (K.held sink.old) (K.held sink.new) result (frame_text self.now) }
        ensures cause { HasCause (K.faults sink.old) (K.faults sink.new) result }
    {
        put_id(sink, self)?;
        put_data(sink, self)
    }
}

/// Reading the line that spells a frame gives the frame.
pub fn written_frame_is_read()
    ensures { (f : FrameData) → IsFrameData f → frame_of (frame_text f) ≡ Some f }
{}
