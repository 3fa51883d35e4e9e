// The frame that a line spells: three digits, `#`, up to eight pairs of digits, and nothing else (own; the spelling of cansend).
ghost use Rattle.std.specs.Prelude.{◌≡◌, ◌≤◌, ◌↔◌, IfSome, IsSome, Some, None, Err, option_and_then};
ghost use Rattle.std.specs.Result.{result_ok};
ghost use Rattle.can_frame.specs.Spelling.{id_of, data_from, frame_of};
ghost use Rattle.can_frame.specs.Frames.{id_at};

use crate::digits::{hex_pair, hex_value};
use crate::{Frame, FrameFault, MOST_BYTES};

fn identifier(a: u8, b: u8, c: u8) -> Option<u16>
    ensures few { IfSome result (λ id. id ≤ 0x7FF) }
    ensures value { result ≡ id_of a b c }
{
    let d2 = hex_value(a)?;
    let d1 = hex_value(b)?;
    let d0 = hex_value(c)?;
    if d2 <= 7 {
        Some(256 * d2 + 16 * d1 + d0)
    } else {
        None
    }
}

// The identifier at the front of a line.
fn leading_id(text: &[u8]) -> Option<u16>
    ensures few { IfSome result (λ id. id ≤ 0x7FF) }
    ensures value { result ≡ id_at text.now }
{
    match text {
        [a, b, c, ..] => identifier(*a, *b, *c),
        _ => None,
    }
}

// Takes the pairs of digits one by one.
fn with_pairs(frame: Frame, pairs: &[u8]) -> Option<Frame>
    ensures { result ≡ option_and_then (λ bytes. Some (record { id = frame.id; bytes = bytes })) (data_from frame.bytes pairs.now) }
{
    let mut frame = frame;
    let mut rest = pairs;
    while let [x, y, more @ ..] = rest {
        if frame.len as usize >= MOST_BYTES {
            return None;
        }
        let b = hex_pair(*x, *y)?;
        frame.push(b);
        rest = more;
    }
    if rest.is_empty() { Some(frame) } else { None }
}

impl Frame {
    /// The frame that a line spells. `BadId` where the line doesn't begin with three digits up to 7FF, else `BadData` where
    /// it is no frame.
    pub fn read_line(text: &[u8]) -> Result<Frame, FrameFault>
        ensures frame { result_ok result ≡ frame_of text.now }
        ensures bad_id { (result ≡ Err FrameFault.BadId) ↔ (id_at text.now ≡ None) }
        ensures bad_data { (result ≡ Err FrameFault.BadData) ↔ (IsSome (id_at text.now) × (frame_of text.now ≡ None)) }
    {
        let id = match leading_id(text) {
            Some(id) => id,
            None => return Err(FrameFault::BadId),
        };
        let read = match text {
            [_, _, _, b'#', pairs @ ..] => with_pairs(Frame::of(id), pairs),
            _ => None,
        };
        read.ok_or(FrameFault::BadData)
    }
}
