//! CAN data frames, and their spelling in one line, as cansend takes it.
#![tactic(auto)]

ghost use Rattle.std.specs.Prelude.{◌≡◌, ◌≤◌, ◌<◌, [], ◌∷◌, ◌++◌, length};

mod digits;
mod reading;
mod writing;

pub use digits::{hex_long_word, hex_value, hex_word, word};
use std::marker::Model;
pub use writing::written_frame_is_read;

/// How many bytes a frame has at most.
pub const MOST_BYTES: usize = 8;

/// A CAN data frame: an identifier of eleven bits, and up to eight bytes, of which the first `len` count. The others are 0.
#[derive(Clone, Copy, Debug, PartialEq, Eq)]
pub struct Frame {
    pub id: u16,
    pub len: u8,
    pub bytes: [u8; MOST_BYTES],
}

impl Model for Frame {
    ghost use Rattle.std.specs.Prelude.{take, length};
    ghost use Rattle.lift_model.specs.Records.{FrameData};
    ghost use Rattle.can_frame.specs.Frames.{padded, IsFrame, len_back};

    ghost Value = { FrameData };

    ghost view = { λ f. record { id = f.id; bytes = take f.len f.bytes } };

    ghost invariant = { λ f. IsFrame f.id f.len f.bytes };

    ghost inverse = { λ d. record { id = d.id; len = length d.bytes; bytes = padded d.bytes } };

    ghost use Rattle.std.proofs.Common.{refl};

    ghost inverse_ok = { λ a h. rw (← h.rest, len_back a.len a.bytes h.len_fits h.full) refl };
}

/// Why a line is no frame.
#[derive(Clone, Copy, Debug, PartialEq, Eq)]
pub enum FrameFault {
    /// The identifier is not three hexadecimal digits up to 7FF.
    BadId,
    /// The identifier is not followed by `#` and up to eight pairs of hexadecimal digits.
    BadData,
}

impl Default for Frame {
    ghost is_default = { λ f. f ≡ record { id = 0; bytes = [] } };

    /// The frame 0, without bytes.
    fn default() -> Frame {
        Frame::of(0)
    }
}

impl Frame {
    /// A frame without bytes.
    pub fn of(id: u16) -> Frame
        requires { id ≤ 0x7FF }
        ensures { result ≡ record { id = id; bytes = [] } }
    {
        Frame {
            id,
            len: 0,
            bytes: [0; MOST_BYTES],
        }
    }

    /// A frame with two bytes, the first that of the low bits.
    pub fn of_pair(id: u16, first: u8, second: u8) -> Frame
        requires { id ≤ 0x7FF }
        ensures id { result.id ≡ id }
        ensures bytes { result.bytes ≡ first ∷ second ∷ [] }
    {
        Frame {
            id,
            len: 2,
            bytes: [first, second, 0, 0, 0, 0, 0, 0],
        }
    }

    /// One more byte.
    pub fn push(&mut self, byte: u8)
        requires { length self.old.bytes < 8 }
        ensures { self.new ≡ record self.old { bytes = self.old.bytes ++ byte ∷ [] } }
    {
        self.bytes[self.len as usize] = byte;
        self.len += 1;
    }
}
