// The pair rule (EN 50325-5): a value comes in two frames, the second with the inverse of the first's bytes.
// That the plain frame has the odd identifier and the inverted frame the next number, and the two bytes, are own.
ghost use Rattle.std.specs.Prelude.{◌≡◌, ◌==◌, ◌+◌};
ghost use Rattle.lift_model.specs.Live.{judges, value_of};

use can_frame::Frame;

/// Whether both frames have two bytes and each byte of the second is the inverse of the first's.
pub fn judge(plain: &Frame, inverted: &Frame) -> bool
    ensures { result ≡ judges plain.now inverted.now }
{
    plain.len == 2
        && inverted.len == 2
        && inverted.bytes[0] == !plain.bytes[0]
        && inverted.bytes[1] == !plain.bytes[1]
}

/// The value of a plain frame: its first byte, and 256 times its second. A byte that is not there counts as 0.
pub fn value_in(frame: &Frame) -> u16
    ensures { result ≡ value_of frame.now }
{
    u16::from(frame.bytes[0]) + 256 * u16::from(frame.bytes[1])
}

/// Whether this is the plain frame of the source with the plain identifier `plain`.
pub fn is_plain(frame: &Frame, plain: u16) -> bool
    ensures { result ≡ (frame.now.id == plain) }
{
    frame.id == plain
}

/// Whether this is the inverted frame of the source with the plain identifier `plain`.
pub fn is_inverted(frame: &Frame, plain: u16) -> bool
    ensures { result ≡ (frame.now.id == plain + 1) }
{
    u32::from(frame.id) == u32::from(plain) + 1
}
