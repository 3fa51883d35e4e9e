// Whether two inputs are equal. What costs least is compared first, so that inputs that differ are mostly told apart at once.
ghost use Rattle.std.specs.Prelude.{◌≡◌, Decides};

use crate::{Frames, Input, SideFaults};
use can_frame::Frame;
use lift_base::Override;

fn same_bytes(x: [u8; 8], y: [u8; 8]) -> bool
    ensures { Decides result (x ≡ y) }
{
    x == y
}

fn same_frame(x: &Frame, y: &Frame) -> bool
    ensures { Decides result (x.now ≡ y.now) }
{
    x.id == y.id && x.len == y.len && same_bytes(x.bytes, y.bytes)
}

fn same_frames(x: &Frames, y: &Frames) -> bool
    ensures { Decides result (x.now ≡ y.now) }
{
    let (xs, ys) = (x.as_slice(), y.as_slice());
    if xs.len() != ys.len() {
        return false;
    }
    for i in 0..xs.len() {
        if !same_frame(&xs[i], &ys[i]) {
            return false;
        }
    }
    true
}

fn same_word(x: Option<u64>, y: Option<u64>) -> bool
    ensures { Decides result (x ≡ y) }
{
    x == y
}

fn same_place(x: Option<u8>, y: Option<u8>) -> bool
    ensures { Decides result (x ≡ y) }
{
    x == y
}

fn same_order(x: Override, y: Override) -> bool
    ensures { Decides result (x ≡ y) }
{
    x == y
}

fn same_faults(x: &SideFaults, y: &SideFaults) -> bool
    ensures { Decides result (x.now ≡ y.now) }
{
    x.fail == y.fail
        && x.hold == y.hold
        && x.exchange == y.exchange
        && x.dismiss == y.dismiss
        && same_word(x.publish, y.publish)
        && same_word(x.command, y.command)
        && same_order(x.contactor, y.contactor)
        && same_place(x.give, y.give)
}

fn same_words(x: &Input, y: &Input) -> bool
    ensures { Decides result (x.now.words ≡ y.now.words) }
{
    x.a == y.a && x.b == y.b
}

fn same_truth(x: &Input, y: &Input) -> bool
    ensures { Decides result (x.now.truth ≡ y.now.truth) }
{
    x.truth == y.truth
}

/// Whether the two inputs are equal.
pub fn is_equal(x: &Input, y: &Input) -> bool
    ensures { Decides result (x.now ≡ y.now) }
{
    same_words(x, y)
        && same_truth(x, y)
        && same_faults(&x.faults.a, &y.faults.a)
        && same_faults(&x.faults.b, &y.faults.b)
        && same_frames(&x.frames, &y.frames)
}
