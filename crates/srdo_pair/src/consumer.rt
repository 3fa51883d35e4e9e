// What takes the frames of one source, tick by tick, and knows the source's value.
ghost use Rattle.std.specs.Prelude.{◌≡◌, ℕ, ◌<◌, ◌≤◌, ◌+◌, ◌^◌, [], List};
ghost use Rattle.lift_model.specs.Live.{Timed, Source, and_frame, and_frames, live_value};

use can_frame::Frame;

/// A consumer of one source's frames (EN 50325-5). After the frames of a tick and `end_tick`, `value` is
/// the source's value at that tick by the pair rule.
pub trait Consumer: Drop {
    /// It was set to this source, took these frames, and ended so many ticks.
    ghost stands: { Self → Source → List Timed → ℕ → Type 0 };

    /// Takes one frame of the tick that has not ended. A frame with another identifier changes nothing.
    fn frame(&mut self, frame: &Frame)
        ensures { (source : Source) (frames : List Timed) (n : ℕ) → stands self.old source frames n
            → stands self.new source (and_frame source frames (record { frame = frame.now; tick = n + 1 })) n };

    /// Ends the tick. Fewer than 2^24 ticks were ended before.
    fn end_tick(&mut self)
        requires { (source : Source) × (frames : List Timed) × (n : ℕ) × (stands self.old source frames n) × (n < 2 ^ 24) }
        ensures { (source : Source) (frames : List Timed) (n : ℕ) → stands self.old source frames n
            → stands self.new source frames (n + 1) };

    /// The source's value at the last tick that was ended. `None` exactly where it has none.
    fn value(&self) -> Option<u16>
        ensures { (source : Source) (frames : List Timed) (n : ℕ) → stands self.now source frames n
            → result ≡ live_value source frames n };
}

/// A consumer that can be set to any source.
pub trait SetTo: Consumer {
    /// A consumer for the source with this plain identifier, before its first frame. `sct` is how many ticks a value lives after its
    /// pair's second frame, at most 1000; `srvt` how many ticks the second frame may come after the first.
    fn set_to(plain: u16, sct: u32, srvt: u32) -> Self
        requires { sct ≤ 1000 }
        ensures { Self.stands result (record { plain = plain; sct = sct; srvt = srvt }) [] 0 };
}

/// Gives a consumer the frames of one tick, and ends it.
pub fn take_tick<C: Consumer>(consumer: &mut C, frames: &[Frame])
    requires { (source : Source) × (earlier : List Timed) × (n : ℕ) × (C.stands consumer.old source earlier n) × (n < 2 ^ 24) }
    ensures { (source : Source) (earlier : List Timed) (n : ℕ) → C.stands consumer.old source earlier n
        → C.stands consumer.new source (and_frames source earlier frames.now (n + 1)) (n + 1) }
{
    for frame in frames {
        consumer.frame(frame);
    }
    consumer.end_tick();
}
