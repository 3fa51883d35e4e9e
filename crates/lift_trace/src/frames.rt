// The frames of one tick, in the order in which they came. A contract sees the list of them.
ghost use Rattle.std.specs.Prelude.{◌≡◌, ◌<◌, ◌≤◌, [], ◌∷◌, ◌++◌, length, slice_get, Some};

use arrayvec::ArrayVec;
use can_frame::Frame;
use lift_base::MOST_FRAMES;
use std::marker::Model;

/// The frames of one tick. They lie in place, and take no memory of their own.
#[derive(Drop)]
pub struct Frames {
    frames: ArrayVec<Frame, MOST_FRAMES>,
}

impl Model for Frames {
    ghost use Rattle.std.specs.Prelude.{List};
    ghost use Rattle.lift_model.specs.Records.{FrameData};

    ghost Value = { List FrameData };

    ghost view = { λ f. f.frames.items };
}

impl Frames {
    /// No frames.
    pub fn new() -> Frames
        ensures { result ≡ [] }
    {
        Frames {
            frames: ArrayVec::new(),
        }
    }

    /// How many frames there are, 16 at most.
    pub fn len(&self) -> usize
        ensures value { result ≡ length self.now }
        ensures fits { result ≤ MOST_FRAMES }
    {
        self.frames.len()
    }

    /// Appends a frame, where there are fewer than 16.
    pub fn push(&mut self, frame: Frame)
        requires { length self.old < MOST_FRAMES }
        ensures { self.new ≡ self.old ++ frame ∷ [] }
    {
        self.frames.push(frame);
    }

    /// The frame with index `i`, from 0.
    pub fn get(&self, i: usize) -> Frame
        requires { i < length self.now }
        ensures { Some result ≡ slice_get self.now i }
    {
        self.frames.as_slice()[i]
    }

    /// The frames, in their order.
    pub fn as_slice(&self) -> &[Frame]
        ensures value { result.now ≡ self.now }
        ensures fits { length result.now ≤ MOST_FRAMES }
    {
        let _fits = self.len();
        self.frames.as_slice()
    }

    /// The same frames once more.
    pub fn copy(&self) -> Frames
        ensures { result ≡ self.now }
    {
        let mut frames = Frames::new();
        for frame in self.as_slice() {
            frames.push(*frame);
        }
        frames
    }
}
