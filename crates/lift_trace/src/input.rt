// What comes in at one tick.
ghost use Rattle.std.specs.Prelude.{◌≡◌};

use crate::{Faults, Frames};
use lift_base::SOURCES;
use std::marker::Model;

/// What comes in at one tick.
#[derive(Drop)]
pub struct Input {
    pub frames: Frames,
    /// The wires' word A, bit i for wire i.
    pub a: u16,
    /// The wires' word B, which has the inverse where a wire is good.
    pub b: u16,
    /// What the sources truly show, in their order. Looked at by no channel.
    pub truth: [u16; SOURCES],
    pub faults: Faults,
}

impl Model for Input {
    ghost use Rattle.lift_model.specs.Records.{InputData};

    ghost Value = { InputData };

    ghost view = { λ i. record { frames = i.frames; words = record { a = i.a; b = i.b }; truth = i.truth; faults = i.faults } };
}

impl Input {
    /// An equal input.
    pub fn copy(&self) -> Input
        ensures { result ≡ self.now }
    {
        Input {
            frames: self.frames.copy(),
            a: self.a,
            b: self.b,
            truth: self.truth,
            faults: self.faults,
        }
    }
}
