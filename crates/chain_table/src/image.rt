// The image of one tick. Each wire is a bit in two words, so that a wire that is cut or stuck shows (own).
ghost use Rattle.std.specs.Prelude.{◌≡◌, ◌<◌};
ghost use Rattle.lift_model.specs.Chain.{source_has};
ghost use Rattle.lift_model.specs.Wires.{is_made, is_discrepant, first_discrepant};

use lift_base::{SOURCES, WIRES};
use std::marker::Model;

/// The live values of roof, pit, car, doors, panel and platform, and the two words of the wires, at one tick. Contracts see it as
/// `ImageData`.
#[derive(Clone, Copy, Debug, PartialEq, Eq)]
pub struct Image {
    /// The value of each source, by index. `None`: the source has no value.
    pub values: [Option<u16>; SOURCES],
    /// Bit i is 1 where wire i is made.
    pub a: u16,
    /// Bit i is 0 where wire i is made.
    pub b: u16,
}

impl Model for Image {
    ghost use Rattle.lift_model.specs.Records.{ImageData};

    ghost Value = { ImageData };

    ghost view = { λ i. record { values = i.values; words = record { a = i.a; b = i.b } } };

    ghost inverse = { λ d. record { values = d.values; a = d.words.a; b = d.words.b } };
}

impl Image {
    /// Whether the wire is made: its bit is 1 in `a` and 0 in `b` (own). Each bit of the words may be asked for.
    pub fn made(&self, wire: u8) -> bool
        requires { wire < 16 }
        ensures { result ≡ is_made self.now.words wire }
    {
        self.a >> wire & 1 == 1 && self.b >> wire & 1 == 0
    }

    /// Whether the wire is discrepant: its bit is the same in both words (own).
    pub fn discrepant(&self, wire: u8) -> bool
        requires { wire < WIRES }
        ensures { result ≡ is_discrepant self.now.words wire }
    {
        (self.a >> wire & 1 == 1) == (self.b >> wire & 1 == 1)
    }

    /// The first wire that is discrepant. `None` exactly where none is.
    pub fn first_discrepant(&self) -> Option<u8>
        ensures { result ≡ first_discrepant self.now.words }
    {
        for wire in 0..WIRES {
            if self.discrepant(wire) {
                return Some(wire);
            }
        }
        None
    }

    /// The bit of a source's value. A source without a value gives false.
    pub fn bit(&self, source: usize, bit: u8) -> bool
        requires source { source < SOURCES }
        requires bit { bit < 16 }
        ensures { result ≡ source_has self.now source bit }
    {
        match self.values[source] {
            Some(value) => value >> bit & 1 == 1,
            None => false,
        }
    }
}
