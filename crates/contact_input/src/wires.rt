// The wires over the ticks, and the contact fault: it stands from a tick that ends `disc` ticks in a row in which one
// wire was discrepant, until the authorised reset rises at a later tick (own).
ghost use Rattle.std.specs.Prelude.{◌≡◌, ℕ, ◌<◌, ◌≤◌, ◌∷◌, [], ◌++◌, List, length};
ghost use Rattle.lift_model.specs.Records.{WireWords};
ghost use Rattle.lift_model.specs.Wires.{is_made, rises, words_at, first_discrepant, has_contact_fault};

use crate::rows::count_rows;
use crate::words::{Words, all_off, is_discrepant, is_made, is_none_discrepant, rises};
use chain_table::latch_after;
use lift_base::{RESET, WIRES};

/// The wires of the present tick, and what is kept of the ticks before.
#[derive(Drop)]
pub struct Wires {
    disc: u32,
    words: Words,
    before: Words,
    rows: [u32; WIRES as usize],
    fault: bool,
    ghost some: { 1 ≤ disc },
}

impl Wires {
    ghost use Rattle.contact_input.specs.StandsFor.{StandsFor};

    /// Before the first tick. `disc` is the number of ticks in a row after which a discrepant wire is a fault.
    pub fn new(disc: u32) -> Self
        requires { 1 ≤ disc }
        ensures { StandsFor result disc [] }
    {
        let off = all_off();
        Wires {
            disc,
            words: off,
            before: off,
            rows: [0; WIRES as usize],
            fault: false,
        }
    }

    /// Takes the words of the next tick.
    pub fn tick(&mut self, a: u16, b: u16)
        ensures { (disc : ℕ) (ticks : List WireWords) → StandsFor self.old disc ticks
            → StandsFor self.new disc (ticks ++ record { a = a; b = b } ∷ []) }
    {
        let words = Words { a, b };
        let ended = count_rows(&mut self.rows, self.disc, words);
        let cleared = rises(words, self.words, RESET);
        self.before = self.words;
        self.words = words;
        self.fault = latch_after(self.fault, ended, cleared);
    }

    /// Whether the wire is made at the last tick.
    pub fn made(&self, wire: u8) -> bool
        requires { wire < WIRES }
        ensures { (disc : ℕ) (ticks : List WireWords) → StandsFor self.now disc ticks
            → result ≡ is_made (words_at ticks (length ticks)) wire }
    {
        is_made(self.words, wire)
    }

    /// Whether the wire is made at the last tick and was not at the tick before.
    pub fn rose(&self, wire: u8) -> bool
        requires { wire < WIRES }
        ensures { (disc : ℕ) (ticks : List WireWords) → StandsFor self.now disc ticks
            → result ≡ rises ticks wire (length ticks) }
    {
        rises(self.words, self.before, wire)
    }

    /// The first wire that is discrepant at the last tick. `None` exactly where none is.
    pub fn discrepant(&self) -> Option<u8>
        ensures { (disc : ℕ) (ticks : List WireWords) → StandsFor self.now disc ticks
            → result ≡ first_discrepant (words_at ticks (length ticks)) }
    {
        if is_none_discrepant(self.words) {
            return None;
        }
        for wire in 0..WIRES {
            if is_discrepant(self.words, wire) {
                return Some(wire);
            }
        }
        None
    }

    /// Whether a contact fault stands at the last tick.
    pub fn faulted(&self) -> bool
        ensures { (disc : ℕ) (ticks : List WireWords) → StandsFor self.now disc ticks
            → result ≡ has_contact_fault disc ticks (length ticks) }
    {
        self.fault
    }
}
