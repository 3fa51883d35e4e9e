// The two words of the wires at one tick (own): a wire is made where its bit is 1 in a and 0 in b, off where it is
// 0 in a and 1 in b, and discrepant otherwise.
ghost use Rattle.std.specs.Prelude.{◌≡◌, ℕ, ◌<◌, ◌&&◌, not, true, false};
ghost use Rattle.lift_model.specs.Bits.{has};
ghost use Rattle.lift_model.specs.Wires.{is_made, is_discrepant, all_off};

use lift_base::WIRES;
use std::marker::Model;

/// The bits of all wires.
const ALL: u16 = (1 << WIRES) - 1;

/// The words a and b.
#[derive(Clone, Copy, Debug)]
pub struct Words {
    pub a: u16,
    pub b: u16,
}

impl Model for Words {
    ghost use Rattle.lift_model.specs.Records.{WireWords};

    ghost Value = { WireWords };

    ghost view = { λ w. record { a = w.a; b = w.b } };

    ghost inverse = { λ d. record { a = d.a; b = d.b } };
}

/// The words before the first tick: each wire is off.
pub fn all_off() -> Words
    ensures { result ≡ all_off }
{
    Words { a: 0, b: 0xFFFF }
}

fn has_bit(word: u16, bit: u8) -> bool
    requires { bit < 16 }
    ensures { result ≡ has word bit }
{
    word >> bit & 1 == 1
}

/// Whether the wire is made: its bit is set in word A and clear in word B.
pub fn is_made(words: Words, wire: u8) -> bool
    requires { wire < WIRES }
    ensures { result ≡ is_made words wire }
{
    has_bit(words.a, wire) && !has_bit(words.b, wire)
}

/// Whether the wire is discrepant: its bit is the same in both words.
pub fn is_discrepant(words: Words, wire: u8) -> bool
    requires { wire < WIRES }
    ensures { result ≡ is_discrepant words wire }
{
    has_bit(words.a, wire) == has_bit(words.b, wire)
}

/// Whether no wire is discrepant: the two words differ in the bit of each.
pub fn is_none_discrepant(words: Words) -> bool
    ensures { result ≡ true → (i : ℕ) → i < WIRES → is_discrepant words i ≡ false }
{
    (words.a ^ words.b) & ALL == ALL
}

/// Made now, and not at the tick before.
pub fn rises(words: Words, before: Words, wire: u8) -> bool
    requires { wire < WIRES }
    ensures { result ≡ (is_made words wire && not (is_made before wire)) }
{
    is_made(words, wire) && !is_made(before, wire)
}
