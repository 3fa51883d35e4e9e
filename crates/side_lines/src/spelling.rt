// What a line of one side says: a letter, the side, and for some a word, an order or a place (own).
ghost use Rattle.std.specs.Prelude.{◌≡◌};
ghost use Rattle.script_model.specs.SideLines.{side_of, hex_from, long_word_of, order_of, bare_line, line_with, line_behind, side_line_of};

use crate::numbers::place;
use can_frame::hex_value;
use lift_base::{Kind, Override, Side};
use script_model::{Entry, SideLine};

fn side(letter: u8) -> Option<Side>
    ensures { result ≡ side_of letter }
{
    match letter {
        b'A' => Some(Side::A),
        b'B' => Some(Side::B),
        _ => None,
    }
}

/// The word that 16 digits write.
fn long_word(digits: &[u8]) -> Option<u64>
    ensures { result ≡ long_word_of digits.now }
{
    if digits.len() != 16 {
        return None;
    }
    let mut n: u64 = 0;
    for digit in digits {
        n = 16 * n + u64::from(hex_value(*digit)?);
    }
    Some(n)
}

fn order(name: &[u8]) -> Option<Override>
    ensures { result ≡ order_of name.now }
{
    if name == b"off".as_slice() {
        Some(Override::Force(Kind::Off))
    } else if name == b"full".as_slice() {
        Some(Override::Force(Kind::Full))
    } else if name == b"up".as_slice() {
        Some(Override::Force(Kind::Up))
    } else if name == b"down".as_slice() {
        Some(Override::Force(Kind::Down))
    } else if name == b"follow".as_slice() {
        Some(Override::Follow)
    } else {
        None
    }
}

/// A line for which a letter and a side are enough.
fn bare_line(c: u8) -> Option<SideLine>
    ensures { result ≡ bare_line c }
{
    match c {
        b'r' => Some(SideLine::Exchange),
        b'x' => Some(SideLine::Fail),
        b'h' => Some(SideLine::Hold),
        b'd' => Some(SideLine::Dismiss),
        b's' => Some(SideLine::Sample),
        b'q' => Some(SideLine::Publish),
        b'l' => Some(SideLine::Look),
        b'k' => Some(SideLine::Command),
        _ => None,
    }
}

/// A line that also has a word, an order or a place.
fn line_with(c: u8, part: &[u8]) -> Option<SideLine>
    ensures { result ≡ line_with c part.now }
{
    match c {
        b'p' => Some(SideLine::Word(long_word(part)?)),
        b'm' => Some(SideLine::Value(long_word(part)?)),
        b'c' => Some(SideLine::Contactor(order(part)?)),
        b'g' => Some(SideLine::Give(place(part)?)),
        _ => None,
    }
}

fn line_behind(c: u8, more: &[u8]) -> Option<SideLine>
    ensures { result ≡ line_behind c more.now }
{
    match more {
        [] => bare_line(c),
        [b' ', part @ ..] => line_with(c, part),
        _ => None,
    }
}

/// What a line of one side says, by its first byte and those behind it.
pub fn read_side_line(c: u8, rest: &[u8]) -> Option<Entry>
    ensures { result ≡ side_line_of c rest.now }
{
    let [b' ', letter, more @ ..] = rest else {
        return None;
    };
    let side = side(*letter)?;
    Some(Entry::OfSide(side, line_behind(c, more)?))
}
