// A row of the wires' file: a time, and the two words (own).
ghost use Rattle.std.specs.Prelude.{◌≡◌};
ghost use Rattle.can_log.specs.Rows.{whole_word, row_of};

use crate::lines::read_clock;
use crate::wires::WireRow;
use can_frame::word;

fn whole_word(digits: &[u8]) -> Option<u16>
    ensures { result ≡ whole_word digits.now }
{
    match digits {
        [d3, d2, d1, d0] => word([*d3, *d2, *d1, *d0]),
        _ => None,
    }
}

/// The row that a time and two words of four digits say, where they do.
pub fn read_row(time: &[u8], a: &[u8], b: &[u8]) -> Option<WireRow>
    ensures { result ≡ row_of time.now a.now b.now }
{
    let time = read_clock(time)?;
    let a = whole_word(a)?;
    let b = whole_word(b)?;
    Some(WireRow { time, a, b })
}
