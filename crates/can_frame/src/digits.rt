// Hexadecimal digits in upper case, both ways.
ghost use Rattle.std.specs.Prelude.{◌≡◌, ◌<◌, IfSome, slice_index};
ghost use Rattle.can_frame.specs.Spelling.{hex_digit, byte_of, word_of, glyph, hex4, hex16};

/// The value of each byte as a digit, and 255 where it is none.
const DIGITS: [u8; 256] = [
    255, 255, 255, 255, 255, 255, 255, 255, 255, 255, 255, 255, 255, 255, 255, 255, 255, 255, 255,
    255, 255, 255, 255, 255, 255, 255, 255, 255, 255, 255, 255, 255, 255, 255, 255, 255, 255, 255,
    255, 255, 255, 255, 255, 255, 255, 255, 255, 255, 0, 1, 2, 3, 4, 5, 6, 7, 8, 9, 255, 255, 255,
    255, 255, 255, 255, 10, 11, 12, 13, 14, 15, 255, 255, 255, 255, 255, 255, 255, 255, 255, 255,
    255, 255, 255, 255, 255, 255, 255, 255, 255, 255, 255, 255, 255, 255, 255, 255, 255, 255, 255,
    255, 255, 255, 255, 255, 255, 255, 255, 255, 255, 255, 255, 255, 255, 255, 255, 255, 255, 255,
    255, 255, 255, 255, 255, 255, 255, 255, 255, 255, 255, 255, 255, 255, 255, 255, 255, 255, 255,
    255, 255, 255, 255, 255, 255, 255, 255, 255, 255, 255, 255, 255, 255, 255, 255, 255, 255, 255,
    255, 255, 255, 255, 255, 255, 255, 255, 255, 255, 255, 255, 255, 255, 255, 255, 255, 255, 255,
    255, 255, 255, 255, 255, 255, 255, 255, 255, 255, 255, 255, 255, 255, 255, 255, 255, 255, 255,
    255, 255, 255, 255, 255, 255, 255, 255, 255, 255, 255, 255, 255, 255, 255, 255, 255, 255, 255,
    255, 255, 255, 255, 255, 255, 255, 255, 255, 255, 255, 255, 255, 255, 255, 255, 255, 255, 255,
    255, 255, 255, 255, 255, 255, 255, 255, 255, 255, 255, 255, 255, 255, 255, 255, 255, 255, 255,
    255, 255, 255, 255,
];

/// The value of a digit. Lower case has none.
pub fn hex_value(b: u8) -> Option<u16>
    ensures few { IfSome result (λ d. d < 16) }
    ensures value { result ≡ hex_digit b }
{
    let value = DIGITS[b as usize];
    if value < 16 {
        Some(u16::from(value))
    } else {
        None
    }
}

/// The byte that two digits write. Two values below 16 have a sum below 32, and a byte that is no digit has 255.
pub fn hex_pair(x: u8, y: u8) -> Option<u8>
    ensures { result ≡ byte_of x y }
{
    let high = u16::from(DIGITS[x as usize]);
    let low = u16::from(DIGITS[y as usize]);
    if high + low < 32 {
        Some((16 * high + low) as u8)
    } else {
        None
    }
}

/// The number that four digits write.
pub fn word(digits: [u8; 4]) -> Option<u16>
    ensures { result ≡ word_of (slice_index digits 0) (slice_index digits 1) (slice_index digits 2) (slice_index digits 3) }
{
    let d3 = hex_value(digits[0])?;
    let d2 = hex_value(digits[1])?;
    let d1 = hex_value(digits[2])?;
    let d0 = hex_value(digits[3])?;
    Some(4096 * d3 + 256 * d2 + 16 * d1 + d0)
}

/// The digit of a value.
pub fn digit(d: u16) -> u8
    requires { d < 16 }
    ensures { result ≡ glyph d }
{
    if d < 10 {
        d as u8 + b'0'
    } else {
        (d - 10) as u8 + b'A'
    }
}

/// A number as four digits.
pub fn hex_word(n: u16) -> [u8; 4]
    ensures { result ≡ hex4 n }
{
    [
        digit(n / 16 / 16 / 16),
        digit(n / 16 / 16 % 16),
        digit(n / 16 % 16),
        digit(n % 16),
    ]
}

/// A number as sixteen digits.
#[tactic(auto, unfolding(crate::specs::Spelling::hex16))]
pub fn hex_long_word(n: u64) -> [u8; 16]
    ensures { result ≡ hex16 n }
{
    let [a, b, c, d] = hex_word((n / 65536 / 65536 / 65536) as u16);
    let [e, f, g, h] = hex_word((n / 65536 / 65536 % 65536) as u16);
    let [i, j, k, l] = hex_word((n / 65536 % 65536) as u16);
    let [m, o, p, q] = hex_word((n % 65536) as u16);
    [a, b, c, d, e, f, g, h, i, j, k, l, m, o, p, q]
}
