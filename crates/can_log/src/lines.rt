// What one line of a log says: a time, an interface and a frame, as `candump -l` writes them (own).
ghost use Rattle.std.specs.Prelude.{◌≡◌, ◌≤◌, ◌<◌, ◌^◌, ◌==◌, ◌||◌, length, IfSome, option_map};
ghost use Rattle.std.specs.List.{list_all, position};
ghost use Rattle.can_log.specs.Lines.{cut, number_in, clock_of, stamp_of, is_hex, are_pairs, is_remote, is_fd, is_foreign_here, is_data, is_extended, kind_of, bare, skip_blanks, parts_of, stamped_of, interface_of};

use can_frame::{Frame, FrameFault, hex_value};

/// A frame of a log. Its time is in microseconds.
#[derive(Clone, Copy, Debug, PartialEq, Eq)]
pub struct Stamped {
    pub time: u64,
    /// `None` where it is a foreign one: extended, remote, FD, or one that tells of errors.
    pub frame: Option<Frame>,
}

fn place(byte: u8, text: &[u8]) -> Option<usize>
    ensures { result ≡ position (λ b. b == byte) text.now }
{
    text.iter().position(|b| *b == byte)
}

/// The part before the first of these bytes, and the part behind it.
pub(crate) fn cut(byte: u8, text: &[u8]) -> Option<(&[u8], &[u8])>
    ensures { option_map (λ p. (p.0.now, p.1.now)) result ≡ cut byte text.now }
{
    match place(byte, text) {
        Some(i) if i < text.len() => Some((&text[..i], &text[i + 1..])),
        _ => None,
    }
}

fn number(digits: &[u8]) -> Option<u64>
    requires { length digits.now ≤ 12 }
    ensures few { IfSome result (λ n. n < 10 ^ 12) }
    ensures value { result ≡ number_in digits.now }
{
    let mut n: u64 = 0;
    for digit in digits {
        if !digit.is_ascii_digit() {
            return None;
        }
        n = 10 * n + u64::from(*digit - b'0');
    }
    Some(n)
}

/// A time in microseconds: 1 to 12 digits of seconds, a point, and six digits.
pub fn read_clock(text: &[u8]) -> Option<u64>
    ensures { result ≡ clock_of text.now }
{
    let n = text.len();
    if n < 8 || n > 19 || text[n - 7] != b'.' {
        return None;
    }
    let seconds = number(&text[..n - 7])?;
    let parts = number(&text[n - 6..])?;
    Some(1_000_000 * seconds + parts)
}

fn stamp(text: &[u8]) -> Option<u64>
    ensures { result ≡ stamp_of text.now }
{
    let n = text.len();
    if n < 2 || text[0] != b'(' || text[n - 1] != b')' {
        return None;
    }
    read_clock(&text[1..n - 1])
}

fn is_hex(b: u8) -> bool
    ensures { result ≡ is_hex b }
{
    hex_value(b).is_some()
}

fn all_hex(text: &[u8]) -> bool
    ensures { result ≡ list_all is_hex text.now }
{
    text.iter().all(|b| is_hex(*b))
}

fn are_pairs(most: usize, text: &[u8]) -> bool
    requires { most ≤ 64 }
    ensures { result ≡ are_pairs most text.now }
{
    all_hex(text) && text.len() % 2 == 0 && text.len() <= 2 * most
}

fn is_remote(text: &[u8]) -> bool
    ensures { result ≡ is_remote text.now }
{
    match text {
        [b'R', rest @ ..] => rest.len() <= 1 && all_hex(rest),
        _ => false,
    }
}

fn is_fd(text: &[u8]) -> bool
    ensures { result ≡ is_fd text.now }
{
    match text {
        [b'#', flags, bytes @ ..] => is_hex(*flags) && are_pairs(64, bytes),
        _ => false,
    }
}

fn is_foreign_here(text: &[u8]) -> bool
    ensures { result ≡ is_foreign_here text.now }
{
    match text {
        [_, _, _, b'#', rest @ ..] => is_remote(rest) || is_fd(rest),
        _ => false,
    }
}

fn is_data(text: &[u8]) -> bool
    ensures { result ≡ is_data text.now }
{
    are_pairs(8, text) || is_remote(text) || is_fd(text)
}

fn is_extended(text: &[u8]) -> bool
    ensures { result ≡ is_extended text.now }
{
    match text {
        [a, b, c, d, e, f, g, h, b'#', rest @ ..] => {
            all_hex(&[*a, *b, *c, *d, *e, *f, *g, *h]) && is_data(rest)
        }
        _ => false,
    }
}

/// A data frame with an identifier of eleven bits, or a foreign one.
fn kind(text: &[u8]) -> Option<Option<Frame>>
    ensures { result ≡ kind_of text.now }
{
    match Frame::read_line(text) {
        Ok(frame) => Some(Some(frame)),
        Err(FrameFault::BadId) => None,
        Err(FrameFault::BadData) => {
            if is_foreign_here(text) || is_extended(text) {
                Some(None)
            } else {
                None
            }
        }
    }
}

fn is_direction(b: u8) -> bool
    ensures { result ≡ ((b == 82) || (b == 84)) }
{
    b == b'R' || b == b'T'
}

/// Without the ` R` or ` T` that tells the direction.
fn bare(text: &[u8]) -> &[u8]
    ensures { result.now ≡ bare text.now }
{
    let n = text.len();
    if n >= 2 && text[n - 2] == b' ' && is_direction(text[n - 1]) {
        &text[..n - 2]
    } else {
        text
    }
}

fn skip_blanks(text: &[u8]) -> &[u8]
    ensures { result.now ≡ skip_blanks text.now }
{
    let mut text = text;
    while let [b' ', rest @ ..] = text {
        text = rest;
    }
    text
}

/// The fields of a line: its time, the interface, and the frame with what follows it.
#[derive(Clone, Copy)]
struct Fields<'a> {
    time: u64,
    interface: &'a [u8],
    frame: &'a [u8],
}

fn parts(line: &[u8]) -> Option<Fields<'_>>
    ensures { option_map (λ p. (p.time, (p.interface.now, p.frame.now))) result ≡ parts_of line.now }
{
    let (front, back) = cut(b' ', line)?;
    let time = stamp(front)?;
    let (interface, frame) = cut(b' ', skip_blanks(back))?;
    Some(Fields {
        time,
        interface,
        frame,
    })
}

/// What a line of a log says, where it is one.
pub fn read_line(line: &[u8]) -> Option<Stamped>
    ensures { result ≡ stamped_of line.now }
{
    let parts = parts(line)?;
    let frame = kind(bare(parts.frame))?;
    Some(Stamped {
        time: parts.time,
        frame,
    })
}

/// The interface that a line of a log names.
pub fn interface(line: &[u8]) -> Option<&[u8]>
    ensures { option_map (λ name. name.now) result ≡ interface_of line.now }
{
    let parts = parts(line)?;
    Some(parts.interface)
}
