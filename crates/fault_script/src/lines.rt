// What one line says (own). Parts are parted by one space, hexadecimal digits are in upper case.
ghost use Rattle.std.specs.Prelude.{◌≡◌};
ghost use Rattle.script_model.specs.Lines.{frame_line, wires_line, truth_line, tick_line, end_line, side_line};
ghost use Rattle.fault_script.specs.Fits.{IfFits};

use can_frame::{Frame, word};
use lift_base::MOST_TICKS;
use script_model::{Entry, Line};
use side_lines::{number, read_side_line};

/// After `f`: a frame.
pub fn frame_line(rest: &[u8]) -> Option<Line>
    ensures value { result ≡ frame_line rest.now }
    ensures fits { IfFits result }
{
    let [b' ', text @ ..] = rest else {
        return None;
    };
    let frame = Frame::read_line(text).ok()?;
    Some(Line::Entry(Entry::Frame(frame)))
}

/// After `w`: the words of the wires.
pub fn wires_line(rest: &[u8]) -> Option<Line>
    ensures value { result ≡ wires_line rest.now }
    ensures fits { IfFits result }
{
    let [b' ', a3, a2, a1, a0, b' ', b3, b2, b1, b0] = rest else {
        return None;
    };
    let a = word([*a3, *a2, *a1, *a0])?;
    let b = word([*b3, *b2, *b1, *b0])?;
    Some(Line::Entry(Entry::Wires(a, b)))
}

/// After `u`: a source and its true word.
pub fn truth_line(rest: &[u8]) -> Option<Line>
    ensures value { result ≡ truth_line rest.now }
    ensures fits { IfFits result }
{
    let [b' ', j @ b'1'..=b'6', b' ', d3, d2, d1, d0] = rest else {
        return None;
    };
    let word = word([*d3, *d2, *d1, *d0])?;
    Some(Line::Entry(Entry::Truth(*j - b'0', word)))
}

/// After `t`: ticks.
pub fn tick_line(rest: &[u8]) -> Option<Line>
    ensures value { result ≡ tick_line rest.now }
    ensures fits { IfFits result }
{
    match rest {
        [] => Some(Line::Tick(1)),
        [b' ', digits @ ..] => {
            let n = number(digits)?;
            if n >= 2 { Some(Line::Tick(n)) } else { None }
        }
        _ => None,
    }
}

/// After `e`: the end.
pub fn end_line(rest: &[u8]) -> Option<Line>
    ensures value { result ≡ end_line rest.now }
    ensures fits { IfFits result }
{
    if rest.is_empty() {
        Some(Line::End)
    } else {
        None
    }
}

/// After any other byte: what a line of a side says.
pub fn side_line(c: u8, rest: &[u8]) -> Option<Line>
    ensures value { result ≡ side_line c rest.now }
    ensures fits { IfFits result }
{
    let entry = read_side_line(c, rest)?;
    Some(Line::Entry(entry))
}
