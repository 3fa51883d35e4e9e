// The lines of a tick's faults (own): those of A and then of B, in an order in which they may stand.
ghost use Rattle.std.specs.Prelude.{◌≡◌, ◌++◌, [], length, codes};
ghost use Rattle.std.specs.List.{flat_map};
ghost use Rattle.lift_io.specs.Causes.{HasCause};
ghost use Rattle.lift_io.specs.Puts.{PutsText};
ghost use Rattle.script_model.specs.Text.{letter_of, forced_name, order_name, bare_text, text_with, side_line_text, line_if, line_of_some, order_line, lines_of_faults, given_text, side_text, faults_text};
ghost use Rattle.script_model.specs.declared.sides.SideLine.TheVariants.{Word, Value, Give};

use can_frame::hex_long_word;
use itoa::Buffer;
use lift_base::{Kind, Override, Side};
use lift_io::{Failed, Sink, put_all};
use lift_trace::{Faults, SideFaults};
use script_model::SideLine;

fn letter(side: Side) -> u8
    ensures { result ≡ letter_of side }
{
    match side {
        Side::A => b'A',
        Side::B => b'B',
    }
}

fn forced_name(kind: Kind) -> &'static str
    ensures { result.now ≡ forced_name kind }
{
    match kind {
        Kind::Off => "off",
        Kind::Full => "full",
        Kind::Up => "up",
        Kind::Down => "down",
    }
}

fn order_name(order: Override) -> &'static str
    ensures { result.now ≡ order_name order }
{
    match order {
        Override::Keep => "",
        Override::Follow => "follow",
        Override::Force(kind) => forced_name(kind),
    }
}

/// A line of a letter and a side.
fn put_bare<K: Sink>(sink: &mut K, c: u8, side: Side) -> Result<(), Failed>
    ensures text { PutsText (K.held sink.old) (K.held sink.new) result (bare_text c side ++ codes "\n") }
    ensures cause { HasCause (K.faults sink.old) (K.faults sink.new) result }
{
    put_all(sink, &[&[c, b' ', letter(side)], b"\n"])
}

/// A line that also has this part.
fn put_with<K: Sink>(sink: &mut K, c: u8, side: Side, part: &[u8]) -> Result<(), Failed>
    ensures text { PutsText (K.held sink.old) (K.held sink.new) result (text_with c side part.now ++ codes "\n") }
    ensures cause { HasCause (K.faults sink.old) (K.faults sink.new) result }
{
    put_all(sink, &[&[c, b' ', letter(side), b' '], part, b"\n"])
}

fn put_place<K: Sink>(sink: &mut K, side: Side, place: u8) -> Result<(), Failed>
    ensures text { PutsText (K.held sink.old) (K.held sink.new) result (side_line_text side (Give place) ++ codes "\n") }
    ensures cause { HasCause (K.faults sink.old) (K.faults sink.new) result }
{
    let mut buffer = Buffer::new();
    put_with(sink, b'g', side, buffer.format(place).as_bytes())
}

fn put_line<K: Sink>(sink: &mut K, side: Side, line: SideLine) -> Result<(), Failed>
    ensures text { PutsText (K.held sink.old) (K.held sink.new) result (side_line_text side line ++ codes "\n") }
    ensures cause { HasCause (K.faults sink.old) (K.faults sink.new) result }
{
    match line {
        SideLine::Exchange => put_bare(sink, b'r', side),
        SideLine::Fail => put_bare(sink, b'x', side),
        SideLine::Hold => put_bare(sink, b'h', side),
        SideLine::Word(word) => put_with(sink, b'p', side, &hex_long_word(word)),
        SideLine::Value(word) => put_with(sink, b'm', side, &hex_long_word(word)),
        SideLine::Contactor(order) => put_with(sink, b'c', side, order_name(order).as_bytes()),
        SideLine::Give(place) => put_place(sink, side, place),
        SideLine::Dismiss => put_bare(sink, b'd', side),
        SideLine::Sample => put_bare(sink, b's', side),
        SideLine::Publish => put_bare(sink, b'q', side),
        SideLine::Look => put_bare(sink, b'l', side),
        SideLine::Command => put_bare(sink, b'k', side),
    }
}

fn put_given<K: Sink>(sink: &mut K, side: Side, line: Option<SideLine>) -> Result<(), Failed>
    ensures text { PutsText (K.held sink.old) (K.held sink.new) result (given_text side line) }
    ensures cause { HasCause (K.faults sink.old) (K.faults sink.new) result }
{
    match line {
        Some(line) => put_line(sink, side, line),
        None => Ok(()),
    }
}

fn line_if(given: bool, line: SideLine) -> Option<SideLine>
    ensures { result ≡ line_if given line }
{
    if given { Some(line) } else { None }
}

fn place_line(place: Option<u8>) -> Option<SideLine>
    ensures { result ≡ line_of_some Give place }
{
    Some(SideLine::Give(place?))
}

fn word_line(word: Option<u64>) -> Option<SideLine>
    ensures { result ≡ line_of_some Word word }
{
    Some(SideLine::Word(word?))
}

fn value_line(word: Option<u64>) -> Option<SideLine>
    ensures { result ≡ line_of_some Value word }
{
    Some(SideLine::Value(word?))
}

fn order_line(order: Override) -> Option<SideLine>
    ensures { result ≡ order_line order }
{
    match order {
        Override::Keep => None,
        order => Some(SideLine::Contactor(order)),
    }
}

/// The lines that give a side its faults, where they are given.
fn lines_of(faults: SideFaults) -> [Option<SideLine>; 8]
    ensures { result ≡ lines_of_faults faults }
{
    [
        line_if(faults.exchange, SideLine::Exchange),
        line_if(faults.fail, SideLine::Fail),
        line_if(faults.hold, SideLine::Hold),
        line_if(faults.dismiss, SideLine::Dismiss),
        place_line(faults.give),
        word_line(faults.publish),
        value_line(faults.command),
        order_line(faults.contactor),
    ]
}

fn put_lines<K: Sink>(sink: &mut K, side: Side, lines: &[Option<SideLine>]) -> Result<(), Failed>
    ensures text { PutsText (K.held sink.old) (K.held sink.new) result (flat_map (given_text side) lines.now) }
    ensures cause { HasCause (K.faults sink.old) (K.faults sink.new) result }
{
    for line in lines {
        put_given(sink, side, *line)?;
    }
    Ok(())
}

#[tactic(auto, unfolding(script_model::specs::Text::side_text))]
fn put_side<K: Sink>(sink: &mut K, side: Side, faults: SideFaults) -> Result<(), Failed>
    ensures text { PutsText (K.held sink.old) (K.held sink.new) result (side_text side faults) }
    ensures cause { HasCause (K.faults sink.old) (K.faults sink.new) result }
{
    put_lines(sink, side, &lines_of(faults))
}

/// The lines of both sides' faults in a tick.
pub fn put_faults<K: Sink>(sink: &mut K, faults: Faults) -> Result<(), Failed>
    ensures text { PutsText (K.held sink.old) (K.held sink.new) result (faults_text faults) }
    ensures cause { HasCause (K.faults sink.old) (K.faults sink.new) result }
{
    put_side(sink, Side::A, faults.a)?;
    put_side(sink, Side::B, faults.b)
}
