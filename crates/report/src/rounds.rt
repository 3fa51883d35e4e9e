// The rounds of a run: for each tick a line with the power that it settled and what the sides did in it (own).
ghost use Rattle.std.specs.Prelude.{◌≡◌, ◌<◌, ◌+◌, ◌++◌, ◌^◌, codes, decimal, length, get_or, slice_get, Some};
ghost use Rattle.can_frame.specs.Spelling.{hex16};
ghost use Rattle.lift_io.specs.Causes.{HasCause};
ghost use Rattle.lift_io.specs.Puts.{PutsText};
ghost use Rattle.core_model.specs.Settling.{no_settled};
ghost use Rattle.round_model.specs.Records.{RoundData};
ghost use Rattle.script_model.specs.Report.{kind_text};
ghost use Rattle.script_model.specs.Rounds.{acted_text, round_text, rounds_text, stored_text, turn_text};
ghost use Rattle.report.specs.Names.{digits_or_dash};

use crate::lines::kind_name;
use crate::totals::put_totals;
use can_frame::hex_long_word;
use itoa::Buffer;
use lift_base::{Kind, Side};
use lift_io::{Failed, Sink, put_all};
use lift_run::{Run, Turn};

// The digits of a word, where it was stored.
fn digits_of(word: Option<u64>) -> Option<[u8; 16]>
    ensures { digits_or_dash result ≡ stored_text word }
{
    match word {
        Some(word) => Some(hex_long_word(word)),
        None => None,
    }
}

fn or_dash(digits: &Option<[u8; 16]>) -> &[u8]
    ensures { result.now ≡ digits_or_dash digits.now }
{
    match digits {
        Some(digits) => digits,
        None => b"-",
    }
}

fn acted_name(turn: &Turn) -> &'static str
    ensures { result.now ≡ acted_text turn.now }
{
    if turn.failed { "failed " } else { "ok " }
}

// Writes the words of a side that acted, and what comes after them.
fn put_words<K: Sink>(sink: &mut K, turn: &Turn, behind: &'static str) -> Result<(), Failed>
    ensures text { PutsText (K.held sink.old) (K.held sink.new) result (acted_text turn.now ++ stored_text turn.now.publish ++ codes " "
        ++ hex16 turn.now.seen ++ codes " " ++ stored_text turn.now.command ++ behind.now) }
    ensures cause { HasCause (K.faults sink.old) (K.faults sink.new) result }
{
    let publish = digits_of(turn.publish);
    let seen = hex_long_word(turn.seen);
    let command = digits_of(turn.command);
    put_all(
        sink,
        &[
            acted_name(turn).as_bytes(),
            or_dash(&publish),
            b" ",
            &seen,
            b" ",
            or_dash(&command),
            behind.as_bytes(),
        ],
    )
}

// Writes what a side did, and what comes after it.
#[tactic(auto, unfolding(script_model::specs::Rounds::turn_text))]
fn put_turn<K: Sink>(sink: &mut K, turn: &Turn, behind: &'static str) -> Result<(), Failed>
    ensures text { PutsText (K.held sink.old) (K.held sink.new) result (turn_text turn.now ++ behind.now) }
    ensures cause { HasCause (K.faults sink.old) (K.faults sink.new) result }
{
    if turn.acted {
        put_words(sink, turn, behind)
    } else {
        put_all(sink, &[b"held", behind.as_bytes()])
    }
}

// Writes what stands before the turns of a tick that settled this power.
fn put_power<K: Sink>(sink: &mut K, tick: u32, power: Kind) -> Result<(), Failed>
    ensures text { PutsText (K.held sink.old) (K.held sink.new) result (decimal tick ++ codes " " ++ kind_text power ++ codes " A ") }
    ensures cause { HasCause (K.faults sink.old) (K.faults sink.new) result }
{
    let mut buffer = Buffer::new();
    put_all(
        sink,
        &[
            buffer.format(tick).as_bytes(),
            b" ",
            kind_name(power).as_bytes(),
            b" A ",
        ],
    )
}

/// Writes the line of a tick that settled this power.
pub fn put_round<K: Sink>(
    sink: &mut K,
    tick: u32,
    power: Kind,
    a: &Turn,
    b: &Turn,
) -> Result<(), Failed>
    ensures text { PutsText (K.held sink.old) (K.held sink.new) result (round_text tick power (record { a = a.now; b = b.now })) }
    ensures cause { HasCause (K.faults sink.old) (K.faults sink.new) result }
{
    put_power(sink, tick, power)?;
    put_turn(sink, a, " B ")?;
    put_turn(sink, b, "\n")
}

// Writes the line of the tick after so many.
fn put_round_after<K: Sink>(sink: &mut K, run: &Run, before: u32) -> Result<(), Failed>
    requires tick { before < length run.now.path.settled }
    requires round { before < length run.now.rounds }
    requires small { before < 2 ^ 24 }
    ensures text { (round : RoundData) → slice_get run.now.rounds before ≡ Some round → PutsText (K.held sink.old) (K.held sink.new) result
        (round_text (before + 1) (get_or run.now.path.settled before no_settled).power round) }
    ensures cause { HasCause (K.faults sink.old) (K.faults sink.new) result }
{
    let power = run.path().get(before + 1).power;
    let a = run.turn(before + 1, Side::A);
    let b = run.turn(before + 1, Side::B);
    put_round(sink, before + 1, power, &a, &b)
}

/// Writes the rounds of a run, which has one for each tick. It takes no memory.
#[tactic(auto, unfolding(script_model::specs::Rounds::rounds_text))]
pub fn write_rounds<K: Sink>(run: &Run, sink: &mut K) -> Result<(), Failed>
    requires { length run.now.rounds ≡ length run.now.path.settled }
    ensures text { PutsText (K.held sink.old) (K.held sink.new) result (rounds_text run.now.path.settled run.now.rounds) }
    ensures cause { HasCause (K.faults sink.old) (K.faults sink.new) result }
{
    for before in 0..run.rounds() {
        put_round_after(sink, run, before)?;
    }
    put_totals(sink, run.path())
}
