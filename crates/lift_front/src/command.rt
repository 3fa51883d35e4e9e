// What the words ask for (own).
ghost use Rattle.std.specs.Prelude.{◌≡◌, IfSome};
ghost use Rattle.lift_front.specs.Commands.{asked, named, numbered, last_changes, in_cycles, number_in, IsInBounds};

use event_record::MOST_CHANGES;
use itoa::Buffer;
use lift_base::LONGEST_SPAN;
use node_sim::SHORTEST_CYCLE;

/// A command of the tool.
#[derive(Clone, Copy, Debug, PartialEq, Eq)]
pub enum Command {
    /// Reads a script, runs it on two threads, and reports each change of power.
    Replay,
    /// The same run, with a line for each round.
    Rounds,
    /// The same run, audited: whether the frames told the truth, how old it was, and whether a side was healthy.
    Audit,
    /// The same run, with as many of its last changes as asked for, 1 to 1000.
    Last(u32),
    /// Runs the script that is generated from this number, and counts its ticks and changes.
    Load(u32),
    /// The same run as `Replay`, with what the levelling gate gives above its power.
    Level,
    /// Reads a script with written events, and runs the core by them.
    Schedule,
    /// Reads a script of wires and true words, makes the frames of its sources, which each send a pair once in this many ticks, 6 to
    /// 1000, and runs and reports it as `Replay` does.
    Simulate(u32),
    /// The run of `Replay`, whose changes are then stored in the record of a disk.
    Store,
}

fn named(word: &str) -> Option<Command>
    ensures value { result ≡ named word.now }
    ensures bounds { IfSome result IsInBounds }
{
    if word == "replay" {
        Some(Command::Replay)
    } else if word == "rounds" {
        Some(Command::Rounds)
    } else if word == "audit" {
        Some(Command::Audit)
    } else if word == "level" {
        Some(Command::Level)
    } else if word == "schedule" {
        Some(Command::Schedule)
    } else if word == "store" {
        Some(Command::Store)
    } else {
        None
    }
}

// A number as it is printed: decimal, without a sign and without leading zeros.
fn number(word: &str) -> Option<u32>
    ensures { result ≡ number_in word.now }
{
    let Ok(number) = word.parse::<u32>() else {
        return None;
    };
    let mut buffer = Buffer::new();
    if buffer.format(number) == word {
        Some(number)
    } else {
        None
    }
}

fn last_changes(number: u32) -> Option<Command>
    ensures value { result ≡ last_changes number }
    ensures bounds { IfSome result IsInBounds }
{
    if 1 <= number && number <= MOST_CHANGES {
        Some(Command::Last(number))
    } else {
        None
    }
}

fn in_cycles(ticks: u32) -> Option<Command>
    ensures value { result ≡ in_cycles ticks }
    ensures bounds { IfSome result IsInBounds }
{
    if SHORTEST_CYCLE <= ticks && ticks <= LONGEST_SPAN {
        Some(Command::Simulate(ticks))
    } else {
        None
    }
}

fn numbered(word: &str, number: u32) -> Option<Command>
    ensures value { result ≡ numbered word.now number }
    ensures bounds { IfSome result IsInBounds }
{
    if word == "last" {
        last_changes(number)
    } else if word == "load" {
        Some(Command::Load(number))
    } else if word == "simulate" {
        in_cycles(number)
    } else {
        None
    }
}

/// The command of these words, which are those after the program's name.
pub fn asked(words: &[String]) -> Option<Command>
    ensures value { result ≡ asked words.now }
    ensures bounds { IfSome result IsInBounds }
{
    match words {
        [word] => named(word.as_str()),
        [word, digits] => numbered(word.as_str(), number(digits.as_str())?),
        _ => None,
    }
}
