// What a single fault does to the sides in a tick: the lines of a script that stand for it (own).
ghost use Rattle.std.specs.Prelude.{◌≡◌, ◌<◌, ◌^◌, option_map};
ghost use Rattle.core_model.specs.Machine.{other};
ghost use Rattle.fault_plan.specs.Doing.{command_of, does, fails, faults_in, fresh, is_exchanged, is_held, on_side, order_of, publish_of, side_faults, stored};

use crate::single::{SingleFault, What};
use crate::words::{SideWords, TickWords, of_side, words_in};
use channel_words::command_word;
use lift_base::{Kind, Override, Side};
use lift_script::no_faults;
use lift_trace::{Faults, SideFaults};

fn other(side: Side) -> Side
    ensures { result ≡ other side }
{
    match side {
        Side::A => Side::B,
        Side::B => Side::A,
    }
}

// The word of a kind with the stamp of its tick. It says the same as a publish and as a command word.
fn fresh(kind: Kind, tick: u32) -> u64
    requires { tick < 2 ^ 24 }
    ensures { result ≡ fresh kind tick }
{
    command_word(tick, kind, 0, 0, false)
}

fn twice(word: u64) -> SideWords
    ensures { result ≡ record { publish = word; command = word } }
{
    SideWords {
        publish: word,
        command: word,
    }
}

// The words that the failed side stores in a tick, where it stores any.
fn stored(words: &[TickWords], side: Side, what: What, tick: u32) -> Option<SideWords>
    requires { tick < 2 ^ 24 }
    ensures { result ≡ stored words.now side what tick }
{
    match what {
        What::Silent | What::Held(_) | What::Exchanged(_) | What::ExchangedAndReset(_) => None,
        What::Wrong(word) => Some(twice(word)),
        What::Fresh(kind) => Some(twice(fresh(kind, tick))),
        What::Others => Some(of_side(other(side), words_in(words, tick))),
        What::Last => Some(of_side(side, words_in(words, tick.saturating_sub(1)))),
        What::Right | What::Forced(_) => Some(of_side(side, words_in(words, tick))),
    }
}

fn publish_of(stored: Option<SideWords>) -> Option<u64>
    ensures { result ≡ publish_of stored }
{
    match stored {
        Some(words) => Some(words.publish),
        None => None,
    }
}

fn command_of(stored: Option<SideWords>) -> Option<u64>
    ensures { result ≡ command_of stored }
{
    match stored {
        Some(words) => Some(words.command),
        None => None,
    }
}

fn fails(what: What) -> bool
    ensures { result ≡ fails what }
{
    match what {
        What::Held(_) => false,
        What::Silent
        | What::Wrong(_)
        | What::Fresh(_)
        | What::Others
        | What::Last
        | What::Right
        | What::Forced(_)
        | What::Exchanged(_)
        | What::ExchangedAndReset(_) => true,
    }
}

// Whether it is held so many ticks after the fault's first.
fn is_held(what: What, since: u32) -> bool
    ensures { result ≡ is_held what since }
{
    match what {
        What::Held(ticks) => since < ticks,
        What::Silent
        | What::Wrong(_)
        | What::Fresh(_)
        | What::Others
        | What::Last
        | What::Right
        | What::Forced(_)
        | What::Exchanged(_)
        | What::ExchangedAndReset(_) => false,
    }
}

// Whether it is exchanged so many ticks after the fault's first.
fn is_exchanged(what: What, since: u32) -> bool
    ensures { result ≡ is_exchanged what since }
{
    match what {
        What::Exchanged(after) | What::ExchangedAndReset(after) => 0 < since && since == after,
        What::Silent
        | What::Wrong(_)
        | What::Fresh(_)
        | What::Others
        | What::Last
        | What::Right
        | What::Forced(_)
        | What::Held(_) => false,
    }
}

fn order_of(what: What) -> Override
    ensures { result ≡ order_of what }
{
    match what {
        What::Forced(kind) => Override::Force(kind),
        What::Silent
        | What::Wrong(_)
        | What::Fresh(_)
        | What::Others
        | What::Last
        | What::Right
        | What::Held(_)
        | What::Exchanged(_)
        | What::ExchangedAndReset(_) => Override::Keep,
    }
}

// What the fault does so many ticks after its first.
fn does(what: What, stored: Option<SideWords>, since: u32) -> SideFaults
    ensures { result ≡ does what stored since }
{
    let begins = since == 0;
    SideFaults {
        fail: fails(what) && begins,
        hold: is_held(what, since),
        exchange: is_exchanged(what, since),
        publish: publish_of(stored),
        command: command_of(stored),
        contactor: if begins {
            order_of(what)
        } else {
            Override::Keep
        },
        dismiss: false,
        give: None,
    }
}

fn side_faults(words: &[TickWords], fault: SingleFault, tick: u32) -> SideFaults
    requires { tick < 2 ^ 24 }
    ensures { result ≡ side_faults words.now fault tick }
{
    if tick < fault.tick {
        return no_faults().a;
    }
    let stored = stored(words, fault.side, fault.what, tick);
    does(fault.what, stored, tick - fault.tick)
}

fn on_side(side: Side, faults: SideFaults) -> Faults
    ensures { result ≡ on_side side faults }
{
    let Faults { a, b } = no_faults();
    match side {
        Side::A => Faults { a: faults, b },
        Side::B => Faults { a, b: faults },
    }
}

/// What a single fault does to both sides in a tick, from 1, where these are the words of the run without it.
pub(crate) fn faults_in(words: &[TickWords], fault: SingleFault, tick: u32) -> Faults
    requires { tick < 2 ^ 24 }
    ensures { result ≡ faults_in words.now fault tick }
{
    on_side(fault.side, side_faults(words, fault, tick))
}
