// A tick is settled: power flows where both contactors give the same kind; the signals of a bypass run with power alone
// (EN 81-20, 5.12.1.8). All else is own.
ghost use Rattle.std.specs.Prelude.{◌≡◌};
ghost use Rattle.core_model.specs.Settling.{common, feedback};
ghost use Rattle.contactor_pair.specs.Settles.{out_at, settled_from};

use crate::contactor::Contactor;
use channel_words::alarm_of;
use door_bypass::alarm;
use lift_base::Kind;
use std::marker::Model;

/// One side's contactor as a tick settled it.
#[derive(Clone, Copy, Debug, PartialEq, Eq)]
pub struct Out {
    pub kind: Kind,
    /// The kind was forced, whatever the word says.
    pub forced: bool,
    /// The side's command word.
    pub word: u64,
    /// The word that the side's last command had seen, 0 before its first.
    pub seen: u64,
}

impl Model for Out {
    ghost use Rattle.core_model.specs.Settling.{Out};

    ghost Value = { Rattle.core_model.specs.Settling.Out };

    ghost view = { λ o. record { kind = o.kind; forced = o.forced; word = o.word; seen = o.seen } };

    ghost inverse = { λ o. record { kind = o.kind; forced = o.forced; word = o.word; seen = o.seen } };
}

impl Out {
    /// What a contactor gives at a tick, with its side's words.
    fn of(contactor: &Contactor, word: u64, seen: u64, tick: u32) -> Out
        ensures { result ≡ out_at contactor.now word seen tick }
    {
        Out {
            kind: contactor.output(word, tick),
            forced: contactor.is_forced(),
            word,
            seen,
        }
    }

    /// The contactor is closed: it gives a kind.
    pub fn is_closed(&self) -> bool
        ensures { result ≡ feedback self.now }
    {
        self.kind != Kind::Off
    }
}

/// What one tick settled.
#[derive(Clone, Copy, Debug, PartialEq, Eq)]
pub struct Settled {
    pub power: Kind,
    pub alarm: bool,
    pub a: Out,
    pub b: Out,
}

impl Model for Settled {
    ghost use Rattle.core_model.specs.Settling.{Settled};

    ghost Value = { Rattle.core_model.specs.Settling.Settled };

    ghost view = { λ s. record { power = s.power; alarm = s.alarm; a = s.a; b = s.b } };

    ghost inverse = { λ s. record { power = s.power; alarm = s.alarm; a = s.a; b = s.b } };
}

/// The kind that both give, else Off.
pub fn power(a: Kind, b: Kind) -> Kind
    ensures { result ≡ common a b }
{
    if a == b { a } else { Kind::Off }
}

/// What a tick settles from both contactors, both command words, and what the sides had seen at their last commands.
pub fn settle(
    tick: u32,
    contactor_a: &Contactor,
    word_a: u64,
    seen_a: u64,
    contactor_b: &Contactor,
    word_b: u64,
    seen_b: u64,
) -> Settled
    ensures { result ≡ settled_from (out_at contactor_a.now word_a seen_a tick) (out_at contactor_b.now word_b seen_b tick) }
{
    let a = Out::of(contactor_a, word_a, seen_a, tick);
    let b = Out::of(contactor_b, word_b, seen_b, tick);
    let power = power(a.kind, b.kind);
    Settled {
        power,
        alarm: alarm(alarm_of(word_a), alarm_of(word_b), power),
        a,
        b,
    }
}
