// One contactor. It follows its side's command word, which counts at its own tick and for two ticks more; a failed side may force it (own).
ghost use Rattle.std.specs.Prelude.{◌≡◌, ◌<◌, ◌^◌, None, is_some};
ghost use Rattle.core_model.specs.Settling.{effective, output, ordered};

use channel_words::{kind_of, stamp_of};
use core_model::COMMAND_AGE;
use lift_base::{Kind, Override};
use std::marker::Model;

/// The kind that a command word still asks for at a tick: Off where its stamp is later, or more than two ticks ago.
pub fn effective(word: u64, tick: u32) -> Kind
    ensures { result ≡ effective word tick }
{
    let stamp = stamp_of(word);
    if stamp <= tick && tick <= stamp + COMMAND_AGE {
        kind_of(word)
    } else {
        Kind::Off
    }
}

/// A contactor. A contract sees it as the kind that is forced on it.
#[derive(Clone, Copy, Debug, PartialEq, Eq)]
pub struct Contactor {
    forced: Option<Kind>,
}

impl Model for Contactor {
    ghost use Rattle.std.specs.Prelude.{Option};
    ghost use Rattle.lift_model.specs.Enums.{Kind};

    ghost Value = { Option Kind };

    ghost view = { λ c. c.forced };

    ghost inverse = { λ forced. record { forced = forced } };
}

impl Contactor {
    /// One that follows its word.
    pub fn new() -> Contactor
        ensures { result ≡ None }
    {
        Contactor { forced: None }
    }

    /// Takes an order: `Keep` changes nothing, `Follow` lets it follow its word, `Force` gives that kind until the next order.
    pub fn order(&mut self, order: Override)
        ensures { self.new ≡ ordered self.old order }
    {
        match order {
            Override::Keep => {}
            Override::Follow => self.forced = None,
            Override::Force(kind) => self.forced = Some(kind),
        }
    }

    /// What it gives at a tick, where its side's command word is this.
    pub fn output(&self, word: u64, tick: u32) -> Kind
        ensures { result ≡ output self.now word tick }
    {
        match self.forced {
            Some(kind) => kind,
            None => effective(word, tick),
        }
    }

    /// Whether a kind is forced on it.
    pub fn is_forced(&self) -> bool
        ensures { result ≡ is_some self.now }
    {
        self.forced.is_some()
    }
}
