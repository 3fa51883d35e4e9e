// The decision. First the counts are renewed: seen words that did not match in a row, rounds in which a contactor was open although a
// kind was commanded, rounds in which one was closed although none was. Then the first row that applies decides (own).
ghost use Rattle.std.specs.Prelude.{◌≡◌, ◌<◌, ◌≤◌, ◌^◌, false, not, ◌&&◌, ◌||◌};
ghost use Rattle.core_model.specs.Words.{command_word, matches, bit_of, is_off};
ghost use Rattle.core_model.specs.Decision.{new_kept, new_locked, counted, decided};
ghost use Rattle.supervisor.specs.Round.{told};

use crate::feedback::Feedback;
use channel_words::{command_word, publish_word};
use core_model::{CHANGEOVER, COMPARE, CONTACTOR_CLOSED, CONTACTOR_OPEN, LOCKED, TOO_MANY};
use lift_base::{Kind, Verdict};
use std::marker::Model;

/// What a supervisor keeps from round to round.
#[derive(Drop)]
pub struct Supervisor {
    /// The kind of the last command.
    last: Kind,
    misses: u8,
    locked: bool,
    on_open: u8,
    off_closed: u8,
}

impl Model for Supervisor {
    ghost use Rattle.std.specs.Prelude.{◌≤◌};
    ghost use Rattle.core_model.specs.Decision.{Kept};

    ghost Value = { Kept };

    ghost view = { λ s. record { last = s.last; misses = s.misses; locked = s.locked; on_open = s.on_open; off_closed = s.off_closed } };

    ghost invariant = { λ s. (s.misses ≤ 3) × (s.on_open ≤ 3) × (s.off_closed ≤ 3) };
}

/// The seen word is the whole publish word of the own verdict at its tick, or of the one before at the tick before.
fn does_match(n: u32, own: &Verdict, before: &Verdict, seen: u64) -> bool
    requires first { 1 ≤ n }
    requires small { n < 2 ^ 24 }
    ensures { result ≡ matches n own.now before.now seen }
{
    seen == publish_word(n, own) || seen == publish_word(n - 1, before)
}

/// One more where it holds, at most three, and else none.
fn counted(holds: bool, count: u8) -> u8
    requires { count ≤ 3 }
    ensures count { result ≡ counted holds count }
    ensures few { result ≤ 3 }
{
    if !holds {
        0
    } else if count < TOO_MANY {
        count + 1
    } else {
        TOO_MANY
    }
}

/// The command Off, for a reason of the supervisor.
fn off(n: u32, reason: u8) -> u64
    requires stamp { n < 2 ^ 24 }
    requires reason { reason < 64 }
    ensures { result ≡ command_word (record { stamp = n; kind = Kind.Off; reason = reason; detail = 0; alarm = false }) }
{
    command_word(n, Kind::Off, reason, 0, false)
}

impl Supervisor {
    /// A supervisor that commanded nothing yet.
    pub fn new() -> Supervisor
        ensures { result ≡ new_kept }
    {
        Supervisor {
            last: Kind::Off,
            misses: 0,
            locked: false,
            on_open: 0,
            off_closed: 0,
        }
    }

    /// The supervisor of a side that was put in the place of a failed one: it is locked until a reset.
    pub fn new_locked() -> Supervisor
        ensures { result ≡ new_locked }
    {
        Supervisor {
            locked: true,
            ..Supervisor::new()
        }
    }

    /// Renews the counts, where the seen word matched or not and the contactors reported this.
    fn renew(&mut self, matched: bool, feedback: Feedback)
        ensures { self.new ≡ record self.old {
          misses = counted (not matched) self.old.misses;
          on_open = counted (not (is_off self.old.last) && (not feedback.a || not feedback.b)) self.old.on_open;
          off_closed = counted (is_off self.old.last && (feedback.a || feedback.b)) self.old.off_closed;
        } }
    {
        let was_off = self.last == Kind::Off;
        self.misses = counted(!matched, self.misses);
        self.on_open = counted(!was_off && feedback.is_open(), self.on_open);
        self.off_closed = counted(was_off && feedback.is_closed(), self.off_closed);
    }

    /// It is free again, and begins to count anew.
    fn unlock(&mut self, matched: bool)
        ensures { self.new ≡ record self.old { locked = false; misses = bit_of (not matched); on_open = 0; off_closed = 0 } }
    {
        self.locked = false;
        self.misses = u8::from(!matched);
        self.on_open = 0;
        self.off_closed = 0;
    }

    /// The command word of a round: of its tick `n`, from 1, whose verdict is `own`, `before` being the one of the tick before; with
    /// the other side's word as it was seen, the contactors as they are at the present tick, and whether the reset rose at `n`.
    pub fn decide(
        &mut self,
        n: u32,
        own: &Verdict,
        before: &Verdict,
        seen: u64,
        feedback: Feedback,
        reset_rise: bool,
    ) -> u64
        requires first { 1 ≤ n }
        requires small { n < 2 ^ 24 }
        ensures command { result ≡ command_word (decided self.old (told n own.now before.now seen feedback reset_rise)).command }
        ensures kept { self.new ≡ (decided self.old (told n own.now before.now seen feedback reset_rise)).kept }
    {
        let matched = does_match(n, own, before, seen);
        let last = self.last;
        self.renew(matched, feedback);
        self.last = Kind::Off;
        if self.locked && reset_rise && !feedback.is_closed() {
            self.unlock(matched);
            return off(n, LOCKED);
        }
        if self.locked {
            return off(n, LOCKED);
        }
        if self.misses == TOO_MANY || self.off_closed == TOO_MANY {
            self.locked = true;
            return off(n, LOCKED);
        }
        if own.kind == Kind::Off {
            return command_word(n, Kind::Off, own.clause, own.detail, false);
        }
        if !matched {
            return off(n, COMPARE);
        }
        if self.on_open == TOO_MANY {
            self.on_open = 0;
            return off(n, CONTACTOR_OPEN);
        }
        if last == Kind::Off && feedback.is_closed() {
            return off(n, CONTACTOR_CLOSED);
        }
        if last != Kind::Off && last != own.kind {
            return off(n, CHANGEOVER);
        }
        self.last = own.kind;
        command_word(n, own.kind, 0, 0, own.bypass)
    }

    /// Whether it holds its contactor Off until a reset.
    pub fn locked(&self) -> bool
        ensures { result ≡ self.now.locked }
    {
        self.locked
    }

    /// How many seen words in a row did not match, at most 3.
    pub fn misses(&self) -> u8
        ensures misses { result ≡ self.now.misses }
        ensures few { result ≤ 3 }
    {
        self.misses
    }
}
