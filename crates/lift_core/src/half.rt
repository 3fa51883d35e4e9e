// One side: its channel, its supervisor, its contactor and its words. A healthy side makes its four steps in turn; a failed one stores
// what it likes (own).
ghost use Rattle.std.specs.Prelude.{◌≡◌, ℕ, ◌<◌, ◌≤◌, ◌^◌, true, [], length, take, List};
ghost use Rattle.lift_model.specs.Records.{Settings, InputData};
ghost use Rattle.core_model.specs.Machine.{new_channel, exchanged, is_rest, is_sampled, is_published, is_looked, last_settled, may, does, settled_by};
ghost use Rattle.core_model.specs.Settling.{feedback};

use channel_words::publish_word;
use contactor_pair::{Contactor, Path, Settled, settle};
use core_model::SideStep;
use grant_model::Channel;
use lift_base::Phase;
use lift_trace::Trace;
use std::marker::Model;
use supervisor::{Feedback, Supervisor};

/// One side with its channel.
#[derive(Drop)]
pub struct Half<C: Channel> {
    failed: bool,
    phase: Phase,
    stamp: u32,
    supervisor: Supervisor,
    contactor: Contactor,
    publish: u64,
    command: u64,
    looked: u64,
    seen: u64,
    channel: C,
}

impl<C: Channel> Model for Half<C> {
    ghost use Rattle.std.specs.Prelude.{◌≡◌, ◌<◌, ◌^◌, ◌||◌, nat_lt, true};
    ghost use Rattle.core_model.specs.Machine.{is_rest};
    ghost use Rattle.lift_core.specs.Parts.{HalfData};

    ghost Value = { HalfData C };

    ghost view = { λ h. record {
      side = record {
        failed = h.failed;
        phase = h.phase;
        stamp = h.stamp;
        kept = h.supervisor;
        forced = h.contactor;
        publish = h.publish;
        command = h.command;
        looked = h.looked;
        seen = h.seen;
      };
      channel = h.channel;
    } };

    ghost invariant = { λ h. ((is_rest h.phase || nat_lt 0 h.stamp) ≡ true) × (h.stamp < 2 ^ 24) };
}

fn is_rest(phase: Phase) -> bool
    ensures { result ≡ is_rest phase }
{
    matches!(phase, Phase::Rest)
}

fn is_sampled(phase: Phase) -> bool
    ensures { result ≡ is_sampled phase }
{
    matches!(phase, Phase::Sampled)
}

fn is_published(phase: Phase) -> bool
    ensures { result ≡ is_published phase }
{
    matches!(phase, Phase::Published)
}

fn is_looked(phase: Phase) -> bool
    ensures { result ≡ is_looked phase }
{
    matches!(phase, Phase::Looked)
}

/// The contactors as the present tick settled them.
fn feedback_of(path: &Path) -> Feedback
    ensures a { result.a ≡ feedback (last_settled path.now.settled).a }
    ensures b { result.b ≡ feedback (last_settled path.now.settled).b }
{
    let ticks = path.len();
    if ticks == 0 {
        return Feedback { a: false, b: false };
    }
    let settled = path.get(ticks);
    Feedback {
        a: settled.a.is_closed(),
        b: settled.b.is_closed(),
    }
}

impl<C: Channel> Half<C> {
    /// At rest, healthy, with all words 0.
    pub fn new(channel: C) -> Half<C>
        ensures { result ≡ record { side = new_channel; channel = channel } }
    {
        Half {
            failed: false,
            phase: Phase::Rest,
            stamp: 0,
            supervisor: Supervisor::new(),
            contactor: Contactor::new(),
            publish: 0,
            command: 0,
            looked: 0,
            seen: 0,
            channel,
        }
    }

    /// A new side comes in its place, with this channel: as at the start, but its supervisor is locked.
    pub fn exchange(&mut self, fresh: C)
        ensures { self.new ≡ record { side = exchanged; channel = fresh } }
    {
        *self = Half {
            supervisor: Supervisor::new_locked(),
            ..Half::new(fresh)
        };
    }

    /// Whether the side may make this step after so many ticks.
    pub fn may(&self, ticks: u32, step: SideStep) -> bool
        ensures { result ≡ may self.now.side ticks step }
    {
        match step {
            SideStep::Fail => !self.failed,
            SideStep::Sample => !self.failed && is_rest(self.phase) && self.stamp < ticks,
            SideStep::Publish => !self.failed && is_sampled(self.phase),
            SideStep::Look => !self.failed && is_published(self.phase),
            SideStep::Command => !self.failed && is_looked(self.phase),
            SideStep::RoguePublish(_) | SideStep::RogueCommand(_) | SideStep::RogueContactor(_) => {
                self.failed
            }
        }
    }

    /// Makes a step that it may make: after these inputs and what was settled with them, where this is the other side's publish word.
    pub fn make(&mut self, trace: &Trace, path: &Path, peer: u64, step: SideStep)
        requires few { length trace.now.inputs < 2 ^ 24 }
        requires may { may self.old.side (length trace.now.inputs) step ≡ true }
        requires stands { (config : Settings) × (C.stands self.old.channel config (take self.old.side.stamp trace.now.inputs)) }
        requires past { self.old.side.stamp ≤ length trace.now.inputs }
        ensures side { (config : Settings) → C.stands self.old.channel config (take self.old.side.stamp trace.now.inputs)
            → self.new.side ≡ does config trace.now.inputs path.now.settled peer step self.old.side }
        ensures channel { (config : Settings) → C.stands self.old.channel config (take self.old.side.stamp trace.now.inputs)
            → C.stands self.new.channel config (take self.new.side.stamp trace.now.inputs) }
    {
        match step {
            SideStep::Fail => self.failed = true,
            SideStep::Sample => {
                let n = trace.len();
                self.channel.catch_up(trace, n);
                self.stamp = n;
                self.phase = Phase::Sampled;
            }
            SideStep::Publish => {
                let verdict = self.channel.verdict();
                self.publish = publish_word(self.stamp, &verdict);
                self.phase = Phase::Published;
            }
            SideStep::Look => {
                self.looked = peer;
                self.phase = Phase::Looked;
            }
            SideStep::Command => {
                let own = self.channel.verdict();
                let before = self.channel.before();
                let rise = self.channel.reset_rise();
                let closed = feedback_of(path);
                self.command = self
                    .supervisor
                    .decide(self.stamp, &own, &before, self.looked, closed, rise);
                self.seen = self.looked;
                self.phase = Phase::Rest;
            }
            SideStep::RoguePublish(word) => self.publish = word,
            SideStep::RogueCommand(word) => self.command = word,
            SideStep::RogueContactor(order) => self.contactor.order(order),
        }
    }

    /// Whether the side has failed.
    pub fn failed(&self) -> bool
        ensures { result ≡ self.now.side.failed }
    {
        self.failed
    }

    /// The phase in which the side stands.
    pub fn phase(&self) -> Phase
        ensures { result ≡ self.now.side.phase }
    {
        self.phase
    }

    /// The word that it published last.
    pub fn publish(&self) -> u64
        ensures { result ≡ self.now.side.publish }
    {
        self.publish
    }

    /// The word that it commanded last.
    pub fn command(&self) -> u64
        ensures { result ≡ self.now.side.command }
    {
        self.command
    }

    /// The side's channel.
    pub fn channel(&self) -> &C
        ensures { result.now ≡ self.now.channel }
    {
        &self.channel
    }
}

/// What a tick settles from both sides as they stand.
pub fn settled_by<CA: Channel, CB: Channel>(tick: u32, a: &Half<CA>, b: &Half<CB>) -> Settled
    ensures { result ≡ settled_by a.now.side b.now.side tick }
{
    settle(
        tick,
        &a.contactor,
        a.command,
        a.seen,
        &b.contactor,
        b.command,
        b.seen,
    )
}
