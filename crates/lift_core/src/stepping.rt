// The core: both sides, the inputs so far, and what each tick settled. Each step is one event of the machine of two channels (own).
ghost use Rattle.std.specs.Prelude.{◌≡◌, ◌↔◌, ◌<◌, ◌^◌, List, [], ◌∷◌, ◌++◌, length, take, false, not, nat_lt, IfOk, IfErr, OnOk, OnErr, IsErr};
ghost use Rattle.lift_model.specs.Records.{Settings, InputData};
ghost use Rattle.core_model.specs.History.{IsLockedOut, StartsAreOpen};
ghost use Rattle.core_model.specs.Machine as machine;
ghost use Rattle.core_model.specs.Machine.{Step, Exchange, may, enabled, side_of};
ghost use Rattle.lift_core.specs.Parts.{state_of, words_of};
ghost use Rattle.lift_model.specs.Enums.{A, B};

use crate::event::{BadStep, Event};
use crate::half::{Half, settled_by};
use contactor_pair::Path;
use core_model::SideStep;
use grant_model::Channel;
use lift_base::{Phase, Side};
use lift_config::Config;
use lift_io::NoMemory;
use lift_trace::{Input, Trace};
use std::alloc::Global;
use std::marker::Model;

/// The words that the sides stored last, all 0 at the start.
#[derive(Clone, Copy, Debug, PartialEq, Eq)]
pub struct Words {
    pub publish_a: u64,
    pub publish_b: u64,
    pub command_a: u64,
    pub command_b: u64,
}

/// The core, over any two channels.
#[derive(Drop)]
pub struct Core<CA: Channel, CB: Channel> {
    config: Config,
    trace: Trace,
    path: Path,
    a: Half<CA>,
    b: Half<CB>,
}

impl<CA: Channel, CB: Channel> Model for Core<CA, CB> {
    ghost use Rattle.lift_core.specs.Parts.{CoreData};
    ghost use Rattle.lift_core.specs.StandsFor.{Runs};

    ghost Value = { CoreData CA CB };

    ghost view = { λ c. record { config = c.config; trace = c.trace; path = c.path; a = c.a; b = c.b } };

    ghost invariant = { λ c. Runs CA.stands CB.stands (record { config = c.config; trace = c.trace; path = c.path; a = c.a; b = c.b }) };
}

/// How many ticks a run has at most.
fn most_ticks(config: &Config) -> u32
    ensures value { result ≡ config.now.ticks }
    ensures small { result < 2 ^ 24 }
{
    config.ticks
}

impl<CA: Channel, CB: Channel> Core<CA, CB> {
    ghost use Rattle.lift_core.specs.StandsFor.{StandsFor, Promised};
    ghost use Rattle.lift_core.specs.Events.{event_data};

    /// The core before tick 1, with all the memory that a run takes. Both channels are new for this config.
    pub fn open(alloc: Global, config: Config, a: CA, b: CB) -> Result<Core<CA, CB>, NoMemory>
        requires a { CA.stands a config [] }
        requires b { CB.stands b config [] }
        ensures { IfOk result (λ core. StandsFor CA.stands CB.stands core config []) }
    {
        let ticks = most_ticks(&config);
        let trace = Trace::open(alloc, ticks)?;
        let path = Path::open(alloc, ticks)?;
        Ok(Core {
            config,
            trace,
            path,
            a: Half::new(a),
            b: Half::new(b),
        })
    }

    /// One event. `BadStep` exactly where it is not possible, and then nothing changes. Takes no memory.
    pub fn step(&mut self, event: &Event) -> Result<(), BadStep>
        ensures stands { OnOk result ((config : Settings) (events : List machine.Event)
            → StandsFor CA.stands CB.stands self.old config events
            → StandsFor CA.stands CB.stands self.new config (events ++ event_data event.now ∷ [])) }
        ensures bad { IsErr result ↔ (enabled self.old.config (state_of self.old) (event_data event.now) ≡ false) }
        ensures same { OnErr result (self.new ≡ self.old) }
        ensures config { self.new.config ≡ self.old.config }
        ensures promised { (config : Settings) (events : List machine.Event) → StandsFor CA.stands CB.stands self.new config events
            → Promised config events (state_of self.new) }
        ensures locks_out { (config : Settings) (events : List machine.Event) → StandsFor CA.stands CB.stands self.new config events
            → IsLockedOut config events (state_of self.new).path }
        ensures starts_open { (config : Settings) (events : List machine.Event) → StandsFor CA.stands CB.stands self.new config events
            → StartsAreOpen config events }
    {
        self.take(event)
    }

    /// The event Exchange of side A: a new side with this channel, which is new for the config, takes the place of the failed one.
    /// Where the side has not failed, the channel comes back and nothing changes. Takes no memory.
    pub fn exchange_a(&mut self, fresh: CA) -> Result<(), CA>
        requires new { CA.stands fresh self.old.config [] }
        ensures stands { OnOk result ((config : Settings) (events : List machine.Event)
            → StandsFor CA.stands CB.stands self.old config events
            → StandsFor CA.stands CB.stands self.new config (events ++ Exchange A ∷ [])) }
        ensures healthy { IsErr result ↔ (enabled self.old.config (state_of self.old) (Exchange A) ≡ false) }
        ensures back { IfErr result (λ channel. channel ≡ fresh) }
        ensures same { OnErr result (self.new ≡ self.old) }
        ensures config { self.new.config ≡ self.old.config }
        ensures promised { (config : Settings) (events : List machine.Event) → StandsFor CA.stands CB.stands self.new config events
            → Promised config events (state_of self.new) }
        ensures locks_out { (config : Settings) (events : List machine.Event) → StandsFor CA.stands CB.stands self.new config events
            → IsLockedOut config events (state_of self.new).path }
        ensures starts_open { (config : Settings) (events : List machine.Event) → StandsFor CA.stands CB.stands self.new config events
            → StartsAreOpen config events }
    {
        if !self.a.failed() {
            return Err(fresh);
        }
        self.a.exchange(fresh);
        Ok(())
    }

    /// The event Exchange of side B, as `exchange_a`.
    pub fn exchange_b(&mut self, fresh: CB) -> Result<(), CB>
        requires new { CB.stands fresh self.old.config [] }
        ensures stands { OnOk result ((config : Settings) (events : List machine.Event)
            → StandsFor CA.stands CB.stands self.old config events
            → StandsFor CA.stands CB.stands self.new config (events ++ Exchange B ∷ [])) }
        ensures healthy { IsErr result ↔ (enabled self.old.config (state_of self.old) (Exchange B) ≡ false) }
        ensures back { IfErr result (λ channel. channel ≡ fresh) }
        ensures same { OnErr result (self.new ≡ self.old) }
        ensures config { self.new.config ≡ self.old.config }
        ensures promised { (config : Settings) (events : List machine.Event) → StandsFor CA.stands CB.stands self.new config events
            → Promised config events (state_of self.new) }
        ensures locks_out { (config : Settings) (events : List machine.Event) → StandsFor CA.stands CB.stands self.new config events
            → IsLockedOut config events (state_of self.new).path }
        ensures starts_open { (config : Settings) (events : List machine.Event) → StandsFor CA.stands CB.stands self.new config events
            → StartsAreOpen config events }
    {
        if !self.b.failed() {
            return Err(fresh);
        }
        self.b.exchange(fresh);
        Ok(())
    }

    fn take(&mut self, event: &Event) -> Result<(), BadStep>
        ensures stands { OnOk result ((config : Settings) (events : List machine.Event)
            → StandsFor CA.stands CB.stands self.old config events
            → StandsFor CA.stands CB.stands self.new config (events ++ event_data event.now ∷ [])) }
        ensures bad { IsErr result ↔ (enabled self.old.config (state_of self.old) (event_data event.now) ≡ false) }
        ensures same { OnErr result (self.new ≡ self.old) }
        ensures config { self.new.config ≡ self.old.config }
    {
        match event {
            Event::Tick(input) => self.settle(input),
            Event::Fail(side) => self.make(*side, SideStep::Fail),
            Event::Sample(side) => self.make(*side, SideStep::Sample),
            Event::Publish(side) => self.make(*side, SideStep::Publish),
            Event::Look(side) => self.make(*side, SideStep::Look),
            Event::Command(side) => self.make(*side, SideStep::Command),
            Event::RoguePublish(side, word) => self.make(*side, SideStep::RoguePublish(*word)),
            Event::RogueCommand(side, word) => self.make(*side, SideStep::RogueCommand(*word)),
            Event::RogueContactor(side, order) => self.make(
                *side,
                SideStep::RogueContactor(*order),
            ),
        }
    }

    /// A tick: it is settled from the words and contactors as they stand, and then its input joins the trace. Refused as by `step`.
    pub fn settle(&mut self, input: &Input) -> Result<(), BadStep>
        ensures stands { OnOk result ((config : Settings) (events : List machine.Event)
            → StandsFor CA.stands CB.stands self.old config events
            → StandsFor CA.stands CB.stands self.new config (events ++ machine.Tick input.now ∷ [])) }
        ensures bad { IsErr result ↔ (enabled self.old.config (state_of self.old) (machine.Tick input.now) ≡ false) }
        ensures same { OnErr result (self.new ≡ self.old) }
        ensures config { self.new.config ≡ self.old.config }
    {
        if self.is_full() {
            return Err(BadStep);
        }
        let settled = settled_by(self.trace.len() + 1, &self.a, &self.b);
        self.path.push(settled);
        self.trace.push_copy(input);
        Ok(())
    }

    /// All ticks of the config came.
    fn is_full(&self) -> bool
        ensures { result ≡ not (nat_lt (length self.now.trace.inputs) self.now.config.ticks) }
    {
        self.trace.len() >= self.config.ticks
    }

    /// A step of one side. Refused as by `step`.
    pub fn make(&mut self, side: Side, step: SideStep) -> Result<(), BadStep>
        ensures stands { OnOk result ((config : Settings) (events : List machine.Event)
            → StandsFor CA.stands CB.stands self.old config events
            → StandsFor CA.stands CB.stands self.new config (events ++ Step side step ∷ [])) }
        ensures bad { IsErr result ↔ (may (side_of side (state_of self.old)) (length self.old.trace.inputs) step ≡ false) }
        ensures same { OnErr result (self.new ≡ self.old) }
        ensures config { self.new.config ≡ self.old.config }
    {
        match side {
            Side::A => self.make_a(step),
            Side::B => self.make_b(step),
        }
    }

    /// A step of side A.
    fn make_a(&mut self, step: SideStep) -> Result<(), BadStep>
        ensures stands { OnOk result ((config : Settings) (events : List machine.Event)
            → StandsFor CA.stands CB.stands self.old config events
            → StandsFor CA.stands CB.stands self.new config (events ++ Step A step ∷ [])) }
        ensures bad { IsErr result ↔ (may self.old.a.side (length self.old.trace.inputs) step ≡ false) }
        ensures same { OnErr result (self.new ≡ self.old) }
        ensures config { self.new.config ≡ self.old.config }
    {
        if !self.a.may(self.trace.len(), step) {
            return Err(BadStep);
        }
        let peer = self.b.publish();
        self.a.make(&self.trace, &self.path, peer, step);
        Ok(())
    }

    /// A step of side B.
    fn make_b(&mut self, step: SideStep) -> Result<(), BadStep>
        ensures stands { OnOk result ((config : Settings) (events : List machine.Event)
            → StandsFor CA.stands CB.stands self.old config events
            → StandsFor CA.stands CB.stands self.new config (events ++ Step B step ∷ [])) }
        ensures bad { IsErr result ↔ (may self.old.b.side (length self.old.trace.inputs) step ≡ false) }
        ensures same { OnErr result (self.new ≡ self.old) }
        ensures config { self.new.config ≡ self.old.config }
    {
        if !self.b.may(self.trace.len(), step) {
            return Err(BadStep);
        }
        let peer = self.a.publish();
        self.b.make(&self.trace, &self.path, peer, step);
        Ok(())
    }

    /// How many ticks came.
    pub fn tick(&self) -> u32
        ensures { result ≡ length (state_of self.now).trace }
    {
        self.trace.len()
    }

    /// Whether this side has failed.
    pub fn failed(&self, side: Side) -> bool
        ensures { result ≡ (side_of side (state_of self.now)).failed }
    {
        match side {
            Side::A => self.a.failed(),
            Side::B => self.b.failed(),
        }
    }

    /// The last step that the side made of its round.
    pub fn phase(&self, side: Side) -> Phase
        ensures { result ≡ (side_of side (state_of self.now)).phase }
    {
        match side {
            Side::A => self.a.phase(),
            Side::B => self.b.phase(),
        }
    }

    /// The words as the sides stored them last.
    pub fn words(&self) -> Words
        ensures { result ≡ words_of (state_of self.now) }
    {
        Words {
            publish_a: self.a.publish(),
            publish_b: self.b.publish(),
            command_a: self.a.command(),
            command_b: self.b.command(),
        }
    }

    /// What each tick settled.
    pub fn path(&self) -> &Path
        ensures path { result.now ≡ self.now.path }
        ensures settled { result.now.settled ≡ (state_of self.now).path }
    {
        &self.path
    }

    /// The same, where the core is done with.
    pub fn into_path(self) -> Path
        ensures { result.settled ≡ (state_of self).path }
    {
        self.path
    }

    /// The channel of side A. It took the inputs up to the side's last Sample since its last exchange.
    pub fn channel_a(&self) -> &CA
        ensures { (config : Settings) (events : List machine.Event) → StandsFor CA.stands CB.stands self.now config events
            → CA.stands result.now config (take (state_of self.now).a.stamp (state_of self.now).trace) }
    {
        self.a.channel()
    }

    /// The channel of side B. It took the inputs up to the side's last Sample since its last exchange.
    pub fn channel_b(&self) -> &CB
        ensures { (config : Settings) (events : List machine.Event) → StandsFor CA.stands CB.stands self.now config events
            → CB.stands result.now config (take (state_of self.now).b.stamp (state_of self.now).trace) }
    {
        self.b.channel()
    }
}
