// What the clauses see at a tick and what they say, followed tick by tick (own).
ghost use Rattle.std.specs.Prelude.{◌≡◌, ◌+◌, ◌<◌, [], length, take};
ghost use Rattle.lift_model.specs.Records.{Settings};
ghost use Rattle.ride_lanes.specs.Moments.{sight_after};

use channel_masks::MaskChannel;
use grant_model::{Channel, Facts, Senses};
use lift_base::Verdict;
use lift_config::Config;
use lift_trace::Trace;
use srdo_count::CountSource;

/// What the clauses see at a tick, and what they say at it and said at the tick before.
#[derive(Clone, Copy, Debug)]
pub struct Sight {
    pub facts: Facts,
    pub verdict: Verdict,
    pub before: Verdict,
}

/// Follows the inputs of a script.
#[derive(Drop)]
pub struct Watcher {
    senses: Senses<CountSource>,
    channel: MaskChannel,
}

impl Watcher {
    ghost use Rattle.ride_lanes.specs.Watches.{Watches};

    /// Before the first tick.
    pub fn new(config: &Config) -> Watcher
        ensures { Watches result config.now [] }
    {
        Watcher {
            senses: Senses::new(config),
            channel: MaskChannel::new(config),
        }
    }

    /// Takes the tick after so many. The trace begins with the inputs that were taken already.
    pub fn take(&mut self, trace: &Trace, at: u32) -> Sight
        requires stands { (config : Settings) × Watches self.old config (take at trace.now.inputs) }
        requires last { at < length trace.now.inputs }
        ensures stands { (config : Settings) → Watches self.old config (take at trace.now.inputs)
            → Watches self.new config (take (at + 1) trace.now.inputs) }
        ensures sight { (config : Settings) → Watches self.old config (take at trace.now.inputs)
            → result ≡ sight_after config (take (at + 1) trace.now.inputs) }
    {
        // A trace is shorter than 2^24, which is what the senses count to.
        let _short = trace.len();
        let facts = self.senses.take(trace.get(at + 1));
        self.channel.catch_up(trace, at + 1);
        Sight {
            facts,
            verdict: self.channel.verdict(),
            before: self.channel.before(),
        }
    }
}
