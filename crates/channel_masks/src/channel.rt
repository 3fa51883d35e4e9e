// The channel: the form of both, with counters that count down and the method of masks.
ghost use Rattle.std.specs.Prelude.{◌≡◌, []};

use crate::clauses::verdict;
use grant_model::{Channel, Facts, Method, Steady};
use lift_base::Verdict;
use lift_config::Config;
use lift_trace::Trace;
use srdo_count::CountSource;

/// The method of channel A: contact sets and masks for each mode.
#[derive(Drop)]
struct Masks {}

impl Method for Masks {
    #[inline(never)]
    fn verdict(&self, facts: &Facts) -> Verdict {
        verdict(facts)
    }
}

/// Channel A: contact sets and masks for each mode, and counters that count down. It takes no memory.
#[derive(Drop)]
pub struct MaskChannel {
    steady: Steady<CountSource, Masks>,
}

impl MaskChannel {
    ghost use Rattle.channel_masks.specs.StandsFor.{StandsFor};

    /// A channel for this config that took no inputs.
    pub fn new(config: &Config) -> MaskChannel
        ensures { StandsFor result config.now [] }
    {
        MaskChannel {
            steady: Steady::new(config, Masks {}),
        }
    }
}

impl Channel for MaskChannel {
    ghost use Rattle.channel_masks.specs.StandsFor.{StandsFor};

    ghost stands = { StandsFor };

    // A call of its own, so that a profile shows what the channel costs.
    #[inline(never)]
    fn catch_up(&mut self, trace: &Trace, n: u32) {
        self.steady.catch_up(trace, n);
    }

    fn at(&self) -> u32 {
        self.steady.at()
    }

    fn verdict(&self) -> Verdict {
        self.steady.verdict()
    }

    fn before(&self) -> Verdict {
        self.steady.before()
    }

    fn reset_rise(&self) -> bool {
        self.steady.reset_rise()
    }
}
