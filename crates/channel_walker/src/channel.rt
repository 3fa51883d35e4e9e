// The channel: the form of both, with deadlines and the method of the walker.
ghost use Rattle.std.specs.Prelude.{◌≡◌, []};

use crate::verdicts::verdict;
use grant_model::{Channel, Facts, Method, Steady};
use lift_base::Verdict;
use lift_config::Config;
use lift_trace::Trace;
use srdo_deadline::DeadlineSource;

/// The method of channel B: it walks the clause list and the contact table.
#[derive(Drop)]
struct Walker {}

impl Method for Walker {
    #[inline(never)]
    fn verdict(&self, facts: &Facts) -> Verdict {
        verdict(facts)
    }
}

/// Channel B: it walks the clause list and the contact table, and keeps the sources by deadlines (own). It takes no memory.
#[derive(Drop)]
pub struct WalkerChannel {
    steady: Steady<DeadlineSource, Walker>,
}

impl WalkerChannel {
    ghost use Rattle.channel_walker.specs.StandsFor.{StandsFor};

    /// A channel for this config that took no input.
    pub fn new(config: &Config) -> WalkerChannel
        ensures { StandsFor result config.now [] }
    {
        WalkerChannel {
            steady: Steady::new(config, Walker {}),
        }
    }
}

impl Channel for WalkerChannel {
    ghost use Rattle.channel_walker.specs.StandsFor.{StandsFor};

    ghost stands = { StandsFor };

    // A call of its own, so that a profile shows what the channel costs.
    #[inline(never)]
    fn catch_up(&mut self, trace: &Trace, n: u32) {
        self.steady.catch_up(trace, n);
    }

    fn at(&self) -> u32 {
        self.steady.at()
    }

    fn verdict(&self) -> Verdict {
        self.steady.verdict()
    }

    fn before(&self) -> Verdict {
        self.steady.before()
    }

    fn reset_rise(&self) -> bool {
        self.steady.reset_rise()
    }
}
