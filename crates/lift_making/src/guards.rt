// The two guards of the levelling gate: one has the channel and the consumers of side A, the other those of side B (own).
ghost use Rattle.std.specs.Prelude.{◌≡◌, ◌≤◌, [], length};
ghost use Rattle.lift_model.specs.Records.{Settings};
ghost use Rattle.core_model.specs.Supplies.{supplies_of};
ghost use Rattle.level_guard.specs.StandsFor.{StandsFor};

use channel_masks::MaskChannel;
use channel_walker::WalkerChannel;
use contactor_pair::Path;
use level_guard::{LevelGuard, Supplies, give};
use lift_config::Config;
use lift_trace::Trace;
use replay_engine::Exchangeable;
use srdo_count::CountSource;
use srdo_deadline::DeadlineSource;
use srdo_pair::SetTo;

// A guard before tick 1, with a channel and consumers that are new for this config.
fn guard_for<H: Exchangeable, C: SetTo>(config: &Config) -> LevelGuard<H, C>
    ensures { StandsFor H.stands C.stands result config.now [] }
{
    LevelGuard::over(config, H::anew(config))
}

/// A guard over sets and consumers that count down, and one over lists and consumers that keep tick numbers.
#[derive(Drop)]
pub struct Guards {
    a: LevelGuard<MaskChannel, CountSource>,
    b: LevelGuard<WalkerChannel, DeadlineSource>,
}

impl Guards {
    ghost use Rattle.lift_making.specs.Guarding.{Guard};

    /// Both before tick 1.
    pub fn new(config: &Config) -> Guards
        ensures { Guard result config.now [] }
    {
        Guards {
            a: guard_for(config),
            b: guard_for(config),
        }
    }

    /// What is given at each tick of a path, by guards that took none of the inputs. It takes no memory.
    pub fn give(&mut self, trace: &Trace, path: &Path, supplies: &mut Supplies)
        requires guards { (config : Settings) × Guard self.old config [] }
        requires inputs { length path.now.settled ≤ length trace.now.inputs }
        requires empty { supplies.old.given ≡ [] }
        requires room { length path.now.settled ≤ supplies.old.room }
        ensures { (config : Settings) → Guard self.old config []
            → supplies.new.given ≡ supplies_of config trace.now.inputs path.now.settled }
    {
        give(&mut self.a, &mut self.b, trace, path, supplies);
    }
}
