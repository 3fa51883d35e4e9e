// A guard follows the inputs tick by tick, in constant work: it keeps a channel, the consumers of the doors and of the platform, whether
// the last tick was in the zone, and what it answers (own).
ghost use Rattle.std.specs.Prelude.{◌≡◌, ℕ, ◌+◌, ◌<◌, ◌∷◌, [], ◌++◌, List, length, take, get_or, None};
ghost use Rattle.lift_model.specs.Levelling.{has_moved, may_level};
ghost use Rattle.lift_model.specs.Records.{Settings, InputData};
ghost use Rattle.lift_model.specs.Trace.{configured, image_at_end};
ghost use Rattle.grant_model.specs.Took.{Took, TookIf};
ghost use Rattle.level_guard.specs.Sees.{Sees};

use crate::seen::{is_in_zone, leaves, may_level};
use chain_table::{Image, latch_after};
use grant_model::{Channel, sources};
use lift_base::SOURCES;
use lift_config::Config;
use lift_trace::Trace;
use srdo_pair::{Consumer, SetTo};

/// What the guard looks at in the tick that these consumers took last, whose wires have these words. The other sources are left out.
fn seen<C: Consumer>(doors: &C, platform: &Option<C>, a: u16, b: u16) -> Image
    ensures { (config : Settings) (inputs : List InputData) (x : InputData) → x.words ≡ record { a = a; b = b }
        → Took C.stands doors.now config config.doors (inputs ++ x ∷ [])
        → TookIf C.stands platform.now config config.platform (inputs ++ x ∷ [])
        → Sees result (image_at_end config (inputs ++ x ∷ [])) }
{
    Image {
        values: [
            None,
            None,
            None,
            doors.value(),
            None,
            sources::value_if(platform),
        ],
        a,
        b,
    }
}

/// Watches levelling and unintended movement over one channel and consumers of its own. It takes no memory.
#[derive(Drop)]
pub struct LevelGuard<H: Channel, C: Consumer> {
    channel: H,
    doors: C,
    platform: Option<C>,
    there: [bool; SOURCES],
    in_zone: bool,
    level: bool,
    moved: bool,
}

impl<H: Channel, C: SetTo> LevelGuard<H, C> {
    ghost use Rattle.level_guard.specs.StandsFor.{StandsFor};

    /// A guard before tick 1 with consumers of its own. The channel is new for this config.
    pub fn over(config: &Config, channel: H) -> LevelGuard<H, C>
        requires { H.stands channel config.now [] }
        ensures { StandsFor H.stands C.stands result config.now [] }
    {
        let doors = sources::source(config, config.doors);
        let platform = sources::source_if(config, config.platform);
        LevelGuard::new(config, channel, doors, platform)
    }
}

impl<H: Channel, C: Consumer> LevelGuard<H, C> {
    ghost use Rattle.level_guard.specs.StandsFor.{Parts, StandsFor, Told};

    /// A guard before tick 1. The channel and the consumers are new for this config; there is one of the platform exactly where the config
    /// names it.
    pub fn new(config: &Config, channel: H, doors: C, platform: Option<C>) -> LevelGuard<H, C>
        requires channel { H.stands channel config.now [] }
        requires doors { Took C.stands doors config.now config.now.doors [] }
        requires platform { TookIf C.stands platform config.now config.now.platform [] }
        ensures { StandsFor H.stands C.stands result config.now [] }
    {
        LevelGuard {
            channel,
            doors,
            platform,
            there: config.configured(),
            in_zone: false,
            level: false,
            moved: false,
        }
    }

    /// Takes the next input. The trace begins with the inputs that were taken already, and has one more.
    pub fn tick(&mut self, trace: &Trace)
        requires { (config : Settings) × (at : ℕ) × (at < length trace.now.inputs)
            × StandsFor H.stands C.stands self.old config (take at trace.now.inputs) }
        ensures { (config : Settings) (at : ℕ) → at < length trace.now.inputs
            → StandsFor H.stands C.stands self.old config (take at trace.now.inputs)
            → StandsFor H.stands C.stands self.new config (take (at + 1) trace.now.inputs) }
    {
        // A trace is shorter than 2^24, which is what the consumers count to.
        let _short = trace.len();
        let n = self.channel.at() + 1;
        let input = trace.get(n);
        self.channel.catch_up(trace, n);
        sources::take(&mut self.doors, input);
        sources::take_if(&mut self.platform, input);
        self.judge(input.a, input.b);
    }

    /// Judges the tick that the parts took last, whose wires have these words.
    fn judge(&mut self, a: u16, b: u16)
        ensures { (config : Settings) (inputs : List InputData) (x : InputData) → x.words ≡ record { a = a; b = b }
            → Parts H.stands C.stands self.old config (inputs ++ x ∷ []) → Told self.old config inputs
            → StandsFor H.stands C.stands self.new config (inputs ++ x ∷ []) }
    {
        let image = seen(&self.doors, &self.platform, a, b);
        let verdict = self.channel.verdict();
        let leaves = leaves(self.in_zone, &image, &verdict);
        self.moved = latch_after(self.moved, leaves, self.channel.reset_rise());
        self.in_zone = is_in_zone(&image);
        self.level = may_level(&image, &self.there, &verdict, self.moved);
    }

    /// How many inputs it took.
    pub fn at(&self) -> u32
        ensures { (config : Settings) (inputs : List InputData) → StandsFor H.stands C.stands self.now config inputs
            → result ≡ length inputs }
    {
        self.channel.at()
    }

    /// Whether levelling with open doors is permitted at the last tick.
    pub fn level(&self) -> bool
        ensures { (config : Settings) (inputs : List InputData) → StandsFor H.stands C.stands self.now config inputs
            → result ≡ may_level config inputs }
    {
        self.level
    }

    /// Whether an unintended movement stands at the last tick.
    pub fn moved(&self) -> bool
        ensures { (config : Settings) (inputs : List InputData) → StandsFor H.stands C.stands self.now config inputs
            → result ≡ has_moved config inputs }
    {
        self.moved
    }
}
