// A consumer for each source that is configured, which takes the frames of each tick (EN 50325-5).
ghost use Rattle.std.specs.Prelude.{◌≡◌, ℕ, ◌<◌, ◌≤◌, ◌^◌, ◌∷◌, [], ◌++◌, List, Option, length, option_and_then};
ghost use Rattle.lift_model.specs.Records.{Settings, InputData};
ghost use Rattle.lift_model.specs.Trace.{value_at_end, image_at_end};
ghost use Rattle.grant_model.specs.Took.{Took, TookIf};

use chain_table::Image;
use lift_config::Config;
use lift_trace::Input;
use srdo_pair::{Consumer, SetTo, take_tick};

/// The consumers of the sources. A source that the head may leave out has one only where the head names it.
#[derive(Drop)]
pub struct Sources<C: Consumer> {
    roof: C,
    pit: C,
    car: Option<C>,
    doors: C,
    panel: C,
    platform: Option<C>,
}

/// A new consumer for the source with this plain identifier.
pub fn source<C: SetTo>(config: &Config, plain: u16) -> C
    ensures { Took C.stands result config.now plain [] }
{
    config.known();
    C::set_to(plain, config.sct, config.srvt)
}

/// The same for a source that may not be there.
pub fn source_if<C: SetTo>(config: &Config, plain: Option<u16>) -> Option<C>
    ensures { TookIf C.stands result config.now plain [] }
{
    match plain {
        Some(plain) => Some(source(config, plain)),
        None => None,
    }
}

/// Takes the frames of the next tick. The consumer passes by what isn't of its source.
pub fn take<C: Consumer>(source: &mut C, input: &Input)
    requires { (config : Settings) × (plain : ℕ) × (inputs : List InputData) × (Took C.stands source.old config plain inputs)
        × (length inputs < 2 ^ 24) }
    ensures { (config : Settings) (plain : ℕ) (inputs : List InputData) → Took C.stands source.old config plain inputs
        → Took C.stands source.new config plain (inputs ++ input.now ∷ []) }
{
    take_tick(source, input.frames.as_slice());
}

/// The same of a source that may not be there.
pub fn take_if<C: Consumer>(source: &mut Option<C>, input: &Input)
    requires { (config : Settings) × (plain : Option ℕ) × (inputs : List InputData) × (TookIf C.stands source.old config plain inputs)
        × (length inputs < 2 ^ 24) }
    ensures { (config : Settings) (plain : Option ℕ) (inputs : List InputData) → TookIf C.stands source.old config plain inputs
        → TookIf C.stands source.new config plain (inputs ++ input.now ∷ []) }
{
    if let Some(source) = source {
        take(source, input);
    }
}

/// A tick without frames.
fn pass<C: Consumer>(source: &mut C)
    requires { (config : Settings) × (plain : ℕ) × (inputs : List InputData) × (Took C.stands source.old config plain inputs)
        × (length inputs < 2 ^ 24) }
    ensures { (config : Settings) (plain : ℕ) (inputs : List InputData) (x : InputData) → x.frames ≡ []
        → Took C.stands source.old config plain inputs → Took C.stands source.new config plain (inputs ++ x ∷ []) }
{
    source.end_tick();
}

fn pass_if<C: Consumer>(source: &mut Option<C>)
    requires { (config : Settings) × (plain : Option ℕ) × (inputs : List InputData) × (TookIf C.stands source.old config plain inputs)
        × (length inputs < 2 ^ 24) }
    ensures { (config : Settings) (plain : Option ℕ) (inputs : List InputData) (x : InputData) → x.frames ≡ []
        → TookIf C.stands source.old config plain inputs → TookIf C.stands source.new config plain (inputs ++ x ∷ []) }
{
    if let Some(source) = source {
        pass(source);
    }
}

/// The value at the last tick of a source that may not be there. `None` where it has none, or is not there.
pub fn value_if<C: Consumer>(source: &Option<C>) -> Option<u16>
    ensures { (config : Settings) (plain : Option ℕ) (inputs : List InputData) → TookIf C.stands source.now config plain inputs
        → result ≡ option_and_then (λ id. value_at_end config id inputs) plain }
{
    match source {
        Some(source) => source.value(),
        None => None,
    }
}

impl<C: SetTo> Sources<C> {
    ghost use Rattle.grant_model.specs.Took.{TookAll};

    /// Before the first tick.
    pub fn new(config: &Config) -> Sources<C>
        ensures { TookAll C.stands result config.now [] }
    {
        Sources {
            roof: source(config, config.roof),
            pit: source(config, config.pit),
            car: source_if(config, config.car),
            doors: source(config, config.doors),
            panel: source(config, config.panel),
            platform: source_if(config, config.platform),
        }
    }
}

impl<C: Consumer> Sources<C> {
    ghost use Rattle.grant_model.specs.Took.{TookAll};

    /// Takes the frames of the next tick. Each consumer passes by what isn't of its source.
    pub fn take(&mut self, input: &Input)
        requires { (config : Settings) × (inputs : List InputData) × (TookAll C.stands self.old config inputs) × (length inputs < 2 ^ 24) }
        ensures { (config : Settings) (inputs : List InputData) → TookAll C.stands self.old config inputs
            → TookAll C.stands self.new config (inputs ++ input.now ∷ []) }
    {
        take(&mut self.roof, input);
        take(&mut self.pit, input);
        take_if(&mut self.car, input);
        take(&mut self.doors, input);
        take(&mut self.panel, input);
        take_if(&mut self.platform, input);
    }

    /// Takes the next tick, in which no frames came.
    pub fn pass(&mut self)
        requires { (config : Settings) × (inputs : List InputData) × (TookAll C.stands self.old config inputs) × (length inputs < 2 ^ 24) }
        ensures { (config : Settings) (inputs : List InputData) (x : InputData) → x.frames ≡ [] → TookAll C.stands self.old config inputs
            → TookAll C.stands self.new config (inputs ++ x ∷ []) }
    {
        pass(&mut self.roof);
        pass(&mut self.pit);
        pass_if(&mut self.car);
        pass(&mut self.doors);
        pass(&mut self.panel);
        pass_if(&mut self.platform);
    }

    /// The image of the last tick, whose wires have these words.
    pub fn image(&self, a: u16, b: u16) -> Image
        ensures values { (config : Settings) (inputs : List InputData) → TookAll C.stands self.now config inputs
            → result.values ≡ (image_at_end config inputs).values }
        ensures words { result.words ≡ record { a = a; b = b } }
    {
        Image {
            values: [
                self.roof.value(),
                self.pit.value(),
                value_if(&self.car),
                self.doors.value(),
                self.panel.value(),
                value_if(&self.platform),
            ],
            a,
            b,
        }
    }
}
