// What a channel keeps of the inputs so far: the sources' consumers, and what watches the images.
ghost use Rattle.std.specs.Prelude.{◌≡◌, ℕ, ◌<◌, ◌^◌, ◌∷◌, [], ◌++◌, List, length};
ghost use Rattle.lift_model.specs.Records.{Settings, InputData};
ghost use Rattle.lift_model.specs.Trace.{configured, words_of};
ghost use Rattle.lift_model.specs.Wires.{rises};
ghost use Rattle.lift_model.specs.Grant.{facts_of};
ghost use Rattle.lift_base.specs.declared.wires.TheConstants.{RESET};
ghost use Rattle.grant_model.specs.Took.{TookAll};
ghost use Rattle.grant_model.specs.Watched.{Watched};

use crate::facts::{Facts, first_missing};
use crate::sources::Sources;
use crate::watch::Watch;
use lift_base::SOURCES;
use lift_config::Config;
use lift_trace::Input;
use srdo_pair::{Consumer, SetTo};

/// The sources, which of them are configured, and what watches the images.
#[derive(Drop)]
pub struct Senses<C: Consumer> {
    sources: Sources<C>,
    there: [bool; SOURCES],
    watch: Watch,
}

impl<C: SetTo> Senses<C> {
    ghost use Rattle.grant_model.specs.Sensed.{Sensed};

    /// Before the first tick.
    pub fn new(config: &Config) -> Senses<C>
        ensures { Sensed C.stands result config.now [] }
    {
        config.known();
        Senses {
            sources: Sources::new(config),
            there: config.configured(),
            watch: Watch::new(config.disc, config.door),
        }
    }
}

impl<C: Consumer> Senses<C> {
    ghost use Rattle.grant_model.specs.Sensed.{Sensed};

    /// Takes the next input, and gives what the clauses look at.
    pub fn take(&mut self, input: &Input) -> Facts
        requires { (config : Settings) × (inputs : List InputData) × (Sensed C.stands self.old config inputs) × (length inputs < 2 ^ 24) }
        ensures stands { (config : Settings) (inputs : List InputData) → Sensed C.stands self.old config inputs
            → Sensed C.stands self.new config (inputs ++ input.now ∷ []) }
        ensures facts { (config : Settings) (inputs : List InputData) → Sensed C.stands self.old config inputs
            → result ≡ facts_of config (inputs ++ input.now ∷ []) }
    {
        self.sources.take(input);
        self.look(input.a, input.b)
    }

    /// Takes the next tick, in which no frames came and the wires have these words.
    pub fn pass(&mut self, a: u16, b: u16) -> Facts
        requires { (config : Settings) × (inputs : List InputData) × (Sensed C.stands self.old config inputs) × (length inputs < 2 ^ 24) }
        ensures stands { (config : Settings) (inputs : List InputData) (x : InputData) → x.frames ≡ [] → x.words ≡ record { a = a; b = b }
            → Sensed C.stands self.old config inputs → Sensed C.stands self.new config (inputs ++ x ∷ []) }
        ensures facts { (config : Settings) (inputs : List InputData) (x : InputData) → x.frames ≡ [] → x.words ≡ record { a = a; b = b }
            → Sensed C.stands self.old config inputs → result ≡ facts_of config (inputs ++ x ∷ []) }
    {
        self.sources.pass();
        self.look(a, b)
    }

    /// Looks at the image of the tick that the sources took last, whose wires have these words.
    fn look(&mut self, a: u16, b: u16) -> Facts
        ensures stands { (config : Settings) (inputs : List InputData) (x : InputData) → x.words ≡ record { a = a; b = b }
            → TookAll C.stands self.old.sources config (inputs ++ x ∷ []) → self.old.there ≡ configured config
            → Watched self.old.watch config inputs → Sensed C.stands self.new config (inputs ++ x ∷ []) }
        ensures facts { (config : Settings) (inputs : List InputData) (x : InputData) → x.words ≡ record { a = a; b = b }
            → TookAll C.stands self.old.sources config (inputs ++ x ∷ []) → self.old.there ≡ configured config
            → Watched self.old.watch config inputs → result ≡ facts_of config (inputs ++ x ∷ []) }
    {
        let image = self.sources.image(a, b);
        self.watch.tick(&image);
        Facts {
            there: self.there,
            missing: first_missing(&self.there, &image),
            image,
            contact_fault: self.watch.has_contact_fault(),
            pit_latched: self.watch.is_pit_latched(),
            doors_faulty: self.watch.are_doors_faulty(),
        }
    }

    /// Whether the authorised reset rises at the last tick.
    pub fn reset_rises(&self) -> bool
        ensures { (config : Settings) (inputs : List InputData) → Sensed C.stands self.now config inputs
            → result ≡ rises (words_of inputs) RESET (length inputs) }
    {
        self.watch.reset_rises()
    }
}
