// What an audit keeps of all sources while their frames come (own).
ghost use Rattle.std.specs.Prelude.{◌≡◌, ℕ, ◌+◌, ◌∷◌, ◌++◌, [], nat_le, if◌then◌else◌, List, map, get_or, take, IfSome, ◌<◌};
ghost use Rattle.lift_base.specs.declared.TheConstants.{SOURCES};
ghost use Rattle.lift_model.specs.Bits.{or_else};
ghost use Rattle.lift_model.specs.Live.{Timed};
ghost use Rattle.lift_model.specs.Records.{Settings, InputData};
ghost use Rattle.lift_model.specs.Trace.{frames_from};
ghost use Rattle.lift_model.specs.Truth.{true_word};
ghost use Rattle.node_sim.specs.Audited.{at_tick, first_wrong_in, greatest, oldest_at, wrong_at, wrong_by};
ghost use Rattle.node_sim.specs.Hearing.{first_of};

use crate::listener::{Listener, age_if, listener_if, take_if};
use grant_model::pairs::{Asked, Came};
use lift_base::{CAR, DOORS, PANEL, PIT, PLATFORM, ROOF, SOURCES};
use lift_config::Config;
use lift_trace::Input;
use script_model::Wrong;

/// A listener for each source that is configured.
#[derive(Clone, Copy, Debug)]
pub struct Listeners {
    roof: Listener,
    pit: Listener,
    car: Option<Listener>,
    doors: Listener,
    panel: Listener,
    platform: Option<Listener>,
}

/// The place of the first source for which it holds.
fn first_of(
    roof: bool,
    pit: bool,
    car: bool,
    doors: bool,
    panel: bool,
    platform: bool,
) -> Option<u8>
    ensures { result ≡ first_of roof pit car doors panel platform }
{
    if roof {
        Some(ROOF as u8)
    } else if pit {
        Some(PIT as u8)
    } else if car {
        Some(CAR as u8)
    } else if doors {
        Some(DOORS as u8)
    } else if panel {
        Some(PANEL as u8)
    } else if platform {
        Some(PLATFORM as u8)
    } else {
        None
    }
}

fn wrong_by(tick: u32, place: Option<u8>) -> Option<Wrong>
    requires { IfSome place (λ j. j < SOURCES) }
    ensures { result ≡ wrong_by tick place }
{
    match place {
        Some(place) => Some(Wrong {
            tick,
            source: place + 1,
        }),
        None => None,
    }
}

/// The first, and the second where there is no first.
pub fn first_wrong(a: Option<Wrong>, b: Option<Wrong>) -> Option<Wrong>
    ensures { result ≡ or_else a b }
{
    match a {
        Some(a) => Some(a),
        None => b,
    }
}

/// The older of two.
pub fn older(a: Option<u32>, b: Option<u32>) -> Option<u32>
    ensures { result ≡ greatest a b }
{
    match (a, b) {
        (Some(x), Some(y)) => Some(if x <= y { y } else { x }),
        (Some(x), None) => Some(x),
        (None, y) => y,
    }
}

impl Listeners {
    ghost use Rattle.node_sim.specs.Hearing.{Hears};

    /// Before tick 1.
    pub fn new(config: &Config) -> Listeners
        ensures { (trace : List InputData) → Hears result config.now trace [] }
    {
        let sct = config.sct;
        let srvt = config.srvt;
        let plain = config.roof;
        let roof = Listener::new(Asked { plain, sct, srvt });
        let plain = config.pit;
        let pit = Listener::new(Asked { plain, sct, srvt });
        let plain = config.doors;
        let doors = Listener::new(Asked { plain, sct, srvt });
        let plain = config.panel;
        let panel = Listener::new(Asked { plain, sct, srvt });
        Listeners {
            roof,
            pit,
            car: listener_if(config.car, sct, srvt),
            doors,
            panel,
            platform: listener_if(config.platform, sct, srvt),
        }
    }

    /// Takes the next frame, with the true words of its tick. What is wrong, if it ends a valid pair that is not genuine.
    fn take(&mut self, came: Came, truth: &[u16; SOURCES]) -> Option<Wrong>
        ensures { (config : Settings) (trace : List InputData) (before : List Timed) → Hears self.old config trace before
            → ((i : ℕ) → get_or truth.now i 0 ≡ true_word trace i came.tick)
            → (result ≡ wrong_at config trace before came) × Hears self.new config trace (before ++ came ∷ []) }
    {
        let roof = self.roof.take(came, truth[ROOF]);
        let pit = self.pit.take(came, truth[PIT]);
        let car = take_if(&mut self.car, came, truth[CAR]);
        let doors = self.doors.take(came, truth[DOORS]);
        let panel = self.panel.take(came, truth[PANEL]);
        let platform = take_if(&mut self.platform, came, truth[PLATFORM]);
        wrong_by(came.tick, first_of(roof, pit, car, doors, panel, platform))
    }

    /// Takes the frames of the next tick. What is wrong first in them.
    pub fn take_tick(&mut self, input: &Input, tick: u32) -> Option<Wrong>
        ensures { (config : Settings) (trace : List InputData) (before : List Timed) → Hears self.old config trace before
            → ((i : ℕ) → get_or input.now.truth i 0 ≡ true_word trace i tick)
            → (result ≡ first_wrong_in config trace before (map (at_tick tick) input.now.frames))
            × Hears self.new config trace (before ++ map (at_tick tick) input.now.frames) }
    {
        let mut wrong = None;
        for frame in input.frames.as_slice() {
            let next = self.take(
                Came {
                    frame: *frame,
                    tick,
                },
                &input.truth,
            );
            wrong = first_wrong(wrong, next);
        }
        wrong
    }

    /// How many ticks the oldest pair is old at tick `n`, whose frames were taken last.
    pub fn oldest(&self, n: u32) -> Option<u32>
        ensures { (config : Settings) (trace : List InputData) → Hears self.now config trace (frames_from 1 (take n trace))
            → result ≡ oldest_at config trace n }
    {
        let platform = older(age_if(&self.platform, n), None);
        let panel = older(self.panel.age(n), platform);
        let doors = older(self.doors.age(n), panel);
        let car = older(age_if(&self.car, n), doors);
        let pit = older(self.pit.age(n), car);
        older(self.roof.age(n), pit)
    }
}
