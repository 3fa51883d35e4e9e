// The producers of all sources, and the script that they make of a script's true words (own).
ghost use Rattle.std.specs.Prelude.{◌≡◌, ℕ, ◌+◌, ◌-◌, ◌<◌, ◌≤◌, ◌^◌, ◌++◌, List, length, get_or, IfOk, IfSome, option_map, option_and_then};
ghost use Rattle.lift_model.specs.Records.{Settings, InputData};
ghost use Rattle.lift_model.specs.Trace.{identifiers};
ghost use Rattle.lift_model.specs.Truth.{true_word};
ghost use Rattle.lift_base.specs.declared.TheConstants.{SOURCES};
ghost use Rattle.lift_base.specs.declared.limits.TheConstants.{LONGEST_SPAN, MOST_FRAMES};
ghost use Rattle.node_sim.specs.declared.cycles.TheConstants.{SHORTEST_CYCLE};
ghost use Rattle.node_sim.specs.Produced.{given, frames_due, produced_script};
ghost use Rattle.node_sim.specs.Producing.{IsIdentifier, next_frame, one_on};

use crate::producer::Producer;
use can_frame::Frame;
use lift_base::{CAR, DOORS, PANEL, PIT, PLATFORM, ROOF, SOURCES};
use lift_config::Config;
use lift_io::NoMemory;
use lift_script::{Script, no_faults};
use lift_trace::{Frames, Input};
use std::alloc::Global;

/// The producers, one for each source that is there.
#[derive(Drop)]
pub struct Producers {
    roof: Producer,
    pit: Producer,
    car: Option<Producer>,
    doors: Producer,
    panel: Producer,
    platform: Option<Producer>,
}

fn producer_if(source: u8, plain: Option<u16>, cycle: u32) -> Option<Producer>
    requires first { 1 ≤ source }
    requires last { source ≤ SOURCES }
    requires plain { IfSome plain IsIdentifier }
    requires least { SHORTEST_CYCLE ≤ cycle }
    requires most { cycle ≤ LONGEST_SPAN }
    ensures { result ≡ option_map (λ id. record { source = source; plain = id; cycle = cycle; ticks = 0; before = 0 }) plain }
{
    match plain {
        Some(plain) => Some(Producer::new(source, plain, cycle)),
        None => None,
    }
}

fn tick_if(producer: &mut Option<Producer>, truth: u16) -> Option<Frame>
    requires { IfSome producer.old (λ p. p.ticks < 2 ^ 24) }
    ensures frame { result ≡ option_and_then (λ p. next_frame p truth) producer.old }
    ensures more { producer.new ≡ option_map (λ p. one_on p truth) producer.old }
{
    match producer {
        Some(producer) => producer.tick(truth),
        None => None,
    }
}

fn push_if(frames: &mut Frames, frame: Option<Frame>)
    requires { length frames.old < MOST_FRAMES }
    ensures value { frames.new ≡ frames.old ++ given frame }
    ensures few { length frames.new ≤ length frames.old + 1 }
{
    if let Some(frame) = frame {
        frames.push(frame);
    }
}

impl Producers {
    ghost use Rattle.node_sim.specs.Standing.{Stand};

    /// Before tick 1.
    fn new(config: &Config, cycle: u32) -> Producers
        requires least { SHORTEST_CYCLE ≤ cycle }
        requires most { cycle ≤ LONGEST_SPAN }
        ensures { (trace : List InputData) → Stand result config.now cycle trace 0 }
    {
        config.known();
        Producers {
            roof: Producer::new(1, config.roof, cycle),
            pit: Producer::new(2, config.pit, cycle),
            car: producer_if(3, config.car, cycle),
            doors: Producer::new(4, config.doors, cycle),
            panel: Producer::new(5, config.panel, cycle),
            platform: producer_if(6, config.platform, cycle),
        }
    }

    /// The frames of the next tick, where these are the true words of that tick.
    fn tick(&mut self, truth: &[u16; SOURCES]) -> Frames
        requires { (config : Settings) × (cycle : ℕ) × (trace : List InputData) × (n : ℕ) × (Stand self.old config cycle trace n)
            × (n < 2 ^ 24) }
        ensures { (config : Settings) (cycle : ℕ) (trace : List InputData) (n : ℕ) → Stand self.old config cycle trace n
            → ((i : ℕ) → get_or truth.now i 0 ≡ true_word trace i (n + 1))
            → (result ≡ frames_due cycle trace (n + 1) 0 (identifiers config)) × Stand self.new config cycle trace (n + 1) }
    {
        let mut frames = Frames::new();
        push_if(&mut frames, self.roof.tick(truth[ROOF]));
        push_if(&mut frames, self.pit.tick(truth[PIT]));
        push_if(&mut frames, tick_if(&mut self.car, truth[CAR]));
        push_if(&mut frames, self.doors.tick(truth[DOORS]));
        push_if(&mut frames, self.panel.tick(truth[PANEL]));
        push_if(&mut frames, tick_if(&mut self.platform, truth[PLATFORM]));
        frames
    }
}

/// The script that the producers make of this one: its config, wires and true words, with their frames in place of its own, and neither
/// faults nor steps. `NoMemory`: there is no memory for it.
pub fn produce(alloc: Global, script: &Script, cycle: u32) -> Result<Script, NoMemory>
    requires least { SHORTEST_CYCLE ≤ cycle }
    requires most { cycle ≤ LONGEST_SPAN }
    ensures { IfOk result (λ made. made ≡ produced_script cycle script.now) }
{
    let config = *script.config();
    let mut made = match Script::open(alloc, config) {
        Ok(made) => made,
        Err(_) => return Err(NoMemory),
    };
    let mut producers = Producers::new(&config, cycle);
    let _room = script.room();
    for n in 0..script.trace().len() {
        let input = script.trace().get(n + 1);
        let frames = producers.tick(&input.truth);
        made.push(Input {
            frames,
            a: input.a,
            b: input.b,
            truth: input.truth,
            faults: no_faults(),
        });
    }
    Ok(made)
}
