// Runs the core by the steps of a schedule, up to the first that is not possible (own).
ghost use Rattle.std.specs.Prelude.{◌≡◌, ◌↔◌, List, [], ◌∷◌, ◌++◌, length, drop, false, IfOk, OnOk, OnErr, IsErr};
ghost use Rattle.lift_model.specs.Records.{Settings};
ghost use Rattle.core_model.specs.Machine as machine;
ghost use Rattle.core_model.specs.Machine.{enabled};
ghost use Rattle.core_model.specs.Schedule.{Tick as ActTick, scheduled};
ghost use Rattle.lift_core.specs.Parts.{state_of};
ghost use Rattle.lift_core.specs.StandsFor.{StandsFor};
ghost use Rattle.script_model.specs.Acts.{act_data};
ghost use Rattle.lift_making.specs.Jobs.{BySteps};
ghost use Rattle.lift_making.specs.Playing.{IsBad, Plays};
ghost use Rattle.lift_making.specs.Ways.{RunOf};

use channel_masks::MaskChannel;
use channel_walker::WalkerChannel;
use contactor_pair::Path;
use core_model::SideStep;
use grant_model::Channel;
use lift_base::Side;
use lift_config::Config;
use lift_core::{BadStep, Core};
use lift_io::NoMemory;
use lift_script::{Script, Step};
use lift_trace::Trace;
use replay_engine::Exchangeable;
use script_model::Act;
use std::alloc::Global;

// A schedule takes this much for each of its steps: 800,000 of them take less than 26 MB.
const _: () = prove!(size_of::<Step>() <= 32);

/// What running a schedule came to: what each tick settled, and the line of the first step that was not possible.
#[derive(Drop)]
pub struct Played {
    pub path: Path,
    pub stopped_at: Option<u32>,
}

// A tick with the next input. Where no input is left there is none.
fn take_tick<CA: Channel, CB: Channel>(
    core: &mut Core<CA, CB>,
    trace: &Trace,
) -> Result<(), BadStep>
    ensures ok { OnOk result ((config : Settings) (events : List machine.Event) → StandsFor CA.stands CB.stands core.old config events
        → StandsFor CA.stands CB.stands core.new config (events ++ scheduled (drop (length (state_of core.old).trace) trace.now.inputs)
        (ActTick ∷ []))) }
    ensures bad { OnErr result (IsBad core.old.config (state_of core.old)
        (scheduled (drop (length (state_of core.old).trace) trace.now.inputs) (ActTick ∷ []))) }
    ensures same { OnErr result (core.new ≡ core.old) }
    ensures config { core.new.config ≡ core.old.config }
{
    let ticks = core.tick();
    if ticks >= trace.len() {
        return Ok(());
    }
    core.settle(trace.get(ticks + 1))
}

// A failed side is exchanged for a new one, whose channel is new for the core's config.
fn exchange<CA: Exchangeable, CB: Exchangeable>(
    core: &mut Core<CA, CB>,
    config: &Config,
    side: Side,
) -> Result<(), BadStep>
    requires { core.old.config ≡ config.now }
    ensures ok { OnOk result ((config : Settings) (events : List machine.Event) → StandsFor CA.stands CB.stands core.old config events
        → StandsFor CA.stands CB.stands core.new config (events ++ machine.Exchange side ∷ [])) }
    ensures bad { IsErr result ↔ (enabled core.old.config (state_of core.old) (machine.Exchange side) ≡ false) }
    ensures same { OnErr result (core.new ≡ core.old) }
    ensures config { core.new.config ≡ core.old.config }
{
    let is_done = match side {
        Side::A => core.exchange_a(CA::anew(config)).is_ok(),
        Side::B => core.exchange_b(CB::anew(config)).is_ok(),
    };
    if is_done { Ok(()) } else { Err(BadStep) }
}

// One step.
fn take<CA: Exchangeable, CB: Exchangeable>(
    core: &mut Core<CA, CB>,
    config: &Config,
    trace: &Trace,
    act: Act,
) -> Result<(), BadStep>
    requires { core.old.config ≡ config.now }
    ensures ok { OnOk result ((config : Settings) (events : List machine.Event) → StandsFor CA.stands CB.stands core.old config events
        → StandsFor CA.stands CB.stands core.new config (events ++ scheduled (drop (length (state_of core.old).trace) trace.now.inputs)
        (act_data act ∷ []))) }
    ensures bad { OnErr result (IsBad core.old.config (state_of core.old)
        (scheduled (drop (length (state_of core.old).trace) trace.now.inputs) (act_data act ∷ []))) }
    ensures same { OnErr result (core.new ≡ core.old) }
    ensures config { core.new.config ≡ core.old.config }
{
    match act {
        Act::Tick => take_tick(core, trace),
        Act::Exchange(side) => exchange(core, config, side),
        Act::Fail(side) => core.make(side, SideStep::Fail),
        Act::Sample(side) => core.make(side, SideStep::Sample),
        Act::Publish(side) => core.make(side, SideStep::Publish),
        Act::Look(side) => core.make(side, SideStep::Look),
        Act::Command(side) => core.make(side, SideStep::Command),
        Act::Word(side, word) => core.make(side, SideStep::RoguePublish(word)),
        Act::Value(side, word) => core.make(side, SideStep::RogueCommand(word)),
        Act::Contactor(side, order) => core.make(side, SideStep::RogueContactor(order)),
    }
}

// All steps, up to the first that is not possible: the line of that one.
fn play<CA: Exchangeable, CB: Exchangeable>(
    core: &mut Core<CA, CB>,
    config: &Config,
    trace: &Trace,
    steps: &[Step],
) -> Option<u32>
    requires { core.old.config ≡ config.now }
    ensures { (config : Settings) → StandsFor CA.stands CB.stands core.old config []
        → Plays (StandsFor CA.stands CB.stands core.new config) config (state_of core.new) trace.now.inputs steps.now result }
{
    for step in steps {
        match take(core, config, trace, step.act) {
            Ok(()) => {}
            Err(BadStep) => return Some(step.line),
        }
    }
    None
}

/// Runs a schedule on a core with both channels: side A has a `MaskChannel`, B a `WalkerChannel`. All memory of the run is taken first.
pub fn play_script(alloc: Global, script: &Script) -> Result<Played, NoMemory>
    ensures { IfOk result (λ played. RunOf BySteps script.now played.stopped_at [] played.path.settled) }
{
    let config = *script.config();
    let a = MaskChannel::new(&config);
    let b = WalkerChannel::new(&config);
    let mut core: Core<MaskChannel, WalkerChannel> = Core::open(alloc, config, a, b)?;
    let stopped_at = play(&mut core, &config, script.trace(), script.steps());
    Ok(Played {
        path: core.into_path(),
        stopped_at,
    })
}
