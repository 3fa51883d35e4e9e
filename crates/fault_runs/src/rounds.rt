// One round of both sides on the core: the events of a tick of a replay, in one order of the looks (own).
ghost use Rattle.std.specs.Prelude.{◌≡◌, [], ◌∷◌, OnOk};
ghost use Rattle.core_model.specs.Due.{four_steps};
ghost use Rattle.core_model.specs.Machine.{Exchange, Step};
ghost use Rattle.core_model.specs.declared.SideStep.TheVariants as step;
ghost use Rattle.lift_core.specs.Parts.{state_of};
ghost use Rattle.lift_base.specs.declared.Side.TheVariants.{A, B};
ghost use Rattle.round_model.specs.Events.{command_act, contactor_act, fail_of, one_looks_first, publish_act, side_by_side};
ghost use Rattle.round_model.specs.Parts.{Failed, faults_of, part_by};
ghost use Rattle.fault_runs.specs.Rounds.{Leads, begins, both_act, events_in, in_order, is_acting, moves_in, part_data, steps_of};

use crate::looks::Looks;
use core_model::SideStep;
use grant_model::Channel;
use lift_base::{Override, Side};
use lift_config::Config;
use lift_core::{BadStep, Core};
use lift_trace::{Input, SideFaults};
use replay_engine::Exchangeable;

// What a side does in a round.
#[derive(Clone, Copy, Debug, PartialEq, Eq)]
enum Part {
    Acting,
    Held,
    Failed,
    Exchanged,
}

impl Part {
    fn is_acting(self) -> bool
        ensures { result ≡ is_acting (part_data self) }
    {
        match self {
            Part::Acting => true,
            Part::Held | Part::Failed | Part::Exchanged => false,
        }
    }
}

fn part_of(failed: bool, faults: SideFaults) -> Part
    ensures { part_data result ≡ part_by faults.exchange failed faults.hold }
{
    if faults.exchange {
        Part::Exchanged
    } else if failed {
        Part::Failed
    } else if faults.hold {
        Part::Held
    } else {
        Part::Acting
    }
}

fn of_side(input: &Input, side: Side) -> SideFaults
    ensures { result ≡ faults_of side input.now }
{
    match side {
        Side::A => input.faults.a,
        Side::B => input.faults.b,
    }
}

fn fail_if<CA: Channel, CB: Channel>(
    core: &mut Core<CA, CB>,
    input: &Input,
    side: Side,
) -> Result<(), BadStep>
    ensures leads { OnOk result (Leads CA.stands CB.stands core.old core.new (fail_of side input.now)) }
    ensures config { core.new.config ≡ core.old.config }
{
    if of_side(input, side).fail {
        core.make(side, SideStep::Fail)
    } else {
        Ok(())
    }
}

// The tick is settled, and then the sides fail that are to.
fn begin<CA: Channel, CB: Channel>(core: &mut Core<CA, CB>, input: &Input) -> Result<(), BadStep>
    ensures leads { OnOk result (Leads CA.stands CB.stands core.old core.new (begins input.now)) }
    ensures config { core.new.config ≡ core.old.config }
{
    core.settle(input)?;
    fail_if(core, input, Side::A)?;
    fail_if(core, input, Side::B)
}

fn look<CA: Channel, CB: Channel>(core: &mut Core<CA, CB>, side: Side) -> Result<(), BadStep>
    ensures leads { OnOk result (Leads CA.stands CB.stands core.old core.new
        (Step side step.Sample ∷ Step side step.Publish ∷ Step side step.Look ∷ [])) }
    ensures config { core.new.config ≡ core.old.config }
{
    core.make(side, SideStep::Sample)?;
    core.make(side, SideStep::Publish)?;
    core.make(side, SideStep::Look)
}

fn act<CA: Channel, CB: Channel>(core: &mut Core<CA, CB>, side: Side) -> Result<(), BadStep>
    ensures leads { OnOk result (Leads CA.stands CB.stands core.old core.new (four_steps side)) }
    ensures config { core.new.config ≡ core.old.config }
{
    look(core, side)?;
    core.make(side, SideStep::Command)
}

fn publish_if<CA: Channel, CB: Channel>(
    core: &mut Core<CA, CB>,
    side: Side,
    word: Option<u64>,
) -> Result<(), BadStep>
    ensures leads { OnOk result (Leads CA.stands CB.stands core.old core.new (publish_act side word)) }
    ensures config { core.new.config ≡ core.old.config }
{
    match word {
        Some(word) => core.make(side, SideStep::RoguePublish(word)),
        None => Ok(()),
    }
}

fn command_if<CA: Channel, CB: Channel>(
    core: &mut Core<CA, CB>,
    side: Side,
    word: Option<u64>,
) -> Result<(), BadStep>
    ensures leads { OnOk result (Leads CA.stands CB.stands core.old core.new (command_act side word)) }
    ensures config { core.new.config ≡ core.old.config }
{
    match word {
        Some(word) => core.make(side, SideStep::RogueCommand(word)),
        None => Ok(()),
    }
}

fn order_if<CA: Channel, CB: Channel>(
    core: &mut Core<CA, CB>,
    side: Side,
    order: Override,
) -> Result<(), BadStep>
    ensures leads { OnOk result (Leads CA.stands CB.stands core.old core.new (contactor_act side order)) }
    ensures config { core.new.config ≡ core.old.config }
{
    match order {
        Override::Keep => Ok(()),
        Override::Follow | Override::Force(_) => core.make(side, SideStep::RogueContactor(order)),
    }
}

// A failed side stores what its lines say.
fn store<CA: Channel, CB: Channel>(
    core: &mut Core<CA, CB>,
    side: Side,
    faults: SideFaults,
) -> Result<(), BadStep>
    ensures leads { OnOk result (Leads CA.stands CB.stands core.old core.new (steps_of Failed side faults)) }
    ensures config { core.new.config ≡ core.old.config }
{
    publish_if(core, side, faults.publish)?;
    command_if(core, side, faults.command)?;
    order_if(core, side, faults.contactor)
}

fn exchange<CA: Exchangeable, CB: Exchangeable>(
    core: &mut Core<CA, CB>,
    config: &Config,
    side: Side,
) -> Result<(), BadStep>
    requires { core.old.config ≡ config.now }
    ensures leads { OnOk result (Leads CA.stands CB.stands core.old core.new (Exchange side ∷ [])) }
    ensures config { core.new.config ≡ core.old.config }
{
    match side {
        Side::A => match core.exchange_a(CA::anew(config)) {
            Ok(()) => Ok(()),
            Err(_) => Err(BadStep),
        },
        Side::B => match core.exchange_b(CB::anew(config)) {
            Ok(()) => Ok(()),
            Err(_) => Err(BadStep),
        },
    }
}

// Both publish before either looks.
fn side_by_side<CA: Channel, CB: Channel>(core: &mut Core<CA, CB>) -> Result<(), BadStep>
    ensures leads { OnOk result (Leads CA.stands CB.stands core.old core.new side_by_side) }
    ensures config { core.new.config ≡ core.old.config }
{
    core.make(Side::A, SideStep::Sample)?;
    core.make(Side::B, SideStep::Sample)?;
    core.make(Side::A, SideStep::Publish)?;
    core.make(Side::B, SideStep::Publish)?;
    core.make(Side::A, SideStep::Look)?;
    core.make(Side::B, SideStep::Look)?;
    core.make(Side::A, SideStep::Command)?;
    core.make(Side::B, SideStep::Command)
}

// The first looks before the second publishes, and commands first.
fn one_looks_first<CA: Channel, CB: Channel>(
    core: &mut Core<CA, CB>,
    first: Side,
    second: Side,
) -> Result<(), BadStep>
    ensures leads { OnOk result (Leads CA.stands CB.stands core.old core.new (one_looks_first first second)) }
    ensures config { core.new.config ≡ core.old.config }
{
    look(core, first)?;
    look(core, second)?;
    core.make(first, SideStep::Command)?;
    core.make(second, SideStep::Command)
}

fn both_act<CA: Channel, CB: Channel>(core: &mut Core<CA, CB>, looks: Looks) -> Result<(), BadStep>
    ensures leads { OnOk result (Leads CA.stands CB.stands core.old core.new (both_act looks)) }
    ensures config { core.new.config ≡ core.old.config }
{
    match looks {
        Looks::BothNew => side_by_side(core),
        Looks::AOld => one_looks_first(core, Side::A, Side::B),
        Looks::BOld => one_looks_first(core, Side::B, Side::A),
    }
}

fn do_part<CA: Exchangeable, CB: Exchangeable>(
    core: &mut Core<CA, CB>,
    config: &Config,
    input: &Input,
    side: Side,
    part: Part,
) -> Result<(), BadStep>
    requires { core.old.config ≡ config.now }
    ensures leads { OnOk result (Leads CA.stands CB.stands core.old core.new (steps_of (part_data part) side (faults_of side input.now))) }
    ensures config { core.new.config ≡ core.old.config }
{
    match part {
        Part::Acting => act(core, side),
        Part::Held => Ok(()),
        Part::Failed => store(core, side, of_side(input, side)),
        Part::Exchanged => exchange(core, config, side),
    }
}

// One side does all of its part before the other does.
fn one_moves_first<CA: Exchangeable, CB: Exchangeable>(
    core: &mut Core<CA, CB>,
    config: &Config,
    input: &Input,
    first: Side,
    a: Part,
    b: Part,
) -> Result<(), BadStep>
    requires { core.old.config ≡ config.now }
    ensures leads { OnOk result (Leads CA.stands CB.stands core.old core.new
        (in_order first (steps_of (part_data a) A input.now.faults.a) (steps_of (part_data b) B input.now.faults.b))) }
    ensures config { core.new.config ≡ core.old.config }
{
    match first {
        Side::A => {
            do_part(core, config, input, Side::A, a)?;
            do_part(core, config, input, Side::B, b)
        }
        Side::B => {
            do_part(core, config, input, Side::B, b)?;
            do_part(core, config, input, Side::A, a)
        }
    }
}

// What the two do, by their parts.
fn move_in<CA: Exchangeable, CB: Exchangeable>(
    core: &mut Core<CA, CB>,
    config: &Config,
    input: &Input,
    looks: Looks,
    a: Part,
    b: Part,
) -> Result<(), BadStep>
    requires { core.old.config ≡ config.now }
    ensures leads { OnOk result (Leads CA.stands CB.stands core.old core.new (moves_in looks (part_data a) (part_data b) input.now)) }
    ensures config { core.new.config ≡ core.old.config }
{
    match (a, b) {
        (Part::Acting, Part::Acting) => both_act(core, looks),
        _ => one_moves_first(core, config, input, looks.first(a.is_acting()), a, b),
    }
}

/// A tick and the round after it. The input is of a replay whose faults keep the rules; then each step is possible.
pub fn take_round<CA: Exchangeable, CB: Exchangeable>(
    core: &mut Core<CA, CB>,
    config: &Config,
    input: &Input,
    looks: Looks,
) -> Result<(), BadStep>
    requires { core.old.config ≡ config.now }

    // Its events are those of the round in this order of the looks.
    ensures leads { OnOk result (Leads CA.stands CB.stands core.old core.new (events_in looks (state_of core.old) input.now)) }
    ensures config { core.new.config ≡ core.old.config }
{
    begin(core, input)?;
    let a = part_of(core.failed(Side::A), of_side(input, Side::A));
    let b = part_of(core.failed(Side::B), of_side(input, Side::B));
    move_in(core, config, input, looks, a, b)
}
