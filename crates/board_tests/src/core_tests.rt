// A core over both channels, step by step: a turn of both sides, and a failed side that is exchanged.
use channel_masks::MaskChannel;
use channel_walker::WalkerChannel;
use fault_script::read_script;
use grant_model::Channel;
use lift_base::{Form, Kind, Override, Side};
use lift_core::{BadStep, Core, Event, Words};
use lift_script::Script;
use lift_trace::Trace;
use saboteur::Crew;
use std::alloc::Global;
use std::test::Fail;

// One tick, at which power is granted.
const TEXT: &str =
    "version = 1\nticks = 5\nsct = 25\nsrvt = 20\ndisc = 5\ndoor_ticks = 10\nroof = 0x101\npit = 0x103\ncar = 0x105\ndoors = 0x107\n\
     panel = 0x109\n%%\nf 101#3000\nf 102#CFFF\nf 103#1000\nf 104#EFFF\nf 105#1000\nf 106#EFFF\nf 107#0F00\nf 108#F0FF\nf 109#0000\n\
     f 10A#FFFF\nw 09FF 0600\nt\ne\n";

fn granted_tick(alloc: Global) -> Result<Script, Fail> {
    let crew = Crew::of(Vec::new(alloc));
    Ok(
        read_script(alloc, Form::Schedule, &crew, TEXT.as_bytes())
            .ok()
            .ok_or("no script")?,
    )
}

// A tick with the first input, a whole turn of both sides, and such a tick again.
fn two_ticks<CA: Channel, CB: Channel>(
    core: &mut Core<CA, CB>,
    trace: &Trace,
) -> Result<(), BadStep> {
    if trace.len() == 0 {
        return Err(BadStep);
    }
    let tick = Event::Tick(trace.get(1).copy());
    core.step(&tick)?;
    for side in [Side::A, Side::B] {
        core.step(&Event::Sample(side))?;
        core.step(&Event::Publish(side))?;
    }
    for side in [Side::A, Side::B] {
        core.step(&Event::Look(side))?;
        core.step(&Event::Command(side))?;
    }
    core.step(&tick)
}

// Stamp 1 and kind Full, as either word has them.
const FULL_AT_1: u64 = 0x0100_0001;

// Stamp 1 and reason 14, locked.
const LOCKED_AT_1: u64 = 0x3800_0001;

// A core over both channels behind two ticks. Where side A is to be exchanged, it fails first, with its contactor forced.
fn words_of_two_ticks(alloc: Global, exchanged: bool) -> Result<Option<Words>, Fail> {
    let script = granted_tick(alloc)?;
    let config = *script.config();
    let a = MaskChannel::new(&config);
    let b = WalkerChannel::new(&config);
    let Ok(mut core) = Core::open(alloc, config, a, b) else {
        return Ok(None);
    };
    if exchanged {
        let early = core.exchange_a(MaskChannel::new(&config)).is_ok();
        let failed = core.step(&Event::Fail(Side::A)).is_ok();
        let force = Event::RogueContactor(Side::A, Override::Force(Kind::Up));
        let forced = core.step(&force).is_ok();
        let done = core.exchange_a(MaskChannel::new(&config)).is_ok();
        if early || !failed || !forced || !done {
            return Ok(None);
        }
    }
    if two_ticks(&mut core, script.trace()).is_err() || core.step(&Event::Look(Side::A)).is_ok() {
        return Ok(None);
    }
    Ok(Some(core.words()))
}

fn words(command_a: u64) -> Words {
    Words {
        publish_a: FULL_AT_1,
        publish_b: FULL_AT_1,
        command_a,
        command_b: FULL_AT_1,
    }
}

#[test]
fn core_makes_a_turn_of_both_sides(rt: HostRuntime) -> Result<(), Fail> {
    let plain = words_of_two_ticks(rt.alloc(), false)?;
    // An exchanged side is locked until a reset.
    let exchanged = words_of_two_ticks(rt.alloc(), true)?;
    assert_eq!(rt; plain, Some(words(FULL_AT_1)));
    assert_eq!(rt; exchanged, Some(words(LOCKED_AT_1)));
    Ok(())
}
