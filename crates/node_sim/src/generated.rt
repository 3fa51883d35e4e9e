// The script that is generated from a number: 250 blocks of 200 ticks, each by the case that is drawn for it (own).
ghost use Rattle.std.specs.Prelude.{◌≡◌, ◌<◌, ◌%◌, ◌^◌, ◌==◌, if◌then◌else◌, Bool, List, IfOk};
ghost use Rattle.script_model.specs.Generated.{case_of, frames_at, generated, generated_settings, input_at, is_middle, made_at, next_draw, truth_at, within};
ghost use Rattle.script_model.specs.Rules.{KeepsRules};

use can_frame::Frame;
use lift_base::SOURCES;
use lift_config::Config;
use lift_io::NoMemory;
use lift_script::{Script, no_faults};
use lift_trace::{Frames, Input};
use script_model::Case;
use std::alloc::Global;

const TICKS: u32 = 50_000;

const BLOCK_TICKS: u32 = 200;

// The true words where nothing moves: roof, pit, car, doors, panel, and the platform, which sends nothing.
const TRUTH_AT_REST: [u16; SOURCES] = [0x0030, 0x0010, 0x0010, 0x000F, 0x0000, 0x0000];

/// The replay that is generated from a number, of 50,000 ticks. `NoMemory`: there is no memory for it.
pub fn load_script(alloc: Global, number: u32) -> Result<Script, NoMemory>
    ensures script { IfOk result (λ script. script ≡ generated number) }
    ensures rules { (places : List Bool) → IfOk result (KeepsRules places) }
{
    let mut script = Script::open(alloc, settings())?;
    let mut drawn = number;
    for before in 0..TICKS {
        drawn = drawn_at(before, drawn);
        script.push(input_at(case_of(drawn), before % BLOCK_TICKS, before + 1));
    }
    Ok(script)
}

fn settings() -> Config
    ensures { result ≡ generated_settings }
{
    Config {
        ticks: TICKS,
        sct: 25,
        srvt: 20,
        disc: 5,
        door: 10,
        roof: 0x101,
        pit: 0x103,
        car: Some(0x105),
        doors: 0x107,
        panel: 0x109,
        platform: None,
    }
}

// What is drawn for the tick after so many: a block has one draw.
fn drawn_at(before: u32, drawn: u32) -> u32
    ensures { result ≡ (if before % 200 == 0 then next_draw drawn else drawn) }
{
    if before % BLOCK_TICKS == 0 {
        next_draw(drawn)
    } else {
        drawn
    }
}

fn next_draw(drawn: u32) -> u32
    ensures { result ≡ next_draw drawn }
{
    ((1_664_525 * u64::from(drawn) + 1_013_904_223) % (1 << 32)) as u32
}

// By the three highest bits.
fn case_of(drawn: u32) -> Case
    ensures { result ≡ case_of drawn }
{
    match drawn >> 29 {
        0..=2 => Case::Ride,
        3 => Case::OpenDoors,
        4 => Case::RoofStation,
        5 => Case::Emergency,
        6 => Case::TwoStations,
        _ => Case::GovernorTrip,
    }
}

fn input_at(case: Case, place: u32, tick: u32) -> Input
    ensures { result ≡ input_at case place tick }
{
    let truth = truth_at(case, place);
    let made = made_at(case, place);
    Input {
        frames: frames_at(tick, &truth),
        a: made,
        b: 0x0FFF - made,
        truth,
        faults: no_faults(),
    }
}

fn is_within(from: u32, to: u32, place: u32) -> bool
    ensures { result ≡ within from to place }
{
    from <= place && place <= to
}

// Where the car is to move.
fn is_middle(place: u32) -> bool
    ensures { result ≡ is_middle place }
{
    is_within(10, 189, place)
}

fn truth_at(case: Case, place: u32) -> [u16; SOURCES]
    ensures { result ≡ truth_at case place }
{
    match case {
        Case::OpenDoors if is_within(40, 159, place) => [
            0x0030, 0x0010, 0x0010, 0x0070, 0x0000, 0x0000,
        ],
        Case::RoofStation if is_middle(place) => [0x0037, 0x0010, 0x0010, 0x000F, 0x0000, 0x0000],
        Case::Emergency if is_middle(place) => [0x0030, 0x0010, 0x0010, 0x000F, 0x0003, 0x0000],
        Case::TwoStations if is_middle(place) => [0x003B, 0x001B, 0x0010, 0x000F, 0x0000, 0x0000],
        _ => TRUTH_AT_REST,
    }
}

// The wires that are made.
fn made_at(case: Case, place: u32) -> u16
    ensures made { result ≡ made_at case place }
    ensures twelve { result < 2 ^ 12 }
{
    match case {
        Case::Ride if is_within(150, 159, place) => 0x0DFF,
        Case::Ride if is_middle(place) => 0x09FF,
        Case::OpenDoors if is_within(10, 39, place) || is_within(170, 189, place) => 0x09FF,
        Case::Emergency if is_middle(place) => 0x01FD,
        Case::GovernorTrip if is_within(10, 99, place) => 0x09FF,
        Case::GovernorTrip if is_within(100, 189, place) => 0x09FD,
        Case::GovernorTrip if is_within(190, 199, place) => 0x01FD,
        _ => 0x01FF,
    }
}

// Of each twenty ticks the first five have the pair of a source each.
fn frames_at(tick: u32, truth: &[u16; SOURCES]) -> Frames
    ensures { result ≡ frames_at tick truth.now }
{
    let mut frames = Frames::new();
    let source = tick % 20;
    if is_within(1, 5, source) {
        let id = 255 + 2 * source as u16;
        let [low, high] = truth[source as usize - 1].to_le_bytes();
        frames.push(Frame::of_pair(id, low, high));
        frames.push(Frame::of_pair(id + 1, 255 - low, 255 - high));
    }
    frames
}
