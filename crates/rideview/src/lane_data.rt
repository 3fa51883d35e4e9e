// The data of a lane: how long each of its bars is, and which of its values the bar shows (own).
ghost use Rattle.std.specs.Prelude.{◌≡◌, ◌<◌, ◌^◌, ◌++◌, List, IfOk, IfSome, length, map};
ghost use Rattle.ride_lanes.specs.Runs.{ticks_of};
ghost use Rattle.rideview.specs.Data.{IsAt, IsLaneOf, IsShownOf, word_of, word_of_bar};
ghost use Rattle.rideview.specs.declared.lane_data.Value.{Value};

use crate::bits::{Bits, bits_of};
use crate::growing::push;
use crate::texts::{state_of, text_of};
use lift_io::NoMemory;
use ride_lanes::{Bar, Cell, Lane, Moment, bars_of, is_same};
use std::alloc::Global;

/// How many of the last values are asked whether a value comes again.
const AGAIN: usize = 64;

/// A value that a lane shows.
#[derive(Drop)]
pub struct Value {
    pub cell: Cell,
    /// The word of its state.
    pub state: &'static str,
    /// What it says, where that is more.
    pub text: Option<String>,
}

/// What the bars of a lane show.
#[derive(Drop)]
pub enum Shown {
    /// The values, and for each bar the place of its value.
    Values(Vec<Value>, Vec<u32>),
    /// Of a source its bits, and for each bar its word. `None`: it has no value.
    Words(Bits, Vec<Option<u16>>),
}

/// The data of a lane.
#[derive(Drop)]
pub struct LaneData {
    pub lane: Lane,
    pub name: &'static str,
    pub group: &'static str,
    /// It goes with power: at a tick at which it shows what power does there is nothing to tell.
    pub as_power: bool,
    /// How many ticks each bar has.
    pub ticks: Vec<u32>,
    pub shown: Shown,
}

fn value_of(alloc: Global, cell: Cell) -> Result<Value, NoMemory>
    ensures { IfOk result (λ value. value.cell ≡ cell) }
{
    let text = match text_of(alloc, cell) {
        Ok(text) => text,
        Err(_) => return Err(NoMemory),
    };
    Ok(Value {
        cell,
        state: state_of(cell),
        text,
    })
}

// The place of a value that comes again, where that is among the last ones.
fn place_among(values: &[Value], cell: Cell) -> Option<u32>
    ensures { IfSome result (λ n. IsAt values.now n cell) }
{
    for i in values.len().saturating_sub(AGAIN)..values.len() {
        if is_same(values[i].cell, cell) {
            return u32::try_from(i).ok();
        }
    }
    None
}

// The place of a value, which is new where it does not come again.
fn place_of(alloc: Global, values: &mut Vec<Value>, cell: Cell) -> Result<u32, NoMemory>
    ensures at { IfOk result (λ n. IsAt values.new.items n cell) }
    ensures old { IfOk result (λ _. (more : List Value) × (values.new.items ≡ values.old.items ++ more)) }
{
    if let Some(place) = place_among(values, cell) {
        return Ok(place);
    }
    let place = match u32::try_from(values.len()) {
        Ok(place) => place,
        Err(_) => return Err(NoMemory),
    };
    let value = value_of(alloc, cell)?;
    push(values, value)?;
    Ok(place)
}

fn values_of(alloc: Global, bars: &[Bar]) -> Result<Shown, NoMemory>
    ensures { IfOk result (IsShownOf bars.now) }
{
    let mut values = Vec::new(alloc);
    let mut places = Vec::new(alloc);
    for bar in bars {
        let place = place_of(alloc, &mut values, bar.cell)?;
        push(&mut places, place)?;
    }
    Ok(Shown::Values(values, places))
}

fn word_of(cell: Cell) -> Option<u16>
    ensures { result ≡ word_of cell }
{
    match cell {
        Cell::Value(word) => word,
        _ => None,
    }
}

fn words_of(alloc: Global, bits: Bits, bars: &[Bar]) -> Result<Shown, NoMemory>
    ensures { IfOk result (IsShownOf bars.now) }
{
    let mut words = Vec::new(alloc);
    for bar in bars {
        push(&mut words, word_of(bar.cell))?;
    }
    Ok(Shown::Words(bits, words))
}

fn shown_of(alloc: Global, lane: Lane, bars: &[Bar]) -> Result<Shown, NoMemory>
    ensures { IfOk result (IsShownOf bars.now) }
{
    match lane {
        Lane::Source(number) => words_of(alloc, bits_of(number), bars),
        _ => values_of(alloc, bars),
    }
}

fn ticks_of(alloc: Global, bars: &[Bar]) -> Result<Vec<u32>, NoMemory>
    ensures { IfOk result (λ ticks. ticks.items ≡ map ticks_of bars.now) }
{
    let mut ticks = Vec::new(alloc);
    for bar in bars {
        push(&mut ticks, bar.ticks)?;
    }
    Ok(ticks)
}

/// The data of a lane over these ticks. `NoMemory`: there is no memory for it.
pub fn lane_data_of(alloc: Global, lane: Lane, moments: &[Moment]) -> Result<LaneData, NoMemory>
    requires { length moments.now < 2 ^ 24 }
    ensures { IfOk result (λ it. IsLaneOf lane moments.now it) }
{
    let bars = bars_of(alloc, lane, moments)?;
    let ticks = ticks_of(alloc, &bars)?;
    let shown = shown_of(alloc, lane, &bars)?;
    Ok(LaneData {
        lane,
        name: lane.name(),
        group: lane.group(),
        as_power: matches!(&lane, Lane::Gives(_)),
        ticks,
        shown,
    })
}
