// The bars of a lane: the runs of what it shows over the ticks, in order (own).
ghost use Rattle.std.specs.Prelude.{◌≡◌, ◌<◌, ◌+◌, ◌^◌, ◌∷◌, [], ◌++◌, List, OnOk, IfOk, length, map, sum_by};
ghost use Rattle.ride_lanes.specs.Cells.{cell_at};
ghost use Rattle.ride_lanes.specs.Runs.{AreChanges, AreRuns, start_of, ticks_of};
ghost use Rattle.ride_lanes.specs.declared.bars.Bar.{Bar};
ghost use Rattle.ride_lanes.specs.declared.cells.Cell.{Cell};

use crate::cells::{Cell, cell_at, is_same};
use crate::lanes::Lane;
use crate::moments::Moment;
use lift_io::NoMemory;
use std::alloc::Global;

/// Ticks in a row at which a lane shows the same.
#[derive(Clone, Copy)]
pub struct Bar {
    /// The first of them, from 1.
    pub first: u32,
    /// How many they are.
    pub ticks: u32,
    pub cell: Cell,
}

fn push(bars: &mut Vec<Bar>, bar: Bar) -> Result<(), NoMemory>
    ensures { OnOk result (bars.new.items ≡ bars.old.items ++ bar ∷ []) }
{
    bars.push(bar).map_err(|_| NoMemory)
}

/// The run after one tick more, at which the lane shows the same.
fn longer(run: Bar) -> Bar
    requires { run.ticks < 2 ^ 25 }
    ensures { result ≡ record run { ticks = run.ticks + 1 } }
{
    Bar {
        first: run.first,
        ticks: run.ticks + 1,
        cell: run.cell,
    }
}

/// The run that begins after this one.
fn next(run: Bar, cell: Cell) -> Bar
    requires { run.first + run.ticks < 2 ^ 25 }
    ensures { result ≡ record { first = run.first + run.ticks; ticks = 1; cell = cell } }
{
    Bar {
        first: run.first + run.ticks,
        ticks: 1,
        cell,
    }
}

/// One tick more: the last run goes on, or it is a bar and the next one begins.
fn add(bars: &mut Vec<Bar>, run: Bar, cell: Cell) -> Result<Bar, NoMemory>
    requires { run.first + run.ticks < 2 ^ 25 }
    ensures runs { IfOk result (λ later. (column : List Cell) → AreRuns 1 column (bars.old.items ++ run ∷ [])
        → AreRuns 1 (column ++ cell ∷ []) (bars.new.items ++ later ∷ [])) }
    ensures end { IfOk result (λ later. later.first + later.ticks ≡ run.first + run.ticks + 1) }
{
    if is_same(cell, run.cell) {
        return Ok(longer(run));
    }
    let later = next(run, cell);
    push(bars, run)?;
    Ok(later)
}

/// The bars of a lane over these ticks, tick 1 first. `NoMemory`: there is no memory for them.
pub fn bars_of(alloc: Global, lane: Lane, moments: &[Moment]) -> Result<Vec<Bar>, NoMemory>
    requires { length moments.now < 2 ^ 24 }

    // They are the runs of what the lane shows: in order, without a gap, over all ticks.
    ensures { IfOk result (λ bars. AreRuns 1 (map (cell_at lane) moments.now) bars.items) }
{
    let mut bars = Vec::new(alloc);
    if moments.len() == 0 {
        return Ok(bars);
    }
    let mut run = Bar {
        first: 1,
        ticks: 1,
        cell: cell_at(lane, &moments[0]),
    };
    for i in 1..moments.len() {
        let cell = cell_at(lane, &moments[i]);
        run = add(&mut bars, run, cell)?;
    }
    push(&mut bars, run)?;
    Ok(bars)
}

/// The bars of a lane are together as long as its ticks.
pub fn bars_cover_all()
    ensures { (column : List Cell) (bars : List Bar) → AreRuns 1 column bars → sum_by ticks_of bars ≡ length column }
{}

/// The bars of a lane begin at its changes, and nowhere else: at the first tick, and at each that shows another value than the one
/// before it.
pub fn bars_begin_at_changes()
    ensures { (column : List Cell) (bars : List Bar) → AreRuns 1 column bars → AreChanges column (map start_of bars) }
{}
