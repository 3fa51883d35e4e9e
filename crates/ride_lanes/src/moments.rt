// The ticks of a ride: for each what it settled, what the sides did, and what the clauses saw and said (own).
ghost use Rattle.std.specs.Prelude.{◌≡◌, ◌≤◌, ◌<◌, ◌+◌, ◌∷◌, [], ◌++◌, ◌^◌, length, take, OnOk, IfOk, vec_len};
ghost use Rattle.ride_lanes.specs.Moments.{AreMoments, IsMoment, sight_after};

use crate::watcher::{Sight, Watcher};
use contactor_pair::{Out, Path, Settled};
use lift_base::Side;
use lift_io::NoMemory;
use lift_run::{Run, Turn};
use lift_script::Script;
use lift_trace::{Faults, SideFaults, Trace};
use std::alloc::Global;

/// All that is drawn of one tick.
#[derive(Drop)]
pub struct Moment {
    /// From 1.
    pub tick: u32,
    pub settled: Settled,
    pub a: Turn,
    pub b: Turn,
    pub sight: Sight,
    /// What the lines of the script do to the sides.
    pub faults: Faults,
}

impl Moment {
    ghost use Rattle.core_model.specs.Settling.{out_at};
    ghost use Rattle.ride_lanes.specs.Moments.{lines_at, turn_at};

    /// What a side's contactor gives.
    pub fn out(&self, side: Side) -> &Out
        ensures { result.now ≡ out_at side self.now.settled }
    {
        match side {
            Side::A => &self.settled.a,
            Side::B => &self.settled.b,
        }
    }

    /// What a side did in the round.
    pub fn turn(&self, side: Side) -> &Turn
        ensures { result.now ≡ turn_at side self.now }
    {
        match side {
            Side::A => &self.a,
            Side::B => &self.b,
        }
    }

    /// What the lines of the script do to a side.
    pub fn lines(&self, side: Side) -> &SideFaults
        ensures { result.now ≡ lines_at side self.now }
    {
        match side {
            Side::A => &self.faults.a,
            Side::B => &self.faults.b,
        }
    }
}

// How many ticks there are of all three: as many as each has, in a run that came to its end.
fn count(trace: &Trace, run: &Run) -> u32
    ensures inputs { result ≤ length trace.now.inputs }
    ensures path { result ≤ length run.now.path.settled }
    ensures rounds { result ≤ length run.now.rounds }
    ensures small { result < 2 ^ 24 }
    ensures whole { length run.now.path.settled ≡ length trace.now.inputs → length run.now.rounds ≡ length trace.now.inputs
        → result ≡ length trace.now.inputs }
{
    let path = run.path();
    trace.len().min(path.len()).min(run.rounds())
}

// The tick after so many, at which the clauses saw and said this.
fn moment_after(script: &Script, run: &Run, at: u32, sight: Sight) -> Moment
    requires small { at < 2 ^ 24 }
    requires inputs { at < length script.now.inputs }
    requires path { at < length run.now.path.settled }
    requires rounds { at < length run.now.rounds }
    ensures { sight ≡ sight_after script.now.config (take (at + 1) script.now.inputs) → IsMoment script.now run.now (at + 1) result }
{
    Moment {
        tick: at + 1,
        settled: run.path().get(at + 1),
        a: run.turn(at + 1, Side::A),
        b: run.turn(at + 1, Side::B),
        sight,
        faults: script.trace().get(at + 1).faults,
    }
}

fn push(moments: &mut Vec<Moment>, moment: Moment) -> Result<(), NoMemory>
    ensures { OnOk result (moments.new.items ≡ moments.old.items ++ moment ∷ []) }
{
    moments.push(moment).map_err(|_| NoMemory)
}

/// The ticks of the run of a script, in order. `NoMemory`: there is no memory for them.
pub fn moments_of(alloc: Global, script: &Script, run: &Run) -> Result<Vec<Moment>, NoMemory>
    ensures moments { IfOk result (λ moments. AreMoments script.now run.now moments.items) }
    ensures small { IfOk result (λ moments. vec_len moments < 2 ^ 24) }
{
    let trace = script.trace();
    let mut watcher = Watcher::new(script.config());
    let mut moments = Vec::new(alloc);
    for at in 0..count(trace, run) {
        let sight = watcher.take(trace, at);
        push(&mut moments, moment_after(script, run, at, sight))?;
    }
    Ok(moments)
}
