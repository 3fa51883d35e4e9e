// The inputs so far, as runs of equal ones: of each run one input and its first tick are kept, and of each tick the number of its
// run. A contract sees the list of the inputs, the first being that of tick 1, and the room.
ghost use Rattle.std.specs.Prelude.{◌≡◌, ◌<◌, ◌≤◌, ◌-◌, ◌^◌, [], ◌∷◌, ◌++◌, length, slice_get, Some, IfOk, Decides};
ghost use Rattle.lift_model.specs.Records.{InputData};
ghost use Rattle.lift_trace.specs.Runs.{IsRunEnd, AreRuns};

use crate::Input;
use crate::equal::is_equal;
use lift_io::NoMemory;
use std::alloc::Global;
use std::marker::Model;

/// Ticks in a row with equal inputs.
#[derive(Drop)]
struct Run {
    input: Input,
    first: u32,
}

// A trace takes this much of its room for each tick: a full one of 200,000 ticks takes less than 68 MB.
const _: () = prove!(size_of::<Run>() + size_of::<u32>() <= 340);

/// The inputs so far, the first of them that of tick 1.
#[derive(Drop)]
pub struct Trace {
    runs: Vec<Run>,
    /// Of each tick the number of its run, from 0.
    run_of: Vec<u32>,
    room: u32,
}

impl Model for Trace {
    ghost use Rattle.std.specs.Prelude.{length, ◌≤◌, ◌<◌, ◌^◌, vec_capacity};
    ghost use Rattle.lift_model.specs.Records.{TraceData};
    ghost use Rattle.lift_trace.specs.Kept.{AreKept, inputs_of};

    ghost Value = { TraceData };

    ghost view = { λ t. record { inputs = inputs_of t.runs.items t.run_of.items; room = t.room } };

    ghost invariant = { λ t. AreKept t.runs.items t.run_of.items × (length t.run_of.items ≤ t.room)
        × (t.room ≤ vec_capacity t.runs) × (t.room ≤ vec_capacity t.run_of) × (t.room < 2 ^ 24) };
}

impl Trace {
    /// An empty trace with room for that many ticks, all of it taken now.
    pub fn open(alloc: Global, ticks: u32) -> Result<Trace, NoMemory>
        requires { ticks < 2 ^ 24 }
        ensures { IfOk result (λ trace. trace ≡ record { inputs = []; room = ticks }) }
    {
        let runs = Vec::with_capacity(alloc, ticks as usize);
        let run_of = Vec::with_capacity(alloc, ticks as usize);
        match (runs, run_of) {
            (Ok(runs), Ok(run_of)) => Ok(Trace {
                runs,
                run_of,
                room: ticks,
            }),
            _ => Err(NoMemory),
        }
    }

    /// Whether the last input is equal to this one.
    fn goes_on(&self, input: &Input) -> bool
        ensures { Decides result (slice_get self.now.inputs (length self.now.inputs - 1) ≡ Some input.now) }
    {
        let runs = self.runs.len();
        runs > 0 && is_equal(&self.runs[runs - 1].input, input)
    }

    /// One tick more of the last run.
    fn go_on(&mut self)
        requires some { 0 < length self.old.inputs }
        requires room { length self.old.inputs < self.old.room }
        ensures { (last : InputData) → slice_get self.old.inputs (length self.old.inputs - 1) ≡ Some last
            → self.new ≡ record { inputs = self.old.inputs ++ last ∷ []; room = self.old.room } }
    {
        let run = self.runs.len() - 1;
        self.run_of.push_reserved(run as u32);
    }

    /// The first tick of a new run.
    fn start(&mut self, input: Input)
        requires room { length self.old.inputs < self.old.room }
        requires differs { ¬ (slice_get self.old.inputs (length self.old.inputs - 1) ≡ Some input) }
        ensures { self.new ≡ record { inputs = self.old.inputs ++ input ∷ []; room = self.old.room } }
    {
        let run = self.runs.len();
        let first = self.len() + 1;
        self.runs.push_reserved(Run { input, first });
        self.run_of.push_reserved(run as u32);
    }

    /// The input of the next tick. Takes no memory.
    pub fn push(&mut self, input: Input)
        requires { length self.old.inputs < self.old.room }
        ensures { self.new ≡ record { inputs = self.old.inputs ++ input ∷ []; room = self.old.room } }
    {
        if self.goes_on(&input) {
            self.go_on();
        } else {
            self.start(input);
        }
    }

    /// The input of the next tick, by a copy of it. None is made where it is equal to the last one. Takes no memory.
    pub fn push_copy(&mut self, input: &Input)
        requires { length self.old.inputs < self.old.room }
        ensures { self.new ≡ record { inputs = self.old.inputs ++ input.now ∷ []; room = self.old.room } }
    {
        if self.goes_on(input) {
            self.go_on();
        } else {
            self.start(input.copy());
        }
    }

    /// How many ticks have their input.
    pub fn len(&self) -> u32
        ensures value { result ≡ length self.now.inputs }
        ensures fits { result ≤ self.now.room }
        ensures small { self.now.room < 2 ^ 24 }
    {
        self.run_of.len() as u32
    }

    /// The input of tick `n`, from 1.
    pub fn get(&self, n: u32) -> &Input
        requires first { 1 ≤ n }
        requires last { n ≤ length self.now.inputs }
        ensures { Some result.now ≡ slice_get self.now.inputs (n - 1) }
    {
        &self.runs[self.run_of[n as usize - 1] as usize].input
    }

    /// The last tick of the run of tick `n`, from 1: the greatest up to which the inputs from `n` on are equal.
    pub fn run_end(&self, n: u32) -> u32
        requires first { 1 ≤ n }
        requires last { n ≤ length self.now.inputs }
        ensures { IsRunEnd self.now.inputs n result }
    {
        let next = self.run_of[n as usize - 1] as usize + 1;
        if next < self.runs.len() {
            self.runs[next].first - 1
        } else {
            self.len()
        }
    }

    /// How many runs there are: ticks that are the first, or whose input differs from that of the tick before.
    pub fn runs(&self) -> u32
        ensures { AreRuns self.now.inputs result }
    {
        self.runs.len() as u32
    }
}
