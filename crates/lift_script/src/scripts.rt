// A script: what is asked of the controller.
ghost use Rattle.std.specs.Prelude.{◌≡◌, ◌<◌, ◌≤◌, ◌+◌, ◌++◌, [], ◌∷◌, length, replicate, vec_len, vec_capacity, IfOk, IfErr};
ghost use Rattle.core_model.specs.Schedule.{Tick};

use crate::steps::Step;
use lift_base::MOST_TICKS;
use lift_config::Config;
use lift_io::NoMemory;
use lift_trace::{Input, Trace};
use std::alloc::Global;
use std::marker::Model;

/// One step for each of `n` ticks of a line, where there is room for them.
fn push_ticks(steps: &mut Vec<Step>, line: u32, n: u32)
    requires { vec_len steps.old + n ≤ vec_capacity steps.old }
    ensures { steps.new.items ≡ steps.old.items ++ replicate n (record { line = line; act = Tick }) }
{
    for _ in 0..n {
        steps.push_reserved(Step::tick(line));
    }
}

/// What is asked: the settings, the inputs of the ticks, and, of a schedule, its steps.
#[derive(Drop)]
pub struct Script {
    config: Config,
    trace: Trace,
    steps: Vec<Step>,
}

impl Model for Script {
    ghost use Rattle.lift_base.specs.declared.limits.TheConstants.{MOST_TICKS};
    ghost use Rattle.std.specs.Prelude.{◌≡◌, ◌≤◌, length};
    ghost use Rattle.script_model.specs.Judging.{ScriptData};

    ghost Value = { ScriptData };

    ghost view = { λ s. record { config = s.config; inputs = s.trace.inputs; steps = s.steps.items } };

    ghost invariant = { λ s. (s.trace.room ≡ s.config.ticks) × (s.config.ticks ≤ MOST_TICKS) × (length s.trace.inputs ≤ s.config.ticks) };
}

impl Script {
    /// No tick so far, with room for those that the head says. `NoMemory`: there is no memory for them.
    pub fn open(alloc: Global, config: Config) -> Result<Script, NoMemory>
        ensures { IfOk result (λ script. script ≡ record { config = config; inputs = []; steps = [] }) }
    {
        let trace = Trace::open(alloc, config.ticks)?;
        let steps = Vec::new(alloc);
        Ok(Script {
            config,
            trace,
            steps,
        })
    }

    /// What the head says.
    pub fn config(&self) -> &Config
        ensures { result.now ≡ self.now.config }
    {
        &self.config
    }

    /// The inputs of the ticks.
    pub fn trace(&self) -> &Trace
        ensures { result.now.inputs ≡ self.now.inputs }
    {
        &self.trace
    }

    /// The steps of a schedule, in the order of their lines. A replay has none.
    pub fn steps(&self) -> &[Step]
        ensures { result.now ≡ self.now.steps }
    {
        &self.steps
    }

    /// How many more ticks the head allows.
    pub fn room(&self) -> u32
        ensures value { length self.now.inputs + result ≡ self.now.config.ticks }
        ensures few { self.now.config.ticks ≤ MOST_TICKS }
    {
        self.config.ticks - self.trace.len()
    }

    /// The input of one more tick, where the script has no steps: what is made so stays a replay.
    pub fn push(&mut self, input: Input)
        requires room { length self.old.inputs < self.old.config.ticks }
        requires no_steps { self.old.steps ≡ [] }
        ensures { self.new ≡ record self.old { inputs = self.old.inputs ++ input ∷ [] } }
    {
        self.push_input(input);
    }

    /// The input of one more tick. The steps stay as they are: those of a schedule's tick are pushed beside its input.
    pub fn push_input(&mut self, input: Input)
        requires { length self.old.inputs < self.old.config.ticks }
        ensures { self.new ≡ record self.old { inputs = self.old.inputs ++ input ∷ [] } }
    {
        self.trace.push(input);
    }

    /// One more step of a schedule. `NoMemory`: there is no memory for it.
    pub fn push_step(&mut self, step: Step) -> Result<(), NoMemory>
        ensures err { IfErr result (λ _. self.new ≡ self.old) }
        ensures ok { IfOk result (λ _. self.new ≡ record self.old { steps = self.old.steps ++ step ∷ [] }) }
    {
        self.steps.push(step).map_err(|_| NoMemory)
    }

    /// One step for each of `n` ticks of a line. `NoMemory`: there is no memory for them.
    pub fn push_ticks(&mut self, line: u32, n: u32) -> Result<(), NoMemory>
        ensures err { IfErr result (λ _. self.new ≡ self.old) }
        ensures ok { IfOk result (λ _. self.new
            ≡ record self.old { steps = self.old.steps ++ replicate n (record { line = line; act = Tick }) }) }
    {
        if self.steps.reserve(n as usize).is_err() {
            return Err(NoMemory);
        }
        push_ticks(&mut self.steps, line, n);
        Ok(())
    }
}
