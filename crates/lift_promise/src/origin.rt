// Where the script of a command comes from: the text of the source, or the command itself (own).
ghost use Rattle.std.specs.Prelude.{◌≡◌, Bool, List, MatchResult};
ghost use Rattle.saboteur.specs.Held.{plans_of};
ghost use Rattle.script_model.specs.Generated.{generated};
ghost use Rattle.script_model.specs.Rules.{KeepsRules};
ghost use Rattle.node_sim.specs.Laws.{Serves};
ghost use Rattle.node_sim.specs.Produced.{produced_script};
ghost use Rattle.lift_front.specs.Calls.{call};
ghost use Rattle.lift_front.specs.Commands.{IsInBounds};
ghost use Rattle.lift_front.specs.Scripts.{NotRead};
ghost use Rattle.lift_making.specs.Jobs.{job_of};
ghost use Rattle.lift_making.specs.Making.{IsFor, IsNotMade};
ghost use Rattle.lift_making.specs.Ways.{Suits};

use lift_base::Form;
use lift_front::{Command, Fault, read};
use lift_io::{NoMemory, Source};
use lift_script::Script;
use node_sim::{load_script, produce};
use saboteur::Crew;
use std::alloc::Global;

fn generate(alloc: Global, number: u32) -> Result<Script, Fault>
    ensures { MatchResult result (λ script. (script ≡ generated number) × ((places : List Bool) → KeepsRules places script))
        (λ fault. fault ≡ Fault.Memory) }
{
    match load_script(alloc, number) {
        Ok(script) => Ok(script),
        Err(NoMemory) => Err(Fault::Memory),
    }
}

// The script that the producers of this cycle make of a simulation, where a pair counts until the next of its source is whole.
fn produced(alloc: Global, script: &Script, cycle: u32) -> Result<Script, Fault>
    requires { IsInBounds (Command.Simulate cycle) }
    ensures { MatchResult result (λ made. Serves script.now.config cycle × (made ≡ produced_script cycle script.now))
        (λ fault. IsNotMade fault cycle script.now) }
{
    script.config().known();
    if cycle > script.config().sct + 1 {
        return Err(Fault::Cycle);
    }
    match produce(alloc, script, cycle) {
        Ok(made) => Ok(made),
        Err(NoMemory) => Err(Fault::Memory),
    }
}

// The same of the simulation that the text of the source means for this crew.
fn simulate<S: Source>(
    alloc: Global,
    cycle: u32,
    crew: &Crew,
    source: &mut S,
) -> Result<Script, Fault>
    requires { IsInBounds (Command.Simulate cycle) }
    ensures { let told = call S.left S.faults source.old source.new in let job = job_of (plans_of plan crew.now) (Command.Simulate cycle) in
        MatchResult result (λ script. IsFor job script told × Suits job.way script) (λ fault. NotRead job.origin fault told) }
{
    match read(alloc, Form::Simulate, crew, source) {
        Ok(script) => produced(alloc, &script, cycle),
        Err(fault) => Err(fault),
    }
}

/// The script of a command, with this crew. `load N` reads nothing.
pub fn script_of<S: Source>(
    alloc: Global,
    command: Command,
    crew: &Crew,
    source: &mut S,
) -> Result<Script, Fault>
    requires { IsInBounds command }
    ensures { let told = call S.left S.faults source.old source.new in let job = job_of (plans_of plan crew.now) command in
        MatchResult result (λ script. IsFor job script told × Suits job.way script) (λ fault. NotRead job.origin fault told) }
{
    match command {
        Command::Replay
        | Command::Rounds
        | Command::Audit
        | Command::Last(_)
        | Command::Level
        | Command::Store => read(alloc, Form::Replay, crew, source),
        Command::Load(number) => generate(alloc, number),
        Command::Schedule => read(alloc, Form::Schedule, crew, source),
        Command::Simulate(cycle) => simulate(alloc, cycle, crew, source),
    }
}
