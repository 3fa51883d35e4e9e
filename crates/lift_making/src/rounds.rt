// Runs a script on two threads, one round a tick, from its first tick to its last (own).
ghost use Rattle.std.specs.Prelude.{◌≡◌, List, Option, None, length, IfOk};
ghost use Rattle.lift_model.specs.Plans.{Plan};
ghost use Rattle.replay_engine.specs.Engines.{Stands, script_of, ticks_run, run_of};
ghost use Rattle.saboteur.specs.Held.{places_in, plans_of};
ghost use Rattle.script_model.specs.Judging.{ScriptData};
ghost use Rattle.script_model.specs.Rules.{KeepsRules};
ghost use Rattle.lift_making.specs.Jobs.{ByRounds};
ghost use Rattle.lift_making.specs.Ways.{RunOf};

use lift_io::NoMemory;
use lift_run::Run;
use lift_script::Script;
use replay_engine::Engine;
use saboteur::Crew;
use std::alloc::Global;
use std::thread::Threads;

/// The run of an engine before its first tick. It takes no memory.
pub fn run_opened<R: Threads>(rt: &R, mut engine: Engine) -> Run
    requires { ticks_run engine ≡ 0 }
    ensures ran { (script : ScriptData) (plans : List (Option Plan)) → Stands plan engine script plans
        → RunOf (ByRounds plans) script None result.rounds result.path.settled }
    ensures rounds { length result.rounds ≡ length result.path.settled }
    ensures ticks { length result.path.settled ≡ length (script_of engine).inputs }
{
    engine.run_all(rt);
    engine.into_run()
}

/// An engine that has run this whole script, with this crew. All its memory is taken before the first tick.
pub fn run_rounds<R: Threads>(
    rt: &R,
    alloc: Global,
    script: Script,
    crew: Crew,
) -> Result<Engine, NoMemory>
    requires { KeepsRules (places_in (plans_of plan crew)) script }
    ensures script { IfOk result (λ engine. script_of engine ≡ script) }
    ensures ran { IfOk result (λ engine. RunOf (ByRounds (plans_of plan crew)) script None (run_of engine).rounds
        (run_of engine).path.settled) }
{
    let mut engine = Engine::open(alloc, script, crew)?;
    engine.run_all(rt);
    Ok(engine)
}
