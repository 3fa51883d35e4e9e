// A replay with the levelling gate over it: two guards go over the inputs of the script, and the gate over the path (own).
ghost use Rattle.std.specs.Prelude.{◌≡◌, ◌≤◌, [], length, IfOk};
ghost use Rattle.core_model.specs.Supplies.{supplies_of};
ghost use Rattle.saboteur.specs.Held.{places_in, plans_of};
ghost use Rattle.script_model.specs.Rules.{KeepsRules};
ghost use Rattle.lift_making.specs.Jobs.{job_of};
ghost use Rattle.lift_making.specs.Making.{CanShow, Makes};

use crate::guards::Guards;
use crate::making::{Made, Page};
use crate::rounds::run_rounds;
use contactor_pair::Path;
use level_guard::Supplies;
use lift_front::Command;
use lift_io::NoMemory;
use lift_script::Script;
use saboteur::Crew;
use std::alloc::Global;
use std::thread::Threads;

/// What is given at each tick of a path of this script. It takes no memory.
fn give_over(script: &Script, path: &Path, supplies: &mut Supplies)
    requires inputs { length path.now.settled ≤ length script.now.inputs }
    requires empty { supplies.old.given ≡ [] }
    requires room { length path.now.settled ≤ supplies.old.room }
    ensures { supplies.new.given ≡ supplies_of script.now.config script.now.inputs path.now.settled }
{
    let mut guards = Guards::new(script.config());
    guards.give(script.trace(), path, supplies);
}

/// Runs a replay, and the gate over its path. All memory is taken before the first tick.
pub fn level<R: Threads>(
    rt: &R,
    alloc: Global,
    script: Script,
    crew: Crew,
) -> Result<Made, NoMemory>
    requires { KeepsRules (places_in (plans_of plan crew)) script }
    ensures makes { IfOk result (λ made. Makes (job_of (plans_of plan crew) Command.Level) script made) }
    ensures shown { IfOk result (λ made. CanShow made.page made.run) }
{
    let mut supplies = Supplies::open(alloc, script.trace().len())?;
    let engine = run_rounds(rt, alloc, script, crew)?;
    give_over(engine.script(), engine.run().path(), &mut supplies);
    Ok(Made {
        run: engine.into_run(),
        stopped_at: None,
        page: Page::Supplies(supplies),
    })
}
