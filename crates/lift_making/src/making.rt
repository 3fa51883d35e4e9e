// What a command makes of a script, before any of it is shown (own).
ghost use Rattle.std.specs.Prelude.{◌≡◌, List, Option, IfOk};
ghost use Rattle.lift_model.specs.Plans.{Plan};
ghost use Rattle.saboteur.specs.Held.{places_in, plans_of};
ghost use Rattle.script_model.specs.Rules.{KeepsRules};
ghost use Rattle.lift_front.specs.Commands.{IsInBounds};
ghost use Rattle.lift_making.specs.Jobs.{job_of};
ghost use Rattle.lift_making.specs.Ways.{Suits};
ghost use Rattle.lift_making.specs.Making.{CanShow, Makes};

use crate::level::level;
use crate::rounds::run_rounds;
use crate::schedule::{Played, play_script};
use event_record::Record;
use level_guard::Supplies;
use lift_front::Command;
use lift_io::NoMemory;
use lift_run::Run;
use lift_script::Script;
use node_sim::{Audit, audit_run};
use report::fill;
use saboteur::Crew;
use std::alloc::Global;
use std::thread::Threads;

/// What is shown of a run.
#[derive(Drop)]
pub enum Page {
    /// The report of its path.
    Report,
    /// A line for each round.
    Rounds,
    /// What an audit says of it.
    Audit(Audit),
    /// The changes of its path that a record has kept.
    Last(Record),
    /// The counts of its path, with the number that its script was generated from.
    Summary(u32),
    /// What was given at each tick of its path.
    Supplies(Supplies),
}

/// What a command made of a script. All memory of the run and of its page was taken first.
#[derive(Drop)]
pub struct Made {
    /// The run that is handed back.
    pub run: Run,
    /// The line of the first step that was not possible.
    pub stopped_at: Option<u32>,
    pub page: Page,
}

fn replay<R: Threads>(rt: &R, alloc: Global, script: Script, crew: Crew) -> Result<Made, NoMemory>
    requires { KeepsRules (places_in (plans_of plan crew)) script }
    ensures makes { IfOk result (λ made. Makes (job_of (plans_of plan crew) Command.Replay) script made) }
    ensures shown { IfOk result (λ made. CanShow made.page made.run) }
{
    Ok(Made {
        run: run_rounds(rt, alloc, script, crew)?.into_run(),
        stopped_at: None,
        page: Page::Report,
    })
}

fn rounds<R: Threads>(rt: &R, alloc: Global, script: Script, crew: Crew) -> Result<Made, NoMemory>
    requires { KeepsRules (places_in (plans_of plan crew)) script }
    ensures makes { IfOk result (λ made. Makes (job_of (plans_of plan crew) Command.Rounds) script made) }
    ensures shown { IfOk result (λ made. CanShow made.page made.run) }
{
    Ok(Made {
        run: run_rounds(rt, alloc, script, crew)?.into_run(),
        stopped_at: None,
        page: Page::Rounds,
    })
}

fn audit<R: Threads>(rt: &R, alloc: Global, script: Script, crew: Crew) -> Result<Made, NoMemory>
    requires { KeepsRules (places_in (plans_of plan crew)) script }
    ensures makes { IfOk result (λ made. Makes (job_of (plans_of plan crew) Command.Audit) script made) }
    ensures shown { IfOk result (λ made. CanShow made.page made.run) }
{
    let engine = run_rounds(rt, alloc, script, crew)?;
    let audit = audit_run(engine.script(), engine.run().path());
    Ok(Made {
        run: engine.into_run(),
        stopped_at: None,
        page: Page::Audit(audit),
    })
}

// The record too is opened before the first tick.
fn last<R: Threads>(
    rt: &R,
    alloc: Global,
    number: u32,
    script: Script,
    crew: Crew,
) -> Result<Made, NoMemory>
    requires bounds { IsInBounds (Command.Last number) }
    requires rules { KeepsRules (places_in (plans_of plan crew)) script }
    ensures makes { IfOk result (λ made. Makes (job_of (plans_of plan crew) (Command.Last number)) script made) }
    ensures shown { IfOk result (λ made. CanShow made.page made.run) }
{
    let mut last = Record::open(alloc, number)?;
    let engine = run_rounds(rt, alloc, script, crew)?;
    let run = engine.into_run();
    fill(run.path(), &mut last);
    Ok(Made {
        run,
        stopped_at: None,
        page: Page::Last(last),
    })
}

fn load<R: Threads>(
    rt: &R,
    alloc: Global,
    number: u32,
    script: Script,
    crew: Crew,
) -> Result<Made, NoMemory>
    requires { KeepsRules (places_in (plans_of plan crew)) script }
    ensures makes { IfOk result (λ made. Makes (job_of (plans_of plan crew) (Command.Load number)) script made) }
    ensures shown { IfOk result (λ made. CanShow made.page made.run) }
{
    Ok(Made {
        run: run_rounds(rt, alloc, script, crew)?.into_run(),
        stopped_at: None,
        page: Page::Summary(number),
    })
}

fn schedule(alloc: Global, script: &Script) -> Result<Made, NoMemory>
    ensures makes { (crew : List (Option Plan)) → IfOk result (λ made. Makes (job_of crew Command.Schedule) script.now made) }
    ensures shown { IfOk result (λ made. CanShow made.page made.run) }
{
    let Played { path, stopped_at } = play_script(alloc, script)?;
    Ok(Made {
        run: Run::of_path(alloc, path),
        stopped_at,
        page: Page::Report,
    })
}

/// Runs a script by a command that shows it. `store` needs a disk, and has a way of its own (`store_script`).
pub fn make<R: Threads>(
    rt: &R,
    alloc: Global,
    command: Command,
    script: Script,
    crew: Crew,
) -> Result<Made, NoMemory>
    requires shows { command ≡ Command.Store → ⊥ }
    requires bounds { IsInBounds command }
    requires suits { Suits (job_of (plans_of plan crew) command).way script }
    ensures makes { IfOk result (λ made. Makes (job_of (plans_of plan crew) command) script made) }
    ensures shown { IfOk result (λ made. CanShow made.page made.run) }
{
    match command {
        Command::Replay => replay(rt, alloc, script, crew),
        Command::Rounds => rounds(rt, alloc, script, crew),
        Command::Audit => audit(rt, alloc, script, crew),
        Command::Last(number) => last(rt, alloc, number, script, crew),
        Command::Load(number) => load(rt, alloc, number, script, crew),
        Command::Level => level(rt, alloc, script, crew),
        Command::Schedule => schedule(alloc, &script),
        Command::Simulate(_) => replay(rt, alloc, script, crew),
        Command::Store => unreachable!(),
    }
}
