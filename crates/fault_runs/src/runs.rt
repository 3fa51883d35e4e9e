// The runs of a script: on the core in one order of the looks, and on two threads (own).
ghost use Rattle.std.specs.Prelude.{◌≡◌, ◌∷◌, [], ◌++◌, IfOk, OnOk};
ghost use Rattle.channel_masks.specs.StandsFor.{StandsFor as MaskStands};
ghost use Rattle.channel_walker.specs.StandsFor.{StandsFor as WalkerStands};
ghost use Rattle.lift_core.specs.Parts.{state_of};
ghost use Rattle.lift_core.specs.StandsFor.{StandsFor};
ghost use Rattle.round_model.specs.Lawful.{IsLawful};
ghost use Rattle.script_model.specs.Rules.{KeepsRules};
ghost use Rattle.fault_runs.specs.Rounds.{IsCoreRun, words_at};

use crate::looks::Looks;
use crate::no_run::NoRun;
use crate::rounds::take_round;
use channel_masks::MaskChannel;
use channel_walker::WalkerChannel;
use contactor_pair::Path;
use fault_plan::{SideWords, TickWords};
use lift_config::Config;
use lift_core::Core;
use lift_run::Run;
use lift_script::Script;
use replay_engine::Engine;
use saboteur::Crew;
use std::alloc::Global;
use std::thread::Threads;

/// The core with both channels: side A has a `MaskChannel`, B a `WalkerChannel`.
type LiftCore = Core<MaskChannel, WalkerChannel>;

fn open_core(alloc: Global, config: Config) -> Result<LiftCore, NoRun>
    ensures { IfOk result (λ core. StandsFor MaskStands WalkerStands core config []) }
{
    let a = MaskChannel::new(&config);
    let b = WalkerChannel::new(&config);
    match Core::open(alloc, config, a, b) {
        Ok(core) => Ok(core),
        Err(_) => Err(NoRun::NoMemory),
    }
}

// The words that the sides have stored.
fn tick_words(core: &LiftCore) -> TickWords
    ensures { result ≡ words_at (state_of core.now) }
{
    let words = core.words();
    TickWords {
        a: SideWords {
            publish: words.publish_a,
            command: words.command_a,
        },
        b: SideWords {
            publish: words.publish_b,
            command: words.command_b,
        },
    }
}

/// A run on the core.
#[derive(Drop)]
pub struct CoreRun {
    /// What each tick settled.
    pub path: Path,
    /// The words that the sides had stored as each tick ended.
    pub words: Vec<TickWords>,
}

fn push(words: &mut Vec<TickWords>, now: TickWords) -> Result<(), NoRun>
    ensures { OnOk result (words.new.items ≡ words.old.items ++ now ∷ []) }
{
    words.push(now).map_err(|_| NoRun::NoMemory)
}

/// The run of a script on the core, in this order of the looks.
pub fn core_run(alloc: Global, script: &Script, looks: Looks) -> Result<CoreRun, NoRun>
    ensures { IfOk result (λ run. IsCoreRun script.now.config looks script.now.inputs run.path.settled run.words.items) }
{
    let config = *script.config();
    let mut core = open_core(alloc, config)?;
    let mut words = Vec::new(alloc);
    for before in 0..script.trace().len() {
        let input = script.trace().get(before + 1);
        take_round(&mut core, &config, input, looks)?;
        push(&mut words, tick_words(&core))?;
    }
    Ok(CoreRun {
        path: core.into_path(),
        words,
    })
}

/// The run of a script on two threads, without objects.
pub fn thread_run<R: Threads>(rt: &R, alloc: Global, script: Script) -> Result<Run, NoRun>
    requires { KeepsRules [] script }
    ensures { IfOk result (λ run. IsLawful script.config [] script.inputs run.rounds run.path.settled) }
{
    let crew = Crew::of(Vec::new(alloc));
    let mut engine = match Engine::open(alloc, script, crew) {
        Ok(engine) => engine,
        Err(_) => return Err(NoRun::NoMemory),
    };
    engine.run_all(rt);
    Ok(engine.into_run())
}
