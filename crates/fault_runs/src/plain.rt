// A script without a fault, its usual run, and the script and the lines of each single fault over it (own).
ghost use Rattle.std.specs.Prelude.{◌≡◌, ◌≤◌, false, [], length, slice_get, Decides, IfErr, IfOk, Some};
ghost use Rattle.script_model.specs.Faults.{no_faults};
ghost use Rattle.script_model.specs.Rules.{KeepsRules};
ghost use Rattle.fault_plan.specs.Listed.{single_faults};
ghost use Rattle.fault_plan.specs.Made.{script_reset, script_with};
ghost use Rattle.fault_runs.specs.Plain.{HasNoFaults, IsFaulted, IsFaultScript, KnowsRun, reset_after};

use crate::grants::granted_kinds;
use crate::lines::{Line, line_of};
use crate::looks::{ALL_LOOKS, Looks};
use crate::no_run::NoRun;
use crate::runs::{CoreRun, core_run, thread_run};
use contactor_pair::Path;
use fault_plan::{SingleFault, What, count, fault_at, with_fault, with_reset};
use lift_base::Kind;
use lift_script::{Script, no_faults};
use lift_trace::Faults;
use std::alloc::Global;
use std::thread::Threads;

/// How many ticks after an exchange the reset is made. Both contactors are open by then.
const RESET_AFTER: u32 = 10;

/// Which runs of a fault are asked for.
#[derive(Clone, Copy, Debug, PartialEq, Eq)]
pub enum Runs {
    /// Those on the core.
    Core,
    /// Those on the core, and the one on two threads.
    All,
}

/// A fault, and what its runs show.
#[derive(Drop)]
pub struct FaultLines {
    pub fault: SingleFault,
    /// On the core, for each of `ALL_LOOKS`.
    pub core: [Line; 3],
    /// On two threads, where that was asked for.
    pub threads: Option<Line>,
}

/// A script without a fault, with what its run shows.
#[derive(Drop)]
pub struct Plain {
    script: Script,
    usual: CoreRun,
    kinds: Vec<Kind>,
}

fn are_none(faults: &Faults) -> bool
    ensures { Decides result (faults.now ≡ no_faults) }
{
    *faults == no_faults()
}

// No line of the script gives a side a fault.
fn is_faultless(script: &Script) -> bool
    ensures { Decides result (HasNoFaults script.now.inputs) }
{
    for before in 0..script.trace().len() {
        if !are_none(&script.trace().get(before + 1).faults) {
            return false;
        }
    }
    true
}

// The tick of the reset that belongs to a fault.
fn reset_of(fault: SingleFault) -> Option<u32>
    ensures { result ≡ reset_after fault.tick fault.what }
{
    match fault.what {
        What::ExchangedAndReset(after) => Some(
            fault.tick.saturating_add(after).saturating_add(RESET_AFTER),
        ),
        _ => None,
    }
}

impl Plain {
    fn of(alloc: Global, script: Script) -> Result<Plain, NoRun>
        ensures script { IfOk result (λ plain. plain.script ≡ script) }
        ensures knows { IfOk result KnowsRun }
    {
        let usual = core_run(alloc, &script, Looks::BothNew)?;
        let kinds = granted_kinds(alloc, &script).map_err(|_| NoRun::NoMemory)?;
        Ok(Plain {
            script,
            usual,
            kinds,
        })
    }

    /// The script has no line that gives a side a fault.
    pub fn open(alloc: Global, script: Script) -> Result<Plain, NoRun>
        ensures script { IfOk result (λ plain. plain.script ≡ script) }
        ensures faultless { IfOk result (λ plain. HasNoFaults script.inputs) }
        ensures knows { IfOk result KnowsRun }
    {
        if is_faultless(&script) {
            Plain::of(alloc, script)
        } else {
            Err(NoRun::HasFaults)
        }
    }

    /// How many single faults there are.
    pub fn count(&self) -> u64
        ensures { result ≡ length (single_faults (length self.now.script.inputs)) }
    {
        count(self.script.trace().len())
    }

    fn fault(&self, index: u64) -> Result<SingleFault, NoRun>
        ensures value { IfOk result (λ fault. slice_get (single_faults (length self.now.script.inputs)) index ≡ Some fault) }
        ensures from { IfOk result (λ fault. 1 ≤ fault.tick) }
    {
        let _few = self.script.room();
        match fault_at(self.script.trace().len(), index) {
            Some(fault) => Ok(fault),
            None => Err(NoRun::NoFault),
        }
    }

    fn with_reset(&self, alloc: Global, tick: u32) -> Result<Plain, NoRun>
        ensures script { IfOk result (λ plain. plain.script ≡ script_reset tick self.now.script) }
        ensures knows { IfOk result KnowsRun }
    {
        let script = with_reset(alloc, &self.script, tick).map_err(|_| NoRun::NoMemory)?;
        Plain::of(alloc, script)
    }

    fn script_of(&self, alloc: Global, fault: SingleFault) -> Result<Script, NoRun>
        requires { 1 ≤ fault.tick }
        ensures script { IfOk result (λ made. made ≡ script_with self.now.usual.words.items fault self.now.script) }
        ensures rules { IfOk result (KeepsRules []) }
    {
        match with_fault(alloc, &self.script, &self.usual.words, fault) {
            Ok(script) => Ok(script),
            Err(_) => Err(NoRun::NoMemory),
        }
    }

    /// The script of the fault with this number, from 0.
    pub fn script(&self, alloc: Global, index: u64) -> Result<Script, NoRun>
        ensures script { KnowsRun self.now → IfOk result (IsFaultScript self.now.script index) }
        ensures rules { IfOk result (KeepsRules []) }
    {
        let fault = self.fault(index)?;
        match reset_of(fault) {
            Some(tick) => self.with_reset(alloc, tick)?.script_of(alloc, fault),
            None => self.script_of(alloc, fault),
        }
    }

    fn core_line(
        &self,
        alloc: Global,
        script: &Script,
        fault: SingleFault,
        looks: Looks,
    ) -> Result<Line, NoRun> {
        let run = core_run(alloc, script, looks)?;
        Ok(line_of(&run.path, &self.usual.path, &self.kinds, fault.tick))
    }

    fn thread_line<R: Threads>(
        &self,
        rt: &R,
        alloc: Global,
        script: Script,
        fault: SingleFault,
    ) -> Result<Line, NoRun>
        requires { KeepsRules [] script }
    {
        let run = thread_run(rt, alloc, script)?;
        Ok(line_of(run.path(), &self.usual.path, &self.kinds, fault.tick))
    }

    fn lines_of<R: Threads>(
        &self,
        rt: &R,
        alloc: Global,
        fault: SingleFault,
        runs: Runs,
    ) -> Result<FaultLines, NoRun>
        requires { 1 ≤ fault.tick }
    {
        let script = self.script_of(alloc, fault)?;
        let [first, second, third] = ALL_LOOKS;
        let core = [
            self.core_line(alloc, &script, fault, first)?,
            self.core_line(alloc, &script, fault, second)?,
            self.core_line(alloc, &script, fault, third)?,
        ];
        let threads = match runs {
            Runs::Core => None,
            Runs::All => Some(self.thread_line(rt, alloc, script, fault)?),
        };
        Ok(FaultLines {
            fault,
            core,
            threads,
        })
    }

    /// The fault with this number, from 0, and what its runs show.
    pub fn lines<R: Threads>(
        &self,
        rt: &R,
        alloc: Global,
        index: u64,
        runs: Runs,
    ) -> Result<FaultLines, NoRun> {
        let fault = self.fault(index)?;
        match reset_of(fault) {
            Some(tick) => self
                .with_reset(alloc, tick)?
                .lines_of(rt, alloc, fault, runs),
            None => self.lines_of(rt, alloc, fault, runs),
        }
    }
}
