// The script of a single fault (own).
ghost use Rattle.std.specs.Prelude.{◌≡◌, ◌≤◌, Bool, List, IfOk};
ghost use Rattle.script_model.specs.Faults.{all_stand};
ghost use Rattle.script_model.specs.Rules.{KeepsRules};
ghost use Rattle.script_model.specs.Valid.{MayFollow};
ghost use Rattle.fault_plan.specs.Made.{script_with};

use crate::doing::faults_in;
use crate::single::SingleFault;
use crate::words::TickWords;
use lift_io::NoMemory;
use lift_script::Script;
use lift_trace::Input;
use std::alloc::Global;

/// The script with the faults of this one in place of its own, where these are the words of the run without a fault. Nothing else is
/// changed, and the script keeps the rules of faults, for any crew. `NoMemory`: there is no memory for it.
pub fn with_fault(
    alloc: Global,
    script: &Script,
    words: &[TickWords],
    fault: SingleFault,
) -> Result<Script, NoMemory>
    requires { 1 ≤ fault.tick }
    ensures script { IfOk result (λ made. made ≡ script_with words.now fault script.now) }
    ensures rules { (places : List Bool) → IfOk result (KeepsRules places) }
    ensures follow { (places : List Bool) → IfOk result (λ made. MayFollow (all_stand places) made.inputs) }
{
    let mut made = match Script::open(alloc, *script.config()) {
        Ok(made) => made,
        Err(_) => return Err(NoMemory),
    };
    let _room = script.room();
    for n in 0..script.trace().len() {
        let input = script.trace().get(n + 1);
        made.push(Input {
            frames: input.frames.copy(),
            a: input.a,
            b: input.b,
            truth: input.truth,
            faults: faults_in(words, fault, n + 1),
        });
    }
    Ok(made)
}
