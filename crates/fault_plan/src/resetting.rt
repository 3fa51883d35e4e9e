// The script with an authorised reset (own).
ghost use Rattle.std.specs.Prelude.{◌≡◌, ◌==◌, if◌then◌else◌, bit_and, bit_or, IfOk};
ghost use Rattle.fault_plan.specs.Made.{reset_made, script_reset};

use lift_base::RESET;
use lift_io::NoMemory;
use lift_script::Script;
use lift_trace::Input;
use std::alloc::Global;

/// The reset's bit in the words of the wires.
const BIT: u16 = 1 << RESET;

fn input_at(input: &Input, made: bool) -> Input
    ensures { result ≡ (if made then record input.now { words = reset_made input.now.words } else input.now) }
{
    let mut copy = input.copy();
    if made {
        copy.a = copy.a | BIT;
        copy.b = copy.b & !BIT;
    }
    copy
}

/// The script with the authorised reset made in this tick. Nothing else is changed. `NoMemory`: there is no memory for it.
pub fn with_reset(alloc: Global, script: &Script, tick: u32) -> Result<Script, NoMemory>
    ensures { IfOk result (λ made. made ≡ script_reset tick script.now) }
{
    let mut made = match Script::open(alloc, *script.config()) {
        Ok(made) => made,
        Err(_) => return Err(NoMemory),
    };
    let _room = script.room();
    for n in 0..script.trace().len() {
        let input = script.trace().get(n + 1);
        made.push(input_at(input, n + 1 == tick));
    }
    Ok(made)
}
