// The script that a log stands for, made tick by tick (own).
ghost use Rattle.std.specs.Prelude.{◌≡◌, ◌≤◌, length, drop, IfOk};
ghost use Rattle.lift_base.specs.declared.limits.TheConstants.{MOST_FRAMES};
ghost use Rattle.can_log.specs.Ahead.{front};
ghost use Rattle.can_log.specs.Scripts.{script_of};

use crate::log::{Log, Taken};
use crate::wires::{WireRow, Wires};
use lift_base::SOURCES;
use lift_config::Config;
use lift_io::NoMemory;
use lift_script::{Script, no_faults};
use lift_trace::{Frames, Input};
use std::alloc::Global;

/// The frames of a tick that stand in front.
fn front(taken: &[Taken], n: u32) -> Frames
    requires { length (front n taken.now) ≤ MOST_FRAMES }
    ensures { result ≡ front n taken.now }
{
    let mut frames = Frames::new();
    for t in taken {
        if t.tick != n {
            return frames;
        }
        frames.push(t.frame);
    }
    frames
}

/// Those behind the first few.
fn behind(ahead: &[Taken], count: usize) -> &[Taken]
    requires { count ≤ length ahead.now }
    ensures { result.now ≡ drop count ahead.now }
{
    &ahead[count..]
}

/// The script of a log under a head, with the words of the wires by these rows. The head has room for its ticks. `NoMemory`: there is
/// no memory for it.
pub fn make_script(
    alloc: Global,
    config: Config,
    log: &Log,
    rows: &[WireRow],
) -> Result<Script, NoMemory>
    requires { log.now.ticks ≤ config.ticks }
    ensures { IfOk result (λ script. script ≡ script_of config log.now rows.now) }
{
    let mut made = match Script::open(alloc, config) {
        Ok(made) => made,
        Err(_) => return Err(NoMemory),
    };
    let (first, tick) = (log.first(), log.tick());
    let mut ahead = log.taken();
    let mut wires = Wires { a: 0, b: 0, rows };
    for n in 0..log.ticks() {
        let frames = front(ahead, n + 1);
        ahead = behind(ahead, frames.len());
        wires = wires.go_on(first, tick, n + 1);
        made.push(Input {
            frames,
            a: wires.a,
            b: wires.b,
            truth: [0; SOURCES],
            faults: no_faults(),
        });
    }
    Ok(made)
}
