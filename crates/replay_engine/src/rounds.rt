// One round of both sides: settle, the fault lines, both turns at once, collect (own).
ghost use Rattle.std.specs.Prelude.{◌≡◌, ◌<◌, ◌^◌, length, slice_get, Some};
ghost use Rattle.lift_model.specs.Records.{InputData};
ghost use Rattle.contactor_pair.specs.Settles.{out_at, settled_from};
ghost use Rattle.core_model.specs.Settling as settling;
ghost use Rattle.core_model.specs.Settling.{ordered};
ghost use Rattle.saboteur.specs.Held.{plan_held, plans_of};
ghost use Rattle.replay_engine.specs.Rounds.{Prepared, Made};
ghost use Rattle.replay_engine.specs.Standing.{Fits};

use crate::equipping::equip;
use crate::half::{Exchangeable, Half};
use crate::meeting::meet;
use contactor_pair::{Settled, settle};
use grant_model::Channel;
use lift_base::Override;
use lift_config::Config;
use lift_run::{Round, Run};
use lift_script::Script;
use lift_trace::{Faults, SideFaults};
use round_board::{Board, Collected, Conductor};
use saboteur::{Crew, Holder, Saboteur};
use std::thread::Threads;
use supervisor::{Feedback, Supervisor};

/// What the tick settles, from the words and the contactors as they stand.
fn settled_by<CA: Channel, CB: Channel>(
    tick: u32,
    words: Collected,
    a: &Half<CA>,
    b: &Half<CB>,
) -> Settled
    ensures { result ≡ settled_from (out_at a.now.forced words.a.command a.now.seen tick)
        (out_at b.now.forced words.b.command b.now.seen tick) }
{
    settle(
        tick,
        &a.contactor,
        words.a.command,
        a.seen,
        &b.contactor,
        words.b.command,
        b.seen,
    )
}

/// What the contactors report of what was settled.
fn feedback_of(settled: &Settled) -> Feedback
    ensures a { result.a ≡ settling.feedback settled.now.a }
    ensures b { result.b ≡ settling.feedback settled.now.b }
{
    Feedback {
        a: settled.a.is_closed(),
        b: settled.b.is_closed(),
    }
}

/// What the script does to both sides in the tick that follows so many.
fn next_faults(script: &Script, done: u32) -> Faults
    requires small { length script.now.inputs < 2 ^ 24 }
    requires last { done < length script.now.inputs }
    ensures { (input : InputData) × (slice_get script.now.inputs done ≡ Some input) × (result ≡ input.faults) }
{
    script.trace().get(done + 1).faults
}

/// The lines of the tick that exchange the side for a new one, or fail it. The new one sits where the failed one sat, and its contactor
/// gets its order by the turn.
fn prepare<C: Exchangeable>(half: &mut Half<C>, config: &Config, faults: SideFaults)
    ensures { Prepared C.stands config.now faults half.old half.new }
{
    if faults.exchange {
        half.failed = false;
        half.seen = 0;
        half.supervisor = Supervisor::new_locked();
        half.channel = C::anew(config);
    } else {
        half.failed = half.failed || faults.fail;
    }
}

/// The order of a turn to the side's contactor.
fn order<C: Channel>(half: &mut Half<C>, order: Override)
    ensures { half.new ≡ record half.old { forced = ordered half.old.forced order } }
{
    half.contactor.order(order);
}

/// One round. The tick is settled first, and its fault lines are applied; then both sides take their turns at once, and their words are
/// collected.
pub(crate) fn play<R: Threads, CA: Exchangeable + Send, CB: Exchangeable + Send>(
    rt: &R,
    script: &Script,
    board: &Board,
    conductor: &mut Conductor,
    a: &mut Half<CA>,
    b: &mut Half<CB>,
    run: &mut Run,
    crew: &mut Crew,
    held_a: &mut Holder,
    held_b: &mut Holder,
)
    requires fits { Fits CA.stands CB.stands (record {
      script = script.now;
      board = board.now;
      conductor = conductor.old;
      a = a.old;
      b = b.old;
      run = run.old;
    }) }
    requires left { conductor.old.tick < length script.now.inputs }
    ensures { Made CA.stands CB.stands (record {
      script = script.now;
      board = board.now;
      conductor = conductor.old;
      a = a.old;
      b = b.old;
      run = run.old;
    })
        (record { script = script.now; board = board.now; conductor = conductor.new; a = a.new; b = b.new; run = run.new })
        (plan_held plan held_a.old) (plan_held plan held_a.new) (plan_held plan held_b.old) (plan_held plan held_b.new)
        (plans_of plan crew.old) (plans_of plan crew.new) }
{
    let done = conductor.tick();
    let settled = settled_by(done + 1, conductor.words(), a, b);
    run.settle(settled);
    let feedback = feedback_of(&settled);
    let faults = next_faults(script, done);
    prepare(a, script.config(), faults.a);
    prepare(b, script.config(), faults.b);
    equip(crew, held_a, faults.a);
    equip(crew, held_b, faults.b);
    let (pass_a, pass_b) = conductor.advance(board);
    let (turn_a, receipt_a, turn_b, receipt_b) = meet(
        rt,
        board,
        script.trace(),
        feedback,
        a,
        held_a,
        pass_a,
        faults.a,
        b,
        held_b,
        pass_b,
        faults.b,
    );
    conductor.collect(board, receipt_a, receipt_b);
    order(a, turn_a.contactor);
    order(b, turn_b.contactor);
    run.push(Round {
        a: turn_a,
        b: turn_b,
    });
}
