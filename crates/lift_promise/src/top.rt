// The top call, and what it promises (own).
ghost use Rattle.std.specs.Prelude.{◌≡◌, IfSome};
ghost use Rattle.saboteur.specs.Held.{plans_of};
ghost use Rattle.lift_front.specs.Calls.{call};
ghost use Rattle.lift_front.specs.Commands.{asked};
ghost use Rattle.lift_front.specs.Refusals.{status_of};
ghost use Rattle.lift_promise.specs.Promise.{AreWrong, ComesTo, Completes, given};
ghost use Rattle.lift_promise.specs.Storing.{OnDisk, disk_call};

use crate::ended::Ended;
use crate::run::run;
use lift_front::Ending;
use lift_io::{Sink, Source};
use lift_run::Run;
use record_disk::Disk;
use saboteur::Crew;
use std::alloc::Global;
use std::thread::Threads;

/// What a call came to.
#[derive(Drop)]
pub struct Outcome {
    /// 0 where the whole text was written; 1 no memory, 2 wrong words, 3 the source failed before the text was known, 4 the sink failed
    /// while the text was written, 5 a bad head, 6 a bad line, 7 too many ticks, frames or lines, 8 too long a line, 9 no line `e`,
    /// 10 a step that was not possible, 11 a cycle that is longer than a pair counts, 12 the disk failed, 13 the disk holds no record, 14
    /// the record has too few slots for the changes.
    pub status: u8,
    /// How the call ended, of which `status` is the number: after 12 it tells whether a script was run.
    pub ending: Ending,
    /// What each tick settled, as far as the script was run, and what both sides did in each. A schedule tells no rounds.
    pub run: Run,
}

/// Reads the text of the source, runs the script that it means for this crew, and writes what the command shows of the run, or the text of
/// the first refusal. The words are those after the program's name: exactly `replay`, `rounds`, `audit`, `last N` with N from 1 to 1000,
/// `load N` with N from 0 to 4294967295, `level`, `schedule`, `simulate C` with C from 6 to 1000, or `store`. `load N` reads nothing: it
/// runs the script that is generated from its number. `simulate C` reads wires and true words, and runs the script with the frames of their
/// sources. In a run of rounds each side takes its turn on a thread of its own, and the crew's objects act for a failed side to which the
/// script gives them. `store` stores the changes of its run in the record of the disk.
pub fn pessral<R: Threads, S: Source, K: Sink, D: Disk>(
    rt: &R,
    alloc: Global,
    words: &[String],
    source: &mut S,
    sink: &mut K,
    crew: Crew,
    disk: &mut D,
) -> Outcome
    ensures status { result.status ≡ status_of result.ending }

    // Words that ask for no command are refused, and nothing else is: nothing is run, read or called then.
    ensures words { AreWrong (asked words.now) result.ending result.run (source.new ≡ source.old) (disk.new ≡ disk.old)
        (call K.held K.faults sink.old sink.new) }

    // Else the script of the command was run, and that run is lawful: power is backed, a granted kind is on, sides are locked out and
    // start open, and what was written is so. Or nothing was run, for a cause, and its text was written.
    ensures comes_to { IfSome (asked words.now) (λ command. ComesTo (given (plans_of plan crew)
        (call S.left S.faults source.old source.new) (call K.held K.faults sink.old sink.new) command) result.ending result.run) }

    // A text that has a script whose steps are possible is run to its end, unless there is no memory or something fails.
    ensures complete { IfSome (asked words.now) (λ command. Completes (given (plans_of plan crew)
        (call S.left S.faults source.old source.new) (call K.held K.faults sink.old sink.new) command) result.ending result.run
        (disk_call D.told D.calls D.faults disk.old disk.new)) }

    // Only `store` calls the disk. Where that tells its bytes, and nothing was pending, a crash at any moment leaves the entries from
    // before the call and a front of the run's changes; and after status 0 or 4 all of them.
    ensures disk { IfSome (asked words.now) (λ command. OnDisk command result.ending result.run
        (call K.held K.faults sink.old sink.new) (disk.new ≡ disk.old) (disk_call D.told D.calls D.faults disk.old disk.new)) }
{
    let Ended { ending, run } = run(rt, alloc, words, source, sink, crew, disk);
    let status = ending.status();
    Outcome {
        status,
        ending,
        run,
    }
}
