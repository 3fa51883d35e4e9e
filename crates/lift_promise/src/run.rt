// One call of the tool: read, make, print (own).
ghost use Rattle.std.specs.Prelude.{◌≡◌, IfSome};
ghost use Rattle.lift_io.specs.Causes.{HasCause};
ghost use Rattle.lift_io.specs.Puts.{PutsText};
ghost use Rattle.saboteur.specs.Held.{plans_of};
ghost use Rattle.lift_front.specs.Calls.{Call, call};
ghost use Rattle.lift_front.specs.Commands.{asked, IsInBounds};
ghost use Rattle.lift_making.specs.Jobs.{job_of};
ghost use Rattle.lift_making.specs.Making.{CanShow, IsFor, page_text};
ghost use Rattle.lift_making.specs.Ways.{Suits};
ghost use Rattle.lift_promise.specs.Promise.{AreWrong, ComesTo, given};
ghost use Rattle.lift_promise.specs.Storing.{IsOffDisk, OnDisk, disk_call};
ghost use Rattle.lift_promise.specs.Writing.{HasRun, Wrote, stopped_at};

use crate::ended::{Ended, refuse, stop};
use crate::origin::script_of;
use crate::stored::store_script;
use lift_front::{Command, Ending, Fault, asked};
use lift_io::{Failed, NoMemory, Sink, Source};
use lift_making::{Made, Page, make};
use lift_run::Run;
use lift_script::Script;
use record_disk::Disk;
use report::{write_audit, write_last, write_report, write_rounds, write_summary, write_supply};
use saboteur::Crew;
use std::alloc::Global;
use std::thread::Threads;

/// Writes a page.
fn write_page<K: Sink>(page: &Page, run: &Run, sink: &mut K) -> Result<(), Failed>
    requires { CanShow page.now run.now }
    ensures text { PutsText (K.held sink.old) (K.held sink.new) result (page_text page.now run.now) }
    ensures cause { HasCause (K.faults sink.old) (K.faults sink.new) result }
{
    match page {
        Page::Report => write_report(run.path(), sink),
        Page::Rounds => write_rounds(run, sink),
        Page::Audit(audit) => write_audit(audit, run.path(), sink),
        Page::Last(last) => write_last(last, run.path(), sink),
        Page::Summary(number) => write_summary(*number, run.path(), sink),
        Page::Supplies(supplies) => write_supply(supplies, run.path(), sink),
    }
}

/// Shows what was made of a script: its page, or that a step of it was not possible.
fn print<K: Sink>(made: &Made, sink: &mut K) -> Ending
    requires { CanShow made.now.page made.now.run }
    ensures wrote { Wrote result (page_text made.now.page made.now.run) (call K.held K.faults sink.old sink.new) }
    ensures stopped { stopped_at result ≡ made.now.stopped_at }
    ensures has_run { HasRun result }
    ensures off_disk { IsOffDisk result }
{
    match made.stopped_at {
        Some(line) => stop(sink, Fault::Step(line)),
        None => match write_page(&made.page, &made.run, sink) {
            Ok(()) => Ending::Done,
            Err(Failed) => Ending::CutShort,
        },
    }
}

/// Runs a script by a command that shows it.
fn run_script<R: Threads, K: Sink>(
    rt: &R,
    alloc: Global,
    command: Command,
    script: Script,
    sink: &mut K,
    crew: Crew,
) -> Ended
    requires shows { command ≡ Command.Store → ⊥ }
    requires bounds { IsInBounds command }
    requires suits { Suits (job_of (plans_of plan crew) command).way script }
    ensures comes_to { (source : Call) → IsFor (job_of (plans_of plan crew) command) script source
        → ComesTo (given (plans_of plan crew) source (call K.held K.faults sink.old sink.new) command) result.ending result.run }
    ensures off_disk { IsOffDisk result.ending }
{
    match make(rt, alloc, command, script, crew) {
        Err(NoMemory) => refuse(alloc, sink, Fault::Memory),
        Ok(made) => {
            let ending = print(&made, sink);
            Ended {
                ending,
                run: made.run,
            }
        }
    }
}

/// Runs the script of a command.
fn run_command<R: Threads, S: Source, K: Sink, D: Disk>(
    rt: &R,
    alloc: Global,
    command: Command,
    source: &mut S,
    sink: &mut K,
    crew: Crew,
    disk: &mut D,
) -> Ended
    requires { IsInBounds command }
    ensures comes_to { ComesTo (given (plans_of plan crew) (call S.left S.faults source.old source.new)
        (call K.held K.faults sink.old sink.new) command) result.ending result.run }
    ensures on_disk { OnDisk command result.ending result.run (call K.held K.faults sink.old sink.new) (disk.new ≡ disk.old)
        (disk_call D.told D.calls D.faults disk.old disk.new) }
{
    match script_of(alloc, command, &crew, source) {
        Err(fault) => refuse(alloc, sink, fault),
        Ok(script) => match command {
            Command::Store => store_script(rt, alloc, script, sink, crew, disk),
            _ => run_script(rt, alloc, command, script, sink, crew),
        },
    }
}

/// Does what the words ask for.
pub fn run<R: Threads, S: Source, K: Sink, D: Disk>(
    rt: &R,
    alloc: Global,
    words: &[String],
    source: &mut S,
    sink: &mut K,
    crew: Crew,
    disk: &mut D,
) -> Ended
    ensures words { AreWrong (asked words.now) result.ending result.run (source.new ≡ source.old) (disk.new ≡ disk.old)
        (call K.held K.faults sink.old sink.new) }
    ensures comes_to { IfSome (asked words.now) (λ command. ComesTo (given (plans_of plan crew)
        (call S.left S.faults source.old source.new) (call K.held K.faults sink.old sink.new) command) result.ending result.run) }
    ensures on_disk { IfSome (asked words.now) (λ command. OnDisk command result.ending result.run
        (call K.held K.faults sink.old sink.new) (disk.new ≡ disk.old) (disk_call D.told D.calls D.faults disk.old disk.new)) }
{
    match asked(words) {
        None => refuse(alloc, sink, Fault::Words),
        Some(command) => run_command(rt, alloc, command, source, sink, crew, disk),
    }
}
