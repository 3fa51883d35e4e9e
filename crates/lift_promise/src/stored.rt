// The command `store`: it opens the record of a disk, runs a script, stores the changes, and tells how many entries there are then (own).
ghost use Rattle.std.specs.Prelude.{◌≡◌, ◌++◌, ◌≤◌, List, length};
ghost use Rattle.lift_io.specs.Causes.{HasCause};
ghost use Rattle.lift_io.specs.Puts.{PutsText};
ghost use Rattle.record_store.specs.declared.slot.TheConstants.{LAST_TICK};
ghost use Rattle.saboteur.specs.Held.{plans_of};
ghost use Rattle.script_model.specs.Report.{report_text};
ghost use Rattle.lift_front.specs.Calls.{Call, call};
ghost use Rattle.lift_making.specs.Jobs.{job_of, report_of};
ghost use Rattle.lift_making.specs.Making.{IsFor};
ghost use Rattle.lift_making.specs.Ways.{Suits};
ghost use Rattle.lift_promise.specs.Promise.{ComesTo, given};
ghost use Rattle.lift_promise.specs.Storing.{OnDisk, disk_call};
ghost use Rattle.lift_promise.specs.Writing.{IsWhole, Wrote, stored_text};

use crate::ended::{Ended, refuse, stop};
use contactor_pair::Path;
use itoa::Buffer;
use lift_front::{Command, Ending, Fault};
use lift_io::{Failed, NoMemory, Sink, put_all};
use lift_making::run_opened;
use lift_run::Run;
use lift_script::Script;
use lift_storing::store_changes;
use record_disk::Disk;
use record_store::{AppendFault, OpenFault, RecordStore};
use replay_engine::Engine;
use report::write_report;
use saboteur::Crew;
use std::alloc::Global;
use std::thread::Threads;

fn put_count<K: Sink>(sink: &mut K, count: u32) -> Result<(), Failed>
    ensures text { PutsText (K.held sink.old) (K.held sink.new) result (stored_text count) }
    ensures cause { HasCause (K.faults sink.old) (K.faults sink.new) result }
{
    let mut buffer = Buffer::new();
    put_all(sink, &[b"stored ", buffer.format(count).as_bytes(), b"\n"])
}

// Writes the report of a path, and how many entries its record has.
fn write_stored<K: Sink>(path: &Path, count: u32, sink: &mut K) -> Result<(), Failed>
    ensures text { PutsText (K.held sink.old) (K.held sink.new) result (report_text path.now.settled ++ stored_text count) }
    ensures cause { HasCause (K.faults sink.old) (K.faults sink.new) result }
{
    write_report(path, sink)?;
    put_count(sink, count)
}

// Shows a run whose changes were stored.
fn show<K: Sink>(run: &Run, count: u32, sink: &mut K) -> Ending
    ensures wrote { Wrote result (report_of run.now ++ stored_text count) (call K.held K.faults sink.old sink.new) }
    ensures whole { IsWhole result }
{
    match write_stored(run.path(), count, sink) {
        Ok(()) => Ending::Done,
        Err(Failed) => Ending::CutShort,
    }
}

// No script has a tick that a change of a record cannot name.
fn ticks_can_be_stored(script: &Script)
    ensures { length script.now.inputs ≤ LAST_TICK }
{
    let _ = script.room();
}

/// Runs a script and stores its changes. The record is opened once all memory of the run was taken, and before the first tick.
pub fn store_script<R: Threads, K: Sink, D: Disk>(
    rt: &R,
    alloc: Global,
    script: Script,
    sink: &mut K,
    crew: Crew,
    disk: &mut D,
) -> Ended
    requires { Suits (job_of (plans_of plan crew) Command.Store).way script }
    ensures comes_to { (source : Call) → IsFor (job_of (plans_of plan crew) Command.Store) script source
        → ComesTo (given (plans_of plan crew) source (call K.held K.faults sink.old sink.new) Command.Store) result.ending result.run }
    ensures on_disk { OnDisk Command.Store result.ending result.run (call K.held K.faults sink.old sink.new) (disk.new ≡ disk.old)
        (disk_call D.told D.calls D.faults disk.old disk.new) }
{
    ticks_can_be_stored(&script);
    let engine = match Engine::open(alloc, script, crew) {
        Ok(engine) => engine,
        Err(NoMemory) => return refuse(alloc, sink, Fault::Memory),
    };
    let store = match RecordStore::open(disk) {
        Ok(store) => store,
        Err(OpenFault::Failed) => return refuse(alloc, sink, Fault::Disk),
        Err(OpenFault::Foreign(slot)) => return refuse(alloc, sink, Fault::Record(slot)),
    };
    let run = run_opened(rt, engine);
    match store_changes(store, disk, run.path()) {
        Ok(count) => Ended {
            ending: show(&run, count, sink),
            run,
        },
        Err(AppendFault::Failed) => Ended {
            ending: stop(sink, Fault::Disk),
            run,
        },
        Err(AppendFault::Full) => Ended {
            ending: stop(sink, Fault::Full),
            run,
        },
    }
}
