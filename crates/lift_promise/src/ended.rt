// How a call ended, and the run that it hands back (own).
ghost use Rattle.std.specs.Prelude.{◌≡◌};
ghost use Rattle.lift_front.specs.Calls.{call};
ghost use Rattle.lift_front.specs.Refusals.{WroteRefusal, notice};
ghost use Rattle.lift_promise.specs.Writing.{IsBare};

use lift_front::{Ending, Fault, write_refusal};
use lift_io::Sink;
use lift_run::Run;
use std::alloc::Global;

/// How a call ended, and the run that it hands back.
#[derive(Drop)]
pub struct Ended {
    pub ending: Ending,
    pub run: Run,
}

/// Refuses a call before anything ran: writes the text of the refusal, as far as the sink takes it, and hands back no run.
pub fn refuse<K: Sink>(alloc: Global, sink: &mut K, fault: Fault) -> Ended
    ensures ending { result.ending ≡ Ending.Refused fault }
    ensures run { IsBare result.run }
    ensures wrote { WroteRefusal (call K.held K.faults sink.old sink.new) (notice fault).text }
{
    write_refusal(sink, fault);
    Ended {
        ending: Ending::Refused(fault),
        run: Run::empty(alloc),
    }
}

/// Ends a call whose script was run: writes the text of what stopped it, as far as the sink takes it.
pub fn stop<K: Sink>(sink: &mut K, fault: Fault) -> Ending
    ensures ending { result ≡ Ending.Stopped fault }
    ensures wrote { WroteRefusal (call K.held K.faults sink.old sink.new) (notice fault).text }
{
    write_refusal(sink, fault);
    Ending::Stopped(fault)
}
