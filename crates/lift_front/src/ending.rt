// How a call ends, and its status (own).
ghost use Rattle.std.specs.Prelude.{◌≡◌};
ghost use Rattle.lift_front.specs.Refusals.{status_of};

use crate::fault::Fault;

/// How a call ends.
#[derive(Clone, Copy, Debug, PartialEq, Eq)]
pub enum Ending {
    /// The whole text of the run was written.
    Done,
    /// The run came to its end, and the sink failed while its text was written.
    CutShort,
    /// Nothing was run, and this is why.
    Refused(Fault),
    /// The script was run, up to a step that was not possible or to its end, and then its changes were not all stored.
    Stopped(Fault),
}

impl Ending {
    /// The status that the program ends with.
    pub fn status(self) -> u8
        ensures { result ≡ status_of self }
    {
        match self {
            Ending::Done => 0,
            Ending::CutShort => 4,
            Ending::Refused(fault) | Ending::Stopped(fault) => fault.status(),
        }
    }
}
