// Why there is no run of a script or of a fault (own).
use lift_core::BadStep;

/// Why there is no run.
#[derive(Clone, Copy, Debug, PartialEq, Eq)]
pub enum NoRun {
    NoMemory,
    /// A line of the script gives a side a fault already.
    HasFaults,
    /// There is no fault with this number.
    NoFault,
    /// A step of a round was not possible. No script leads to it.
    Step,
}

impl From<BadStep> for NoRun {
    fn from(_step: BadStep) -> NoRun {
        NoRun::Step
    }
}
