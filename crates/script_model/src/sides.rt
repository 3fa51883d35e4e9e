// What a line of one side says, and how a side stands (own).
use lift_base::Override;

/// What a line says of one side. In a replay it is a fault of the next tick, in a schedule a step: each form has some of them.
#[derive(Clone, Copy, Debug, PartialEq, Eq)]
pub enum SideLine {
    /// `r S`: a failed side is exchanged for a new one.
    Exchange,
    /// `x S`: it fails.
    Fail,
    /// `h S`: it is held in this tick.
    Hold,
    /// `p S H16`: a failed side's publish word.
    Word(u64),
    /// `m S H16`: a failed side's command word.
    Value(u64),
    /// `c S K`: an order to a failed side's contactor. Never `Override::Keep`.
    Contactor(Override),
    /// `g S I`: a failed side gets the object of this place, 0 to 254.
    Give(u8),
    /// `d S`: a failed side's object is dismissed.
    Dismiss,
    /// `s S`.
    Sample,
    /// `q S`.
    Publish,
    /// `l S`.
    Look,
    /// `k S`.
    Command,
}

/// How a side stands as a tick begins.
#[derive(Clone, Copy, Debug, PartialEq, Eq)]
pub struct Standing {
    /// It has failed.
    pub failed: bool,
    /// It holds an object.
    pub holds: bool,
}
