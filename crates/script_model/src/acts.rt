// What the steps of a schedule do (own).
use lift_base::{Override, Side};

/// What a step of a schedule does.
#[derive(Clone, Copy, Debug, PartialEq, Eq)]
pub enum Act {
    /// The next tick, with the next input.
    Tick,
    /// The side fails.
    Fail(Side),
    Sample(Side),
    Publish(Side),
    Look(Side),
    Command(Side),
    /// A failed side's publish word.
    Word(Side, u64),
    /// A failed side's command word.
    Value(Side, u64),
    /// An order to a failed side's contactor.
    Contactor(Side, Override),
    /// A failed side is exchanged for a new one.
    Exchange(Side),
}
