// What may happen to the core, one at a time (own).
use lift_base::{Override, Side};
use lift_trace::Input;

/// A tick, a step of one channel, or an act of a failed side.
#[derive(Drop)]
pub enum Event {
    /// The next tick: power is settled from the command words and contactors as they stand, and its input comes in.
    Tick(Input),
    /// The side is failed from now on.
    Fail(Side),
    /// The channel catches up to the present tick.
    Sample(Side),
    /// It stores the publish word of its verdict.
    Publish(Side),
    /// It copies the other side's publish word.
    Look(Side),
    /// Its supervisor decides, and the command word is stored.
    Command(Side),
    /// A failed side's publish word.
    RoguePublish(Side, u64),
    /// A failed side's command word.
    RogueCommand(Side, u64),
    /// An order to a failed side's contactor.
    RogueContactor(Side, Override),
}

/// The event was not possible: a tick too many, a step of a failed side or out of its turn, or an act of a healthy side.
#[derive(Clone, Copy, Debug, PartialEq, Eq)]
pub struct BadStep;
