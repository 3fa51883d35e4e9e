// What an object is: it acts for a failed side, and it may tell beforehand how (own).
ghost use Rattle.lift_model.specs.Plans.{Plan, Tells};

use crate::deed::Deed;

/// Acts for a failed side. It may answer anything, and promises only that it returns.
pub trait Saboteur: Drop {
    /// What it tells of its answers: a list of deeds, a mask, or nothing.
    ghost plan: { Self → Plan };

    /// Its deed in this tick, in which its side saw this word. Where it told a plan, the deed is the one that the plan says.
    fn act(&mut self, tick: u32, seen: u64) -> Deed
        ensures { Tells (plan self.old) seen result (plan self.new) };
}
