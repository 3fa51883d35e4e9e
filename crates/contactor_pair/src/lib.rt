//! The two contactors in line: power flows where both give the same kind, and each tick is settled from the words as they stand (own).
#![tactic(auto)]

mod contactor;
mod path;
mod settling;

pub use contactor::{Contactor, effective};
pub use path::Path;
pub use settling::{Out, Settled, power, settle};
