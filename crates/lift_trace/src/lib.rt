//! What comes in, tick by tick: the frames, the wires, the true words of the sources, and what is done to the two sides.
#![tactic(auto)]

mod equal;
mod faults;
mod frames;
mod input;
mod trace;

pub use faults::{Faults, SideFaults};
pub use frames::Frames;
pub use input::Input;
pub use lift_base::MOST_FRAMES;
pub use trace::Trace;
