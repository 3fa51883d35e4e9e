//! The pit latch: after someone stood in the pit the lift does not run normally until it was reset outside the well.
#![tactic(auto)]

mod latch;

pub use latch::{PitLatch, is_good_for_reset, is_inspecting};
