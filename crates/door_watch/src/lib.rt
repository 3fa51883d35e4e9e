//! Monitoring of the door contacts: one that is stuck made is found while the car stands open in the unlocking zone.
#![tactic(auto)]

mod watch;

pub use watch::{DoorWatch, is_stuck};
