//! Antivalent wires over the ticks: which are made, which rise, which are discrepant, and whether a contact fault stands.
#![tactic(auto)]

mod rows;
mod wires;
mod words;

pub use wires::Wires;
