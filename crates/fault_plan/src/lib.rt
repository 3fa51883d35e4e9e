//! The single faults of one channel over a script of Form Replay: which there are, in a fixed order, and the script of each (own).
#![tactic(auto)]

mod doing;
mod laws;
mod listing;
mod making;
mod resetting;
mod single;
mod words;

pub use laws::faulted_scripts_are_replays;
pub use listing::{count, fault_at};
pub use making::with_fault;
pub use resetting::with_reset;
pub use single::{SingleFault, What};
pub use words::{SideWords, TickWords};
