//! A record of changes that survives a crash: an entry counts once its gate is on the disk (own).
#![tactic(auto)]

mod faults;
mod scan;
mod slot;
mod store;
mod writing;

pub use faults::{AppendFault, OpenFault};
pub use slot::{GATE, LAST_TICK, SLOTS};
pub use store::RecordStore;
