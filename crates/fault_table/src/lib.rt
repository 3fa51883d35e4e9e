//! The table of the runs of single faults: its lines, made by as many threads as there are processors, and why there is none (own).
#![tactic(auto)]

mod names;
mod parts;
mod refused;
mod table;

pub use parts::write_part;
pub use refused::Refused;
pub use table::heading;
