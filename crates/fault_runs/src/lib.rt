//! The runs of a script with a single fault, and what each of them shows beside the run without the fault (own).
#![tactic(auto)]

mod grants;
mod lines;
mod looks;
mod no_run;
mod plain;
mod rounds;
mod runs;

pub use lines::Line;
pub use looks::{ALL_LOOKS, Looks};
pub use no_run::NoRun;
pub use plain::{FaultLines, Plain, Runs};
