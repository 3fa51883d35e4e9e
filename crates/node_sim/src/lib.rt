//! The producers of the sources: the frames that a script's true words stand for; the script that is generated from a number; and the
//! audit of a run. All of it is own.
#![tactic(auto)]

mod auditing;
mod cycles;
mod generated;
mod laws;
mod listener;
mod listeners;
mod producer;
mod producing;

pub use auditing::audit_run;
pub use cycles::SHORTEST_CYCLE;
pub use generated::load_script;
pub use laws::{audit_is_true, produced_is_true, sends_one, simulated_is_true};
pub use producer::Producer;
pub use producing::produce;
pub use script_model::{Audit, Wrong};
