//! A script: the settings, the inputs of the ticks, and the steps of a schedule. Its text stands above (fault_script).
#![tactic(auto)]

mod nothing;
mod scripts;
mod steps;

pub use nothing::no_faults;
pub use scripts::Script;
pub use steps::Step;
