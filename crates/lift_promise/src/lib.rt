//! The one call that carries the headline: it reads the script that the words ask for, runs it, and shows or stores the run (own).
#![tactic(auto)]

mod ended;
mod origin;
mod run;
mod stored;
mod top;

pub use top::{Outcome, pessral};
