//! The core of the controller: two channels with their supervisors and contactors, step by step, over any order of the steps (own).
#![tactic(auto)]

mod event;
mod half;
mod stepping;

pub use event::{BadStep, Event};
pub use lift_base::Phase;
pub use stepping::{Core, Words};
