//! The supervisor of one side: it compares the two channels, orders its contactor, and locks out (own).
#![tactic(auto)]

mod decision;
mod feedback;

pub use decision::Supervisor;
pub use feedback::Feedback;
