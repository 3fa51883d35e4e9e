//! The alarm of a bypassed door contact.
#![tactic(auto)]

mod alarms;

pub use alarms::alarm;
