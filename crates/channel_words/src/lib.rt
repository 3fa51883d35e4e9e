//! The words that the two channels show each other and their contactors: which field stands at which bits (own).
#![tactic(auto)]

mod codes;
mod fields;
mod written;

pub use fields::{alarm_of, detail_of, kind_of, reason_of, stamp_of};
pub use written::{command_word, publish_word};
