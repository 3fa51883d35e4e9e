//! Channel A's way to the verdict: sets of contacts and of clauses as words, masks for each mode, and counters that count down.
#![tactic(auto)]

mod channel;
mod clauses;
mod contacts;
mod masks;
mod sets;

pub use channel::MaskChannel;
