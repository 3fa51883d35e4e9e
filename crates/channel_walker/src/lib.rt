//! Channel B: it walks the clause list and the contact table, and keeps the sources by deadlines.
#![tactic(auto)]

mod channel;
mod clauses;
mod contacts;
mod verdicts;

pub use channel::WalkerChannel;
