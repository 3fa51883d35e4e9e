//! The definitions of what the inputs of a tick mean, over plain records.
#![tactic(auto)]
