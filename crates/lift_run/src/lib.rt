//! A run: what each tick settled, and what the sides did in each round (own).
#![tactic(auto)]

mod run;
mod turn;

pub use run::Run;
pub use turn::{Round, Turn};
