//! What comes before a run: the words to a command, the text of a source to a script, and why there is none, with its status and its text
//! (own).
#![tactic(auto)]

mod command;
mod ending;
mod fault;
mod pieces;

pub use command::{Command, asked};
pub use ending::Ending;
pub use fault::{Fault, write_refusal};
pub use pieces::read;
