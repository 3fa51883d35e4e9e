//! The text of a script, read in pieces.
#![tactic(auto)]

mod body;
mod fed;
mod head;
mod lines;
mod place;
mod reader;
mod script_fault;
mod went;

pub use fed::Fed;
pub use reader::{ScriptReader, read_script};
pub use script_fault::ScriptFault;
