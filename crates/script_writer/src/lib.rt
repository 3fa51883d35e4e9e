//! The text of a script, written: the keys of its head, and the lines of its ticks.
#![tactic(auto)]

mod fault_lines;
mod head;
mod ticks;

pub use head::put_head;
pub use ticks::{put_frames_of, put_wires, write_script};
