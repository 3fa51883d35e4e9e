//! The log of a CAN bus, as `candump -l` writes it, and the script that it stands for. All of it is own.
#![tactic(auto)]

mod head;
mod laws;
mod lines;
mod log;
mod rows;
mod scripts;
mod texts;
mod wires;
mod writing;

pub use head::Head;
pub use laws::{log_scripts_are_read, written_runs_are_read};
pub use lines::{Stamped, interface, read_clock, read_line};
pub use log::{Log, LogFault, Refusal, Taken, Taking, read_log};
pub use rows::read_row;
pub use scripts::make_script;
pub use texts::{LogScript, log_script};
pub use wires::WireRow;
pub use writing::write_log_script;
