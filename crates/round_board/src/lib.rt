//! A board of words that the two channels and a conductor share, each on a thread of its own.
#![tactic(auto)]

mod board;
mod conductor;
mod notes;
mod rule;
mod seats;
mod tally;
mod view;
mod words;

pub use board::{Board, Opened};
pub use conductor::Conductor;
pub use notes::{Pass, Receipt};
pub use seats::ChannelSeat;
pub use words::{Collected, SideWords};
