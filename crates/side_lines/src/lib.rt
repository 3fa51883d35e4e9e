//! The lines of one side: what each says, where it may stand, and how the two sides stand after those of a tick.
#![tactic(auto)]

mod faults;
mod numbers;
mod spelling;
mod standings;

pub use faults::{Places, act, faults_with};
pub use numbers::number;
pub use spelling::read_side_line;
pub use standings::{Standings, places};
