//! The last changes of power and alarm: a record of fixed size, in which a new change takes the place of the oldest (own).
#![tactic(auto)]

mod change;
mod record;

pub use change::Change;
pub use record::{MOST_CHANGES, Record};
