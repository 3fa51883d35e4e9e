//! What acts for a failed side: an object that may answer anything, and that may tell a plan of its answers (own).
//! Contracts see of an object the plan that it tells, and of a holder or a place of a crew whether there is one, and which.
#![tactic(auto)]

mod crew;
mod deed;
mod holder;
mod masks;
mod tape;
mod traits;

pub use crew::{Crew, MOST_PLACES};
pub use deed::Deed;
pub use holder::Holder;
pub use masks::{Echo, Invert};
pub use tape::Tape;
pub use traits::Saboteur;
