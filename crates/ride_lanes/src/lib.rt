//! The lanes of a ride: what each shows of a tick, the bars that are its runs, and where power is lost with the lanes that took it (own).
//! That a lane's bars are the runs of what its row says of each tick, and which ticks are losses, is proved. Names are read in the code.
#![tactic(auto)]

mod bars;
mod cells;
mod lanes;
mod losses;
mod moments;
mod takers;
mod watcher;

pub use bars::{Bar, bars_begin_at_changes, bars_cover_all, bars_of};
pub use cells::{
    Cell, Contact, Deeds, Given, Ruled, Sees, Standing, Wire, cell_at, is_past, is_same,
};
pub use lanes::{Lane, lanes_of};
pub use losses::{Loss, losses_are_marked, losses_of};
pub use moments::{Moment, moments_of};
pub use takers::{Taker, takers_of};
pub use watcher::Sight;
