//! What a channel has to give, and what both channels stand on: the sources, the latches, the facts of a tick.
#![tactic(auto)]

mod channel;
mod facts;
mod following;
pub mod pairs;
mod same_image;
mod senses;
pub mod sources;
mod steady;
mod watch;

pub use channel::Channel;
pub use facts::Facts;
pub use following::{Follower, follow};
pub use senses::Senses;
pub use steady::{Method, Steady};
