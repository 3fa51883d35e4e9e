//! The image of one tick, and the tables of the sources, the wires and the contacts of the safety chain.
#![tactic(auto)]

mod contacts;
mod image;
mod names;
mod ticks;

pub use contacts::{bit_made, inoperative, is_contact_made};
pub use image::Image;
pub use lift_base::{CAR, DOORS, PANEL, PIT, PLATFORM, ROOF};
pub use names::{contact_name, source_name, wire_name};
pub use ticks::{latch_after, row_after};
