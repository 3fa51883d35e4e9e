//! What the inspection stations and the panel ask for, each rule over one image.
#![tactic(auto)]

mod emergency;
mod inspection;
mod modes;

pub use emergency::emergency_button;
pub use inspection::{StationSet, button, inspecting};
pub use modes::mode;
