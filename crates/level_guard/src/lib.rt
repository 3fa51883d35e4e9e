//! Levelling with open doors inside the unlocking zone, and unintended movement: a guard that follows the inputs, and the gate that
//! stands above the settled power (own).
#![tactic(auto)]

mod asking;
mod gating;
mod guard;
mod laws;
mod seen;
mod supplies;

pub use asking::give;
pub use gating::{Given, gate, is_on};
pub use guard::LevelGuard;
pub use laws::{levels_in_the_zone, moved_is_off, supply_is_power};
pub use lift_base::Supply;
pub use supplies::Supplies;
