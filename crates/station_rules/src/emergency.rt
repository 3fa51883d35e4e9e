// Emergency electrical operation moves the car by constant pressure (EN 81-20, 5.12.1.6). That it has two direction
// buttons and no RUN button is own.
ghost use Rattle.std.specs.Prelude.{◌≡◌};
ghost use Rattle.lift_model.specs.Stations.{one_direction, emergency_button};

use chain_table::Image;
use lift_base::panel_bits::{EMERGENCY_DOWN, EMERGENCY_UP};
use lift_base::{Kind, PANEL};

fn one_direction(up: bool, down: bool) -> Option<Kind>
    ensures { result ≡ one_direction up down }
{
    match (up, down) {
        (true, false) => Some(Kind::Up),
        (false, true) => Some(Kind::Down),
        _ => None,
    }
}

/// The direction whose button is made on the panel. `None` exactly where none or both are made.
pub fn emergency_button(image: &Image) -> Option<Kind>
    ensures { result ≡ emergency_button image.now }
{
    one_direction(
        image.bit(PANEL, EMERGENCY_UP),
        image.bit(PANEL, EMERGENCY_DOWN),
    )
}
