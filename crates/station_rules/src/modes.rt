// Inspection neutralises normal control and emergency electrical operation (EN 81-20, 5.12.1.5).
ghost use Rattle.std.specs.Prelude.{◌≡◌};
ghost use Rattle.lift_model.specs.Stations.{mode_of};

use crate::inspection::is_inspected;
use chain_table::Image;
use lift_base::panel_bits::EMERGENCY;
use lift_base::{Mode, PANEL};

/// Inspection where a station inspects, else Emergency where that switch is made, else Normal.
pub fn mode(image: &Image) -> Mode
    ensures { result ≡ mode_of image.now }
{
    if is_inspected(image) {
        Mode::Inspection
    } else if image.bit(PANEL, EMERGENCY) {
        Mode::Emergency
    } else {
        Mode::Normal
    }
}
