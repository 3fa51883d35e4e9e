// Inspection moves the car by constant pressure, and where two stations are in inspection only while the same buttons
// are operated on both (EN 81-20, 5.12.1.5). That RUN and exactly one direction count as operated is own.
ghost use Rattle.std.specs.Prelude.{◌≡◌, ◌<◌, ◌&&◌, ◌||◌, not, Some};
ghost use Rattle.lift_model.specs.Chain.{source_has};
ghost use Rattle.lift_model.specs.Stations.{inspects, is_inspected, all_agree, button};

use chain_table::Image;
use lift_base::station_bits::{DOWN, INSPECTION, RUN, UP};
use lift_base::{CAR, Kind, PIT, PLATFORM, ROOF, SOURCES};

/// Which stations inspect.
#[derive(Clone, Copy, Debug, PartialEq, Eq)]
pub struct StationSet {
    pub roof: bool,
    pub pit: bool,
    pub car: bool,
    pub platform: bool,
}

/// The stations whose switch is at INSPECTION. A source without a value does not inspect.
pub fn inspecting(image: &Image) -> StationSet
    ensures roof { result.roof ≡ inspects image.now ROOF }
    ensures pit { result.pit ≡ inspects image.now PIT }
    ensures car { result.car ≡ inspects image.now CAR }
    ensures platform { result.platform ≡ inspects image.now PLATFORM }
{
    StationSet {
        roof: image.bit(ROOF, INSPECTION),
        pit: image.bit(PIT, INSPECTION),
        car: image.bit(CAR, INSPECTION),
        platform: image.bit(PLATFORM, INSPECTION),
    }
}

/// Whether at least one station inspects.
pub(crate) fn is_inspected(image: &Image) -> bool
    ensures { result ≡ is_inspected image.now }
{
    let stations = inspecting(image);
    stations.roof || stations.pit || stations.car || stations.platform
}

/// Whether the station, where it inspects, shows RUN and this direction and not the other.
fn agrees(image: &Image, station: usize, wanted: u8, other: u8) -> bool
    requires station { station < SOURCES }
    requires wanted { wanted < 16 }
    requires other { other < 16 }
    ensures { result ≡ (not (source_has image.now station INSPECTION)
        || (source_has image.now station RUN && source_has image.now station wanted && not (source_has image.now station other))) }
{
    !image.bit(station, INSPECTION)
        || (image.bit(station, RUN) && image.bit(station, wanted) && !image.bit(station, other))
}

fn all_agree_up(image: &Image) -> bool
    ensures { result ≡ all_agree image.now (Some Kind.Up) }
{
    agrees(image, ROOF, UP, DOWN)
        && agrees(image, PIT, UP, DOWN)
        && agrees(image, CAR, UP, DOWN)
        && agrees(image, PLATFORM, UP, DOWN)
}

fn all_agree_down(image: &Image) -> bool
    ensures { result ≡ all_agree image.now (Some Kind.Down) }
{
    agrees(image, ROOF, DOWN, UP)
        && agrees(image, PIT, DOWN, UP)
        && agrees(image, CAR, DOWN, UP)
        && agrees(image, PLATFORM, DOWN, UP)
}

/// Up or Down where at least one station inspects and each inspecting station shows RUN and the same single
/// direction. `None` exactly otherwise.
pub fn button(image: &Image) -> Option<Kind>
    ensures { result ≡ button image.now }
{
    if !is_inspected(image) {
        None
    } else if all_agree_up(image) {
        Some(Kind::Up)
    } else if all_agree_down(image) {
        Some(Kind::Down)
    } else {
        None
    }
}
