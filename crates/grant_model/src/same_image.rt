// Whether two images are equal.
ghost use Rattle.std.specs.Prelude.{◌≡◌, Decides};

use chain_table::Image;
use lift_base::SOURCES;

fn are_same_values(xs: &[Option<u16>; SOURCES], ys: &[Option<u16>; SOURCES]) -> bool
    ensures { Decides result (xs.now ≡ ys.now) }
{
    *xs == *ys
}

/// Whether the images are equal: each value, and both words of the wires.
pub fn is_same_image(x: &Image, y: &Image) -> bool
    ensures { Decides result (x.now ≡ y.now) }
{
    x.a == y.a && x.b == y.b && are_same_values(&x.values, &y.values)
}
