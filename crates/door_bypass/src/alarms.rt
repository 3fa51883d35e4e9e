// While a door contact is bypassed signals run during motion (EN 81-20, 5.12.1.8). That each side asks for them in its
// command word is own.
ghost use Rattle.std.specs.Prelude.{◌≡◌};
ghost use Rattle.door_bypass.specs.Alarm.{sounds};

use lift_base::Kind;

/// Whether the signals run: power is not Off, and a side asks for them.
pub fn alarm(a: bool, b: bool, power: Kind) -> bool
    ensures { result ≡ sounds a b power }
{
    match power {
        Kind::Off => false,
        _ => a || b,
    }
}
