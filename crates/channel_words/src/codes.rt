// The bits of a kind and of a mode (own).
ghost use Rattle.std.specs.Prelude.{◌≡◌, ◌<◌};
ghost use Rattle.core_model.specs.Words.{kind_code, mode_code, kind_of_code};

use lift_base::{Kind, Mode};

/// The two bits of a kind.
pub fn kind_code(kind: Kind) -> u64
    ensures { result ≡ kind_code kind }
{
    match kind {
        Kind::Off => 0,
        Kind::Full => 1,
        Kind::Up => 2,
        Kind::Down => 3,
    }
}

/// The two bits of a mode.
pub fn mode_code(mode: Mode) -> u64
    ensures { result ≡ mode_code mode }
{
    match mode {
        Mode::Normal => 0,
        Mode::Inspection => 1,
        Mode::Emergency => 2,
    }
}

/// The kind of two bits.
pub fn kind_of_code(code: u64) -> Kind
    requires { code < 4 }
    ensures { result ≡ kind_of_code code }
{
    match code {
        0 => Kind::Off,
        1 => Kind::Full,
        2 => Kind::Up,
        _ => Kind::Down,
    }
}
