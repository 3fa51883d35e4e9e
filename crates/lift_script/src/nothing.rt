// The faults of a tick in which nothing goes wrong.
ghost use Rattle.std.specs.Prelude.{◌≡◌};
ghost use Rattle.script_model.specs.Faults.{no_faults};

use lift_base::Override;
use lift_trace::{Faults, SideFaults};

/// A tick without faults.
pub fn no_faults() -> Faults
    ensures { result ≡ no_faults }
{
    let none = SideFaults {
        fail: false,
        hold: false,
        exchange: false,
        publish: None,
        command: None,
        contactor: Override::Keep,
        dismiss: false,
        give: None,
    };
    Faults { a: none, b: none }
}
