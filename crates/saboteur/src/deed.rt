// What an object answers: words to store, and an order (own).
use lift_base::Override;
use std::marker::Model;

/// A publish word, a command word, and an order to the side's contactor. `None` stores nothing, `Keep` orders nothing.
#[derive(Clone, Copy, Debug, PartialEq, Eq)]
pub struct Deed {
    pub publish: Option<u64>,
    pub command: Option<u64>,
    pub contactor: Override,
}

impl Model for Deed {
    ghost use Rattle.lift_model.specs.Records.{DeedData};

    ghost Value = { DeedData };

    ghost view = { λ d. record { publish = d.publish; command = d.command; contactor = d.contactor } };

    ghost inverse = { λ d. record { publish = d.publish; command = d.command; contactor = d.contactor } };
}

impl Deed {
    ghost use Rattle.std.specs.Prelude.{◌≡◌};
    ghost use Rattle.lift_model.specs.Plans.{idle};

    /// Stores nothing and orders nothing.
    pub fn idle() -> Deed
        ensures { result ≡ idle }
    {
        Deed {
            publish: None,
            command: None,
            contactor: Override::Keep,
        }
    }
}
