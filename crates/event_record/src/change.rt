// A change of power or alarm, as it is shown and stored (own).
use lift_base::Kind;
use std::marker::Model;

/// A tick whose power or alarm differs from the tick before. Contracts see it as `ChangeData`.
#[derive(Clone, Copy, Debug, PartialEq, Eq)]
pub struct Change {
    /// From 1.
    pub tick: u32,
    pub power: Kind,
    pub alarm: bool,
    /// Why power is off, as a code. 0 where it is on.
    pub reason: u8,
    /// What the clause failed at. 0 where power is on.
    pub detail: u8,
}

impl Model for Change {
    ghost use Rattle.script_model.specs.Changes.{ChangeData};

    ghost Value = { ChangeData };

    ghost view = { λ c. record { tick = c.tick; power = c.power; alarm = c.alarm; reason = c.reason; detail = c.detail } };

    ghost inverse = { λ c. record { tick = c.tick; power = c.power; alarm = c.alarm; reason = c.reason; detail = c.detail } };
}
