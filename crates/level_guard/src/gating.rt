// The gate: nothing after an unintended movement, else power that is on, else levelling where both contactors are open (own).
ghost use Rattle.std.specs.Prelude.{◌≡◌, not};
ghost use Rattle.core_model.specs.Supplies.{supply_of, supply_at, are_both_off, gated, is_none};

use contactor_pair::Settled;
use lift_base::{Kind, Supply};
use std::marker::Model;

/// What the gate gives at a tick. Contracts see it as `GivenData`.
#[derive(Clone, Copy, Debug, PartialEq, Eq)]
pub struct Given {
    pub supply: Supply,
    /// The signals of a bypass, with a supply alone (EN 81-20, 5.12.1.8).
    pub alarm: bool,
    /// An unintended movement stood at the tick before.
    pub moved: bool,
}

impl Model for Given {
    ghost use Rattle.core_model.specs.Supplies.{GivenData};

    ghost Value = { GivenData };

    ghost view = { λ g. record { supply = g.supply; alarm = g.alarm; moved = g.moved } };

    ghost inverse = { λ d. record { supply = d.supply; alarm = d.alarm; moved = d.moved } };
}

fn supply_of(power: Kind) -> Supply
    ensures { result ≡ supply_of power }
{
    match power {
        Kind::Off => Supply::Off,
        Kind::Full => Supply::Full,
        Kind::Up => Supply::Up,
        Kind::Down => Supply::Down,
    }
}

fn are_both_off(settled: &Settled) -> bool
    ensures { result ≡ are_both_off settled.now }
{
    settled.a.kind == Kind::Off && settled.b.kind == Kind::Off
}

fn supply_at(settled: &Settled, level: bool, moved: bool) -> Supply
    ensures { result ≡ supply_at settled.now level moved }
{
    if moved {
        Supply::Off
    } else if settled.power != Kind::Off {
        supply_of(settled.power)
    } else if are_both_off(settled) && level {
        Supply::Level
    } else {
        Supply::Off
    }
}

/// Whether there is a supply.
pub fn is_on(supply: Supply) -> bool
    ensures { result ≡ not (is_none supply) }
{
    supply != Supply::Off
}

/// What is given at a tick that settled this, by what the guards said at the tick before.
pub fn gate(settled: &Settled, level: bool, moved: bool) -> Given
    ensures { result ≡ gated settled.now level moved }
{
    let supply = supply_at(settled, level, moved);
    Given {
        supply,
        alarm: is_on(supply) && settled.alarm,
        moved,
    }
}
