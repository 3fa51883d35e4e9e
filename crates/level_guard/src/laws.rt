// What the gate promises, as laws over its definition: each is the contract of a function that does nothing (own).
ghost use Rattle.std.specs.Prelude.{◌≡◌, ◌-◌, ℕ, List, take, true, false};
ghost use Rattle.lift_base.specs.declared.supplies.Supply.TheVariants as supply;
ghost use Rattle.lift_model.specs.Enums.{Kind};
ghost use Rattle.lift_model.specs.Levelling.{has_moved};
ghost use Rattle.lift_model.specs.Records.{Settings, InputData};
ghost use Rattle.core_model.specs.Settling.{Settled};
ghost use Rattle.core_model.specs.Supplies.{given_at, supply_of};
ghost use Rattle.core_model.specs.Words.{is_off};
ghost use Rattle.level_guard.specs.Permitted.{IsPermitted};

/// Levelling is on at a tick only where at the tick before the doors had a value with the zone made, each contact of the chain but those
/// of the doors was made, and no unintended movement stood.
pub fn levels_in_the_zone()
    ensures { (config : Settings) (trace : List InputData) (t : ℕ) (s : Settled) → (given_at config trace t s).supply ≡ supply.Level
        → IsPermitted config (take (t - 1) trace) }
{}

/// At the tick after one at which an unintended movement stands there is no supply.
pub fn moved_is_off()
    ensures { (config : Settings) (trace : List InputData) (t : ℕ) (s : Settled) → has_moved config (take (t - 1) trace) ≡ true
        → (given_at config trace t s).supply ≡ supply.Off }
{}

/// A supply of a kind is on only where the settled power is of that kind.
pub fn supply_is_power()
    ensures { (config : Settings) (trace : List InputData) (t : ℕ) (s : Settled) (k : Kind) → is_off k ≡ false
        → (given_at config trace t s).supply ≡ supply_of k → s.power ≡ k }
{}
