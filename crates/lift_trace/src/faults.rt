// What is done to the two sides in a tick, behind what the tick settles.
use lift_base::Override;
use std::marker::Model;

/// What is done to one side in a tick.
#[derive(Clone, Copy, Debug, PartialEq, Eq)]
pub struct SideFaults {
    /// It fails now, and does nothing of its own from now on.
    pub fail: bool,
    /// It is held in this tick: it does none of its steps.
    pub hold: bool,
    /// It has failed, and a new one comes in its place now.
    pub exchange: bool,
    /// The word that it publishes as a failed side.
    pub publish: Option<u64>,
    /// The command word that it gives as a failed side.
    pub command: Option<u64>,
    /// The order to its contactor as a failed side.
    pub contactor: Override,
    /// The object that acts for it is taken away.
    pub dismiss: bool,
    /// The place in the crew of the object that acts for it from now on.
    pub give: Option<u8>,
}

impl Model for SideFaults {
    ghost use Rattle.lift_model.specs.Records.{SideFaultData};

    ghost Value = { SideFaultData };

    ghost view = { λ f. record {
      fail = f.fail;
      hold = f.hold;
      exchange = f.exchange;
      publish = f.publish;
      command = f.command;
      contactor = f.contactor;
      dismiss = f.dismiss;
      give = f.give;
    } };

    ghost inverse = { λ f. record {
      fail = f.fail;
      hold = f.hold;
      exchange = f.exchange;
      publish = f.publish;
      command = f.command;
      contactor = f.contactor;
      dismiss = f.dismiss;
      give = f.give;
    } };
}

/// What is done to both sides in a tick.
#[derive(Clone, Copy, Debug, PartialEq, Eq)]
pub struct Faults {
    pub a: SideFaults,
    pub b: SideFaults,
}

impl Model for Faults {
    ghost use Rattle.lift_model.specs.Records.{FaultData};

    ghost Value = { FaultData };

    ghost view = { λ f. record { a = f.a; b = f.b } };

    ghost inverse = { λ f. record { a = f.a; b = f.b } };
}
