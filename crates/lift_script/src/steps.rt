// The steps of a schedule, as its lines write them.
use script_model::Act;
use std::marker::Model;

/// A step, and the number of the line that writes it.
#[derive(Drop)]
pub struct Step {
    pub line: u32,
    pub act: Act,
}

impl Model for Step {
    ghost use Rattle.core_model.specs.Schedule.{StepData};
    ghost use Rattle.script_model.specs.Acts.{act_data};

    ghost Value = { StepData };

    ghost view = { λ s. record { line = s.line; act = act_data s.act } };
}

impl Step {
    ghost use Rattle.std.specs.Prelude.{◌≡◌};
    ghost use Rattle.core_model.specs.Schedule.{Tick};

    /// The step of a tick.
    pub fn tick(line: u32) -> Step
        ensures { result ≡ record { line = line; act = Tick } }
    {
        Step {
            line,
            act: Act::Tick,
        }
    }
}
