// What a channel of the controller has to give: the verdicts at the last two ticks of the inputs that it took.
ghost use Rattle.std.specs.Prelude.{◌≡◌, ◌-◌, ◌≤◌, ℕ, List, take, length};
ghost use Rattle.lift_model.specs.Records.{Settings, InputData};
ghost use Rattle.lift_model.specs.Wires.{rises};
ghost use Rattle.lift_model.specs.Trace.{words_of};
ghost use Rattle.lift_model.specs.Grant.{verdict_at_end};

use lift_base::{RESET, Verdict};
use lift_trace::Trace;

/// Takes the inputs of a trace in parts, and knows the verdicts at the last two ticks.
pub trait Channel: Drop {
    /// It was set to this config, and took these inputs.
    ghost stands: { Self → Settings → List InputData → Type 0 };

    /// Takes the inputs up to tick `n`. The trace begins with the inputs that were taken already.
    fn catch_up(&mut self, trace: &Trace, n: u32)
        requires from { (config : Settings) × (at : ℕ) × (at ≤ n) × stands self.old config (take at trace.now.inputs) }
        requires to { n ≤ length trace.now.inputs }
        ensures { (config : Settings) (at : ℕ) → at ≤ n → stands self.old config (take at trace.now.inputs)
            → stands self.new config (take n trace.now.inputs) };

    /// How many inputs it took.
    fn at(&self) -> u32
        ensures { (config : Settings) (inputs : List InputData) → stands self.now config inputs
            → result ≡ length inputs };

    /// The verdict at the last tick. The initial one where it took none.
    fn verdict(&self) -> Verdict
        ensures { (config : Settings) (inputs : List InputData) → stands self.now config inputs
            → result ≡ verdict_at_end config inputs };

    /// The verdict at the tick before. The initial one where it took none or one.
    fn before(&self) -> Verdict
        ensures { (config : Settings) (inputs : List InputData) → stands self.now config inputs
            → result ≡ verdict_at_end config (take (length inputs - 1) inputs) };

    /// Whether the authorised reset rises at the last tick.
    fn reset_rise(&self) -> bool
        ensures { (config : Settings) (inputs : List InputData) → stands self.now config inputs
            → result ≡ rises (words_of inputs) RESET (length inputs) };
}
