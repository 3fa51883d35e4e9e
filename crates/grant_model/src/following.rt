// How a channel catches up: run by run, with one look at the trace for each.
ghost use Rattle.std.specs.Prelude.{◌≡◌, ℕ, ◌<◌, ◌≤◌, ◌^◌, ◌++◌, ◌∷◌, [], List, length, take};
ghost use Rattle.lift_model.specs.Records.{Settings, InputData};
ghost use Rattle.grant_model.specs.Runs.{AllAre};

use lift_trace::{Input, Trace};

/// Takes the inputs of ticks one by one.
pub trait Follower {
    /// It was set to this config, and took these inputs.
    ghost stands: { Self → Settings → List InputData → Type 0 };

    /// How many inputs it took.
    fn taken(&self) -> u32
        ensures { (config : Settings) (inputs : List InputData) → stands self.now config inputs → result ≡ length inputs };

    /// Takes the next input.
    fn take(&mut self, input: &Input)
        requires { (config : Settings) × (inputs : List InputData) × (stands self.old config inputs) × (length inputs < 2 ^ 24) }
        ensures { (config : Settings) (inputs : List InputData) → stands self.old config inputs
            → stands self.new config (inputs ++ input.now ∷ []) };

    /// Takes the next tick, in which no frames came and the wires have these words.
    fn pass(&mut self, a: u16, b: u16)
        requires { (config : Settings) × (inputs : List InputData) × (x : InputData) × (x.frames ≡ []) × (x.words ≡ record { a = a; b = b })
            × (stands self.old config inputs) × (length inputs < 2 ^ 24) }
        ensures { (config : Settings) (inputs : List InputData) (x : InputData) → x.frames ≡ [] → x.words ≡ record { a = a; b = b }
            → stands self.old config inputs → stands self.new config (inputs ++ x ∷ []) };
}

/// Takes the ticks after `from` up to `end`, whose inputs are all this one. Where it has no frames, its words are all that is
/// looked at.
fn take_run<F: Follower>(follower: &mut F, input: &Input, from: u32, end: u32)
    requires { (config : Settings) × (inputs : List InputData) × (F.stands follower.old config (take from inputs)) × (from ≤ end)
        × (end ≤ length inputs) × (length inputs < 2 ^ 24) × AllAre inputs input.now from end }
    ensures { (config : Settings) (inputs : List InputData) → F.stands follower.old config (take from inputs) → from ≤ end
        → end ≤ length inputs → AllAre inputs input.now from end → F.stands follower.new config (take end inputs) }
{
    if input.frames.len() == 0 {
        let (a, b) = (input.a, input.b);
        for _tick in from..end {
            follower.pass(a, b);
        }
    } else {
        for _tick in from..end {
            follower.take(input);
        }
    }
}

/// Takes the inputs up to tick `n`. The trace begins with the inputs that were taken already.
pub fn follow<F: Follower>(follower: &mut F, trace: &Trace, n: u32)
    requires from { (config : Settings) × (at : ℕ) × (at ≤ n) × F.stands follower.old config (take at trace.now.inputs) }
    requires to { n ≤ length trace.now.inputs }
    ensures { (config : Settings) (at : ℕ) → at ≤ n → F.stands follower.old config (take at trace.now.inputs)
        → F.stands follower.new config (take n trace.now.inputs) }
{
    // A trace is shorter than 2^24, which is what the consumers count to.
    let _short = trace.len();
    let mut at = follower.taken();
    while at < n {
        let end = trace.run_end(at + 1).min(n);
        take_run(follower, trace.get(at + 1), at, end);
        at = end;
    }
}
