// What is true of the trace that producers make of any script, and of each audit. The functions do nothing: each is a law (all own).
ghost use Rattle.std.specs.Prelude.{◌≡◌, ℕ, ◌<◌, ◌^◌, List};
ghost use Rattle.lift_model.specs.Records.{Settings, InputData};
ghost use Rattle.lift_model.specs.Truth.{IsGenuine};
ghost use Rattle.node_sim.specs.Produced.{produced};
ghost use Rattle.node_sim.specs.Audits.{AuditsSayWhatIs};
ghost use Rattle.node_sim.specs.Laws.{Serves, AreRecent, NeverMissing, SimulatedIsTrue, SendsOne};

/// A produced trace is genuine. From tick 7 on each configured source has a value, which was its true word in the cycle before, so the
/// first clause never fails there.
pub fn produced_is_true()
    ensures genuine { (config : Settings) (cycle : ℕ) (inputs : List InputData) → Serves config cycle
        → IsGenuine config (produced config cycle inputs) }
    ensures recent { (config : Settings) (cycle : ℕ) (inputs : List InputData) → Serves config cycle
        → AreRecent config cycle (produced config cycle inputs) }
    ensures missing { (config : Settings) (cycle : ℕ) (inputs : List InputData) → Serves config cycle
        → NeverMissing config (produced config cycle inputs) }
{}

/// In a lawful run of a produced trace, whatever the crew, each value behind power was a true word of the cycle before the sample.
pub fn simulated_is_true()
    ensures { SimulatedIsTrue }
{
    round_model::lawful_is_backed();
    round_model::lawful_is_plain();
}

/// A source's plain and inverted frames are due at different ticks, so it sends one frame a tick at most.
pub fn sends_one()
    ensures { SendsOne }
{}

/// An audit names no pair exactly where the trace is genuine. Its oldest age is at most how long a pair counts and how far its frames are
/// apart; in a genuine trace it bounds the age of each true word behind a power that a healthy side granted.
pub fn audit_is_true()
    ensures { AuditsSayWhatIs }
{}
