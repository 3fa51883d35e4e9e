//! Laws of the texts: what is written is read back, a text means one thing, it has a script exactly where it is spelled so, and
//! each script that was read is in its ranges. All for a crew of which it is known which places hold an object.
#![tactic(auto)]

ghost use Rattle.std.specs.Prelude.{◌≡◌, ◌⊎◌, ◌↔◌, ◌<◌, ◌≤◌, ℕ, Bool, List, length, take};
ghost use Rattle.lift_base.specs.declared.forms.Form.{Form};
ghost use Rattle.lift_base.specs.declared.forms.Form.TheVariants.{Replay, Schedule, Simulate};
ghost use Rattle.script_model.specs.Generated.{generated};
ghost use Rattle.script_model.specs.Judging.{ScriptData};
ghost use Rattle.script_model.specs.Meaning.{IsOpen, bytes_of, reading, meaning, count_of, MeansScript, IsRefused};
ghost use Rattle.script_model.specs.declared.refusals.Refusal.{Refusal};
ghost use Rattle.script_model.specs.Rules.{IsSimulation};
ghost use Rattle.script_model.specs.Text.{script_text};
ghost use Rattle.script_model.specs.Valid.{IsReplay};
ghost use Rattle.script_laws.specs.Ranges.{IsSchedule};
ghost use Rattle.script_laws.specs.Spelling.{IsSpelled};
ghost use Rattle.script_laws.specs.Steps.{HasItsSteps};

/// Reading the text of a script of Form Replay gives the script.
pub fn what_is_written_is_read()
    ensures { (places : List Bool) (s : ScriptData) → IsReplay places s → MeansScript Replay places (script_text s) s }
{}

/// So is the script that is generated from a number: it is one of Form Replay for any crew, in every range.
pub fn generated_scripts_are_read()
    ensures replay { (places : List Bool) (number : ℕ) → IsReplay places (generated number) }
    ensures read { (places : List Bool) (number : ℕ) → MeansScript Replay places (script_text (generated number)) (generated number) }
{}

/// A text has a script or a first refusal, never both, and one of it.
pub fn exactly_one_meaning()
    ensures either { (form : Form) (places : List Bool) (text : List ℕ)
        → ((s : ScriptData) × MeansScript form places text s) ⊎ ((r : Refusal) × IsRefused form places text r) }
    ensures one { (form : Form) (places : List Bool) (text : List ℕ) (s : ScriptData) (r : Refusal)
        → MeansScript form places text s → ¬ IsRefused form places text r }
    ensures script { (form : Form) (places : List Bool) (text : List ℕ) (s t : ScriptData)
        → MeansScript form places text s → MeansScript form places text t → s ≡ t }
    ensures refusal { (form : Form) (places : List Bool) (text : List ℕ) (q r : Refusal)
        → IsRefused form places text q → IsRefused form places text r → q ≡ r }
{}

/// Each byte is counted once. As long as a text is open, all its bytes were looked at; what ends or refuses it is told at the last
/// byte that is counted, and no later byte changes it. The end of the text counts none.
pub fn bytes_are_counted()
    ensures within { (form : Form) (places : List Bool) (text : List ℕ) → bytes_of (reading form places text) ≤ length text }
    ensures all { (form : Form) (places : List Bool) (text : List ℕ) → IsOpen (reading form places text)
        → bytes_of (reading form places text) ≡ length text }
    ensures before { (form : Form) (places : List Bool) (text : List ℕ) (n : ℕ) → n < bytes_of (reading form places text)
        → IsOpen (reading form places (take n text)) }
    ensures decided { (form : Form) (places : List Bool) (text : List ℕ)
        → reading form places (take (bytes_of (reading form places text)) text) ≡ reading form places text }
    ensures last { (form : Form) (places : List Bool) (text : List ℕ)
        → count_of (meaning form places text) ≡ bytes_of (reading form places text) }
{}

/// A text has this script of Form Replay exactly where it is spelled so: a head, its mark, groups of lines, and the end.
pub fn spelled_is_read()
    ensures { (places : List Bool) (text : List ℕ) (s : ScriptData) → MeansScript Replay places text s ↔ IsSpelled places text s }
{}

/// A schedule has a tick among its steps for each of its inputs, and a replay and a simulation have no steps.
pub fn ticks_are_steps()
    ensures { (form : Form) (places : List Bool) (text : List ℕ) (s : ScriptData) → MeansScript form places text s
        → HasItsSteps form s }
{}

/// A script that was read keeps every range: its settings, at most as many inputs as its head says ticks, each input, and the
/// words of its steps.
pub fn read_scripts_are_in_range()
    ensures replay { (places : List Bool) (text : List ℕ) (s : ScriptData) → MeansScript Replay places text s → IsReplay places s }
    ensures schedule { (places : List Bool) (text : List ℕ) (s : ScriptData) → MeansScript Schedule places text s
        → IsSchedule s }
{}

/// A text means a simulation exactly where it means, as a replay, this script, and the script has neither frames nor faults. So what is
/// said of a replay that was read is said of a simulation, and reading what was written of a simulation gives it again.
pub fn simulations_are_replays()
    ensures read { (places : List Bool) (text : List ℕ) (s : ScriptData)
        → MeansScript Simulate places text s ↔ (MeansScript Replay places text s × IsSimulation s) }
    ensures written { (places : List Bool) (s : ScriptData) → IsReplay places s → IsSimulation s
        → MeansScript Simulate places (script_text s) s }
{}

/// A replay that was read is read again from its own text.
pub fn what_is_read_is_written_and_read()
    ensures { (places : List Bool) (text : List ℕ) (s : ScriptData) → MeansScript Replay places text s
        → MeansScript Replay places (script_text s) s }
{}
