// The script of a fault is a replay, so reading what is written of it gives it (own).
ghost use Rattle.std.specs.Prelude.{Bool, List};
ghost use Rattle.std.specs.List.{AllByRecursion};
ghost use Rattle.script_model.specs.Judging.{ScriptData};
ghost use Rattle.script_model.specs.Valid.{IsReplay};
ghost use Rattle.fault_plan.specs.Made.{script_with};
ghost use Rattle.fault_plan.specs.Ranges.{AreTickWords, IsFault};
ghost use Rattle.fault_plan.specs.declared.single.SingleFault.{SingleFault};
ghost use Rattle.fault_plan.specs.declared.words.TickWords.{TickWords};

/// The script of a fault over a script of Form Replay is one of Form Replay, in every range.
pub fn faulted_scripts_are_replays()
    ensures { (places : List Bool) (words : List TickWords) (fault : SingleFault) (s : ScriptData)
        → AllByRecursion AreTickWords words → IsFault fault → IsReplay places s → IsReplay places (script_with words fault s) }
{}
